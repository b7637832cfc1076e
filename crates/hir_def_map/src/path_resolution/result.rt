//! The result of path resolution.
ghost use Rattle.std.specs.Prelude.{◌≡◌};
ghost use Rattle.std.proofs.Common.{rules};
ghost use Rattle.hir_def_map.specs.Answers.{no_flags};

use dm_base::per_ns::PerNs;
use dm_base::value_eq::ValueEq;

/// What a path is resolved for: an import, or anything else.
#[derive(Clone, Copy, PartialEq, Eq, Debug)]
pub enum ResolveMode {
    Import,
    Other,
}

/// The status of an answer. `No` comes only where nothing was found. `Yes` comes with all that is found, and with
/// nothing too, as for a path of one name that is not bound: it does not promise that later pushes keep the answer.
#[derive(Clone, Copy, PartialEq, Eq, Debug)]
pub enum ReachedFixedPoint {
    Yes,
    No,
}

/// What a path went through before it was resolved.
#[derive(Clone, Copy, PartialEq, Eq, Debug)]
pub struct ResolvePathResultPrefixInfo {
    /// A module of another crate than the origin's.
    pub differing_crate: bool,
    /// An enum, for one of its variants.
    pub enum_variant: bool,
}

/// Through neither.
impl Default for ResolvePathResultPrefixInfo {
    ghost is_default = { λ f. f ≡ no_flags };

    fn default() -> ResolvePathResultPrefixInfo {
        ResolvePathResultPrefixInfo {
            differing_crate: false,
            enum_variant: false,
        }
    }
}

/// The result of path resolution.
#[derive(Clone, Copy, PartialEq, Eq, Debug)]
pub struct ResolvePathResult {
    /// The definitions, per namespace.
    pub resolved_def: PerNs,
    /// The first segment that is left unresolved; none where the whole path is resolved, and where nothing is found.
    pub segment_index: Option<usize>,
    pub reached_fixedpoint: ReachedFixedPoint,
    pub prefix_info: ResolvePathResultPrefixInfo,
}

impl ValueEq for ResolveMode {
    ghost same = { Prim.search rules };
}

impl ValueEq for ReachedFixedPoint {
    ghost same = { Prim.search rules };
}

impl ValueEq for ResolvePathResultPrefixInfo {
    ghost same = { Prim.search rules };
}
