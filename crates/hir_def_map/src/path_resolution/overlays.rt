//! Merging answers, as `PerNs::or` does with items: what the upper answer lacks is taken from the lower one.
ghost use Rattle.std.specs.Prelude.{refl};
ghost use Rattle.hir_def_map.specs.declared.path_resolution.result.ReachedFixedPoint.TheVariants.{No};
ghost use Rattle.hir_def_map.specs.Answers.{no_flags, nothing_no, either_yes, either_flags, over_answer};
ghost use Rattle.hir_def_map.specs.Overlays.{yes_associative, yes_over_no, yes_same, flags_associative, flags_over_none, flags_same, answers_associative, answer_over_nothing, answer_same};

use crate::path_resolution::answers::nothing_no;
use crate::path_resolution::result::{
    ReachedFixedPoint, ResolvePathResult, ResolvePathResultPrefixInfo,
};
use dm_base::overlay::Overlay;

/// Yes if either is.
impl Overlay for ReachedFixedPoint {
    ghost nothing = { No };

    ghost overlaid = { either_yes };

    ghost associative = { yes_associative };

    ghost over_nothing = { yes_over_no };

    ghost under_nothing = { λ _. refl };

    ghost idempotent = { yes_same };

    fn empty() -> ReachedFixedPoint {
        ReachedFixedPoint::No
    }

    fn over(self, other: ReachedFixedPoint) -> ReachedFixedPoint {
        match self {
            ReachedFixedPoint::Yes => ReachedFixedPoint::Yes,
            ReachedFixedPoint::No => other,
        }
    }
}

/// Each flag if either has it.
impl Overlay for ResolvePathResultPrefixInfo {
    ghost nothing = { no_flags };

    ghost overlaid = { either_flags };

    ghost associative = { flags_associative };

    ghost over_nothing = { flags_over_none };

    ghost under_nothing = { λ _. refl };

    ghost idempotent = { flags_same };

    fn empty() -> ResolvePathResultPrefixInfo {
        ResolvePathResultPrefixInfo {
            differing_crate: false,
            enum_variant: false,
        }
    }

    fn over(self, other: ResolvePathResultPrefixInfo) -> ResolvePathResultPrefixInfo {
        ResolvePathResultPrefixInfo {
            differing_crate: self.differing_crate || other.differing_crate,
            enum_variant: self.enum_variant || other.enum_variant,
        }
    }
}

/// In each namespace the first item; the greatest index; yes if either is; each flag if either has it.
impl Overlay for ResolvePathResult {
    ghost nothing = { nothing_no };

    ghost overlaid = { over_answer };

    ghost associative = { answers_associative };

    ghost over_nothing = { answer_over_nothing };

    ghost under_nothing = { λ _. refl };

    ghost idempotent = { answer_same };

    fn empty() -> ResolvePathResult {
        nothing_no()
    }

    fn over(self, other: ResolvePathResult) -> ResolvePathResult {
        ResolvePathResult {
            resolved_def: self.resolved_def.over(other.resolved_def),
            segment_index: self.segment_index.over(other.segment_index),
            reached_fixedpoint: self.reached_fixedpoint.over(other.reached_fixedpoint),
            prefix_info: self.prefix_info.over(other.prefix_info),
        }
    }
}
