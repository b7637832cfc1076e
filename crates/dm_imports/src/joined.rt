//! What the globs of a module bring together.
ghost use Rattle.std.specs.Prelude.{◌≡◌};
ghost use Rattle.dm_imports.specs.Meanings as spec;

use crate::meaning::Meaning;
use dm_base::visibility::Visibility;

/// What some globs bring to a slot: the first of it, and the most and the least permissive of all visibilities.
#[derive(Clone, Copy, PartialEq, Eq, Debug)]
pub struct Joined {
    pub first: Meaning,
    pub most: Visibility,
    pub least: Visibility,
    /// Whether there are two definitions, or one is ambiguous.
    pub is_ambiguous: bool,
}

/// What they mean together.
pub(crate) fn together(all: Joined) -> Meaning
    ensures { result ≡ spec.joined all }
{
    let vis = if all.is_ambiguous {
        all.least
    } else {
        all.most
    };
    Meaning {
        vis,
        is_ambiguous: all.is_ambiguous,
        ..all.first
    }
}
