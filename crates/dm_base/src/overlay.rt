//! `Overlay`: values of which one shadows another, part by part.
ghost use Rattle.std.specs.Prelude.{◌≡◌, refl, None};
ghost use Rattle.std.specs.Option.{option_or};
ghost use Rattle.dm_base.specs.PerNs.{nothing, over};
ghost use Rattle.dm_base.specs.Overlays.{option_or_associative, option_or_none, option_or_same, greatest, greatest_associative, greatest_none, greatest_same, over_associative, over_nothing, over_same};

use crate::per_ns::{Item, PerNs};

/// Values that shadow one another, part by part: what the upper one lacks shows through from the lower one.
///
/// They are an idempotent monoid: `over` is associative, and an empty layer, or the same layer twice, changes nothing.
pub trait Overlay: Copy {
    ghost nothing: { Self };

    ghost overlaid: { Self → Self → Self };

    /// The value that hides nothing.
    fn empty() -> Self
        ensures { result ≡ nothing };

    /// This value, over the other.
    fn over(self, other: Self) -> Self
        ensures { result ≡ overlaid self other };

    ghost associative: { (x y z : Self) → overlaid (overlaid x y) z ≡ overlaid x (overlaid y z) };

    ghost over_nothing: { (x : Self) → overlaid x nothing ≡ x };

    ghost under_nothing: { (x : Self) → overlaid nothing x ≡ x };

    ghost idempotent: { (x : Self) → overlaid x x ≡ x };
}

/// An optional item: the first that is there.
impl<Def: Copy, Import: Copy> Overlay for Option<Item<Def, Import>> {
    ghost nothing = { None };

    ghost overlaid = { option_or };

    ghost associative = { option_or_associative };

    ghost over_nothing = { option_or_none };

    ghost under_nothing = { λ _. refl };

    ghost idempotent = { option_or_same };

    fn empty() -> Option<Item<Def, Import>> {
        None
    }

    fn over(self, other: Option<Item<Def, Import>>) -> Option<Item<Def, Import>> {
        self.or(other)
    }
}

/// The index of a path's first unresolved segment: the greatest that is there.
impl Overlay for Option<usize> {
    ghost nothing = { None };

    ghost overlaid = { greatest };

    ghost associative = { greatest_associative };

    ghost over_nothing = { greatest_none };

    ghost under_nothing = { λ _. refl };

    ghost idempotent = { greatest_same };

    fn empty() -> Option<usize> {
        None
    }

    fn over(self, other: Option<usize>) -> Option<usize> {
        match (self, other) {
            (Some(upper), Some(lower)) => Some(upper.max(lower)),
            (Some(upper), None) => Some(upper),
            (None, lower) => lower,
        }
    }
}

/// Items per namespace: in each namespace the first item that is there.
impl Overlay for PerNs {
    ghost nothing = { nothing };

    ghost overlaid = { over };

    ghost associative = { over_associative };

    ghost over_nothing = { over_nothing };

    ghost under_nothing = { λ _. refl };

    ghost idempotent = { over_same };

    fn empty() -> PerNs {
        PerNs::none()
    }

    fn over(self, other: PerNs) -> PerNs {
        PerNs::or(self, other)
    }
}
