//! A `filter_map` over a list, whose closure is a named type.
ghost use Rattle.std.specs.Prelude.{◌≡◌, Bool, Option, length};
ghost use Rattle.std.specs.Iterator.{at_most};
ghost use Rattle.std.specs.List.{filter_map};
ghost use Rattle.std.specs.Map.Iter.{TakesFirst, ShowsInOrder};
ghost use Rattle.std.specs.Slice.Iter.{iter_rest};

use std::marker::Model;
use std::slice;

/// The closure of the `filter_map`: what an element shows, if it shows anything.
pub trait Pick<T>: Copy {
    type Shown;

    ghost shown: { T → Option Self.Shown };

    fn pick(&self, x: &T) -> Option<Self::Shown>
        ensures { result ≡ shown x.now };
}

/// What some elements of a list show, in order.
#[derive(Drop)]
pub struct Picked<'a, T, P: Pick<T>> {
    rest: slice::Iter<'a, T>,
    pick: P,
}

impl<'a, T, P: Pick<T>> Model for Picked<'a, T, P> {
    ghost use Rattle.std.specs.Prelude.{List};
    ghost use Rattle.std.specs.List.{filter_map};
    ghost use Rattle.std.specs.Slice.Iter.{iter_rest};

    ghost Value = { List P.Shown };

    ghost view = { λ a. filter_map P.shown (iter_rest a.rest) };
}

impl<'a, T, P: Pick<T>> Picked<'a, T, P> {
    pub(crate) fn new(list: &'a [T], pick: P) -> Self
        ensures rest { result ≡ filter_map P.shown list.now }
        ensures runs { ShowsInOrder (λ (x : P.Shown). x) }
    {
        Picked {
            rest: list.iter(),
            pick,
        }
    }
}

/// The next that an element shows.
fn next_shown<T, P: Pick<T>>(rest: &mut slice::Iter<'_, T>, pick: P) -> Option<P::Shown>
    ensures { TakesFirst (λ x. x) (filter_map P.shown (iter_rest rest.old)) result
        (filter_map P.shown (iter_rest rest.new)) }
{
    while let Some(x) = rest.next() {
        if let Some(shown) = pick.pick(x) {
            return Some(shown);
        }
    }
    None
}

impl<'a, T, P: Pick<T>> Iterator for Picked<'a, T, P> {
    type Item = P::Shown;

    ghost next_gives = { TakesFirst (λ x. x) };

    ghost remaining = { λ s. at_most (length s) };

    fn next(&mut self) -> Option<P::Shown> {
        next_shown(&mut self.rest, self.pick)
    }
}
