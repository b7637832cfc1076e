//! The places of dirty imports.
ghost use Rattle.std.specs.Prelude.{◌≡◌, ℕ, ◌/◌, ◌^◌, ◌<◌, ◌≤◌, true, false, List, [], length, if◌then◌else◌, nat_eq, IsTrue, ◌↔◌, OnOk, OnErr};
ghost use Rattle.dm_retry.specs.Bits.{IsDirtySet, IsFirst, has, word};

use crate::worklist::bits;
use std::alloc::{AllocError, Global};
use std::marker::Model;

/// A set of places: words of bits, and above them a set of the words that have a bit. A contract sees the words.
pub(crate) struct DirtySet {
    words: Vec<u64>,
    top: Vec<u64>,
}

impl Model for DirtySet {
    ghost use Rattle.std.specs.Prelude.{ℕ, List};
    ghost use Rattle.dm_retry.specs.Bits.{IsDirtySet};

    ghost Value = { List ℕ };

    ghost view = { λ d. d.words.items };

    ghost invariant = { λ d. IsDirtySet d.top.items d.words.items };
}

/// A hand-written `Drop`, to keep proofs small: what drops one has one call to prove.
impl Drop for DirtySet {
    fn drop(self) {
        let DirtySet {
            words: _words,
            top: _top,
        } = self;
    }
}

impl DirtySet {
    /// No place, and room for none.
    pub(crate) fn new(alloc: Global) -> DirtySet
        ensures { result ≡ [] }
    {
        DirtySet {
            words: Vec::new(alloc),
            top: Vec::new(alloc),
        }
    }

    /// Adds a place.
    pub(crate) fn insert(&mut self, k: usize)
        requires { k / 64 < length self.old }
        ensures len { length self.new ≡ length self.old }
        ensures has { (i : ℕ) → has self.new i ≡ (if nat_eq i k then true else has self.old i) }
    {
        bits::insert(&mut self.words, k);
        bits::insert(&mut self.top, k / 64);
    }

    /// Takes a place out.
    pub(crate) fn remove(&mut self, k: usize)
        requires { k / 64 < length self.old }
        ensures len { length self.new ≡ length self.old }
        ensures has { (i : ℕ) → has self.new i ≡ (if nat_eq i k then false else has self.old i) }
    {
        bits::remove(&mut self.words, k);
        if self.words[k / 64] == 0 {
            bits::remove(&mut self.top, k / 64);
        }
    }

    /// Adds a place or takes it out.
    pub(crate) fn set(&mut self, k: usize, dirty: bool)
        requires { k / 64 < length self.old }
        ensures len { length self.new ≡ length self.old }
        ensures has { (i : ℕ) → has self.new i ≡ (if nat_eq i k then dirty else has self.old i) }
    {
        if dirty {
            self.insert(k);
        } else {
            self.remove(k);
        }
    }

    /// Makes room for a place.
    pub(crate) fn cover(&mut self, k: usize) -> Result<(), AllocError>
        requires { k < 2 ^ 32 }
        ensures has { (i : ℕ) → has self.new i ≡ has self.old i }
        ensures len { length self.old ≤ length self.new }
        ensures ok { OnOk result (k / 64 < length self.new) }
    {
        let covered = cover(&mut self.words, &mut self.top, k / 64)?;
        Ok(covered)
    }

    /// The first place from `from` on.
    pub(crate) fn first(&self, from: usize) -> Option<usize>
        ensures { IsFirst (has self.now) from result }
    {
        first_of(self.words.as_slice(), self.top.as_slice(), from)
    }
}

/// The first place from `from` on, by the words and their summary.
fn first_of(words: &[u64], top: &[u64], from: usize) -> Option<usize>
    requires { IsDirtySet top.now words.now }
    ensures { IsFirst (has words.now) from result }
{
    if let Some(found) = bits::first_in_word(words, from) {
        return Some(found);
    }
    match bits::first(top, from / 64 + 1) {
        None => None,
        Some(j) => bits::first_in_word(words, j * 64),
    }
}

/// Makes room for the word at a place.
fn cover(words: &mut Vec<u64>, top: &mut Vec<u64>, j: usize) -> Result<(), AllocError>
    requires kept { IsDirtySet top.old.items words.old.items }
    requires few { j < 2 ^ 32 }
    ensures kept { IsDirtySet top.new.items words.new.items }
    ensures same { (i : ℕ) → word words.new.items i ≡ word words.old.items i }
    ensures len { length words.old.items ≤ length words.new.items }
    ensures ok { OnOk result (j < length words.new.items) }
{
    bits::cover(top, j / 64)?;
    let covered = bits::cover(words, j)?;
    Ok(covered)
}
