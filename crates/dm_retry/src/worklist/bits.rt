//! Sets of places, as words of 64 bits.
ghost use Rattle.std.specs.Prelude.{◌≡◌, ◌≢◌, ℕ, ◌+◌, ◌*◌, ◌/◌, ◌%◌, ◌^◌, ◌<◌, ◌≤◌, true, false, length, if◌then◌else◌, nat_eq, max, IfNone, OnOk};
ghost use Rattle.dm_retry.specs.Bits.{IsFirst, IsFirstBelow, IsLowest, has, word};

use std::alloc::AllocError;

/// Adds a place.
pub(crate) fn insert(words: &mut Vec<u64>, k: usize)
    requires { k / 64 < length words.old.items }
    ensures len { length words.new.items ≡ length words.old.items }
    ensures has { (i : ℕ) → has words.new.items i ≡ (if nat_eq i k then true else has words.old.items i) }
    ensures others { (j : ℕ) → j ≢ k / 64 → word words.new.items j ≡ word words.old.items j }
    ensures filled { nat_eq (word words.new.items (k / 64)) 0 ≡ false }
{
    let bit = 1u64 << (k % 64);
    words[k / 64] |= bit;
}

/// Takes a place out.
pub(crate) fn remove(words: &mut Vec<u64>, k: usize)
    requires { k / 64 < length words.old.items }
    ensures len { length words.new.items ≡ length words.old.items }
    ensures has { (i : ℕ) → has words.new.items i ≡ (if nat_eq i k then false else has words.old.items i) }
    ensures others { (j : ℕ) → j ≢ k / 64 → word words.new.items j ≡ word words.old.items j }
    ensures empty { word words.old.items (k / 64) ≡ 0 → word words.new.items (k / 64) ≡ 0 }
{
    let bit = 1u64 << (k % 64);
    words[k / 64] &= !bit;
}

/// The word at a place, 0 past the end.
fn word_at(words: &[u64], j: usize) -> u64
    ensures { result ≡ word words.now j }
{
    if j < words.len() { words[j] } else { 0 }
}

/// The lowest bit of a word from `from` on.
fn lowest(word: u64, from: usize) -> Option<usize>
    requires { from < 64 }
    ensures { IsLowest word from result }
{
    let high = word & (u64::MAX << from);
    if high == 0 {
        None
    } else {
        Some(high.trailing_zeros() as usize)
    }
}

/// The first place from `from` on of those in its word.
pub(crate) fn first_in_word(words: &[u64], from: usize) -> Option<usize>
    ensures first { IsFirstBelow (has words.now) from (from / 64 * 64 + 64) result }
    ensures none { IfNone result (from % 64 ≡ 0 → word words.now (from / 64) ≡ 0) }
{
    match lowest(word_at(words, from / 64), from % 64) {
        None => None,
        Some(bit) => Some(from / 64 * 64 + bit),
    }
}

/// The first place from `from` on.
pub(crate) fn first(words: &[u64], from: usize) -> Option<usize>
    requires { length words.now ≤ 2 ^ 32 }
    ensures { IsFirst (has words.now) from result }
{
    let mut at = from;
    'words: while at / 64 < words.len() {
        if let Some(found) = first_in_word(words, at) {
            return Some(found);
        }
        at = (at / 64 + 1) * 64;
    }
    None
}

/// Makes room for the word at a place.
pub(crate) fn cover(words: &mut Vec<u64>, j: usize) -> Result<(), AllocError>
    requires { j < 2 ^ 32 }
    ensures same { (i : ℕ) → word words.new.items i ≡ word words.old.items i }
    ensures len { length words.old.items ≤ length words.new.items }
    ensures most { length words.new.items ≤ max (length words.old.items) (j + 1) }
    ensures ok { OnOk result (j < length words.new.items) }
{
    'words: while words.len() <= j {
        words.push(0)?;
    }
    Ok(())
}
