//! The table of jump pointers (binary lifting): for each module its depth, and its ladder, which is the members of its
//! chain that lie a power of two behind it.
ghost use Rattle.std.specs.Prelude.{◌≡◌, ◌<◌, ◌≤◌, ◌-◌, ◌++◌, ◌∷◌, [], Some, IfSome, OnOk, OnErr, length, take, count_ones};
ghost use Rattle.dm_base.specs.Tree.{chain, is_among};
ghost use Rattle.dm_maps.specs.Ancestry.{moves};
ghost use Rattle.dm_maps.specs.JumpPointers.{AreLadders, IsLadder, above, climb, depth_at, entry_at, tree_above, tree_of};

pub mod laws;

use dm_base::ids::ModuleId;
use std::alloc::{AllocError, Global};
use std::marker::Model;

/// A module's depth and jump pointers: entry `k` is member `2^k` of its chain, or the last member of a shorter chain.
#[derive(Clone, Copy)]
struct Ladder {
    depth: u32,
    entries: [u32; 32],
}

/// The ladders of all modules, in order of number. Contracts see the module that contains each.
pub struct Ladders {
    ladders: Vec<Ladder>,
}

/// Hand-written `Drop`, to keep proofs small: dropping one is then a single call.
impl Drop for Ladders {
    fn drop(self) {
        let Ladders { ladders: _ladders } = self;
    }
}

impl Model for Ladders {
    ghost use Rattle.std.specs.Prelude.{List, Option, map};
    ghost use Rattle.dm_base.specs.declared.ids.ModuleId.{ModuleId};
    ghost use Rattle.dm_maps.specs.JumpPointers.{AreLadders, above};

    ghost Value = { List (Option ModuleId) };

    ghost view = { λ l. map above l.ladders.items };

    ghost invariant = { λ l. AreLadders l.ladders.items };
}

impl Ladders {
    /// An empty table.
    pub fn new(alloc: Global) -> Ladders
        ensures { result ≡ [] }
    {
        Ladders {
            ladders: Vec::new(alloc),
        }
    }

    /// Adds the ladder of the next module, which lies in `containing`. Where an allocation fails, nothing changes.
    pub fn push(&mut self, containing: Option<ModuleId>) -> Result<(), AllocError>
        requires room { length self.old < 4294967295 }
        requires known { IfSome containing (λ c. c.0 < length self.old) }
        ensures ok { OnOk result (self.new ≡ self.old ++ containing ∷ []) }
        ensures err { OnErr result (self.new ≡ self.old) }
    {
        let ladder = next_ladder(&self.ladders, containing);
        self.ladders.push(ladder)?;
        Ok(())
    }

    /// Removes the last ladder.
    pub fn pop(&mut self)
        ensures { self.new ≡ take (length self.old - 1) self.old }
    {
        self.ladders.pop();
    }

    /// Whether `a` is `m` or contains it, however far out; and after how many hops that was found, each of them along
    /// one jump pointer, to member `2^k` of a chain. Does not allocate.
    pub fn contains_counted(&self, a: ModuleId, m: ModuleId) -> (bool, u32)
        requires ancestor { a.0 < length self.now }
        requires module { m.0 < length self.now }
        ensures answer { result.0 ≡ is_among a (chain (tree_above self.now) m) }
        ensures moves { result.1 ≡ moves (tree_above self.now) a m }
        ensures few { result.1 ≤ 32 }
    {
        let outer = depth_at(&self.ladders, a.0);
        let inner = depth_at(&self.ladders, m.0);
        if inner < outer {
            return (false, 0);
        }
        let (at, moves) = moved(&self.ladders, m.0, inner - outer);
        (a.0 == at, moves)
    }
}

/// Where `deeper` steps lead from a module, and in how many hops: one for each set bit of `deeper`.
fn moved(ladders: &[Ladder], m: u32, deeper: u32) -> (u32, u32)
    requires lawful { AreLadders ladders.now }
    requires known { m < length ladders.now }
    ensures at { result.0 ≡ (climb (tree_of ladders.now) deeper (record { 0 = m })).0 }
    ensures moves { result.1 ≡ count_ones deeper }
    ensures few { result.1 ≤ 32 }
{
    let mut at = m;
    let mut rest = deeper;
    let mut moves = 0;
    for k in 0..32usize {
        if rest == 0 {
            return (at, moves);
        }
        if rest % 2 == 1 {
            at = entry_at(ladders, at, k);
            moves += 1;
        }
        rest /= 2;
    }
    (at, moves)
}

/// The ladder of the next module.
fn next_ladder(ladders: &[Ladder], containing: Option<ModuleId>) -> Ladder
    requires lawful { AreLadders ladders.now }
    requires room { length ladders.now < 4294967295 }
    requires known { IfSome containing (λ c. c.0 < length ladders.now) }
    ensures lawful { IsLadder ladders.now (length ladders.now) result }
    ensures above { above result ≡ containing }
{
    match containing {
        None => Ladder {
            depth: 0,
            entries: [ladders.len() as u32; 32],
        },
        Some(c) => ladder_below(ladders, c.0),
    }
}

/// The ladder of the next module, where module `c` contains it.
fn ladder_below(ladders: &[Ladder], c: u32) -> Ladder
    requires lawful { AreLadders ladders.now }
    requires room { length ladders.now < 4294967295 }
    requires known { c < length ladders.now }
    ensures lawful { IsLadder ladders.now (length ladders.now) result }
    ensures above { above result ≡ Some (record { 0 = c }) }
{
    let mut entries = [c; 32];
    for k in 1..32usize {
        entries[k] = entry_at(ladders, entries[k - 1], k - 1);
    }
    Ladder {
        depth: depth_at(ladders, c) + 1,
        entries,
    }
}

/// The depth of a module.
fn depth_at(ladders: &[Ladder], m: u32) -> u32
    requires { m < length ladders.now }
    ensures { result ≡ depth_at ladders.now m }
{
    ladders[m as usize].depth
}

/// Entry `k` of a module's ladder.
fn entry_at(ladders: &[Ladder], m: u32, k: usize) -> u32
    requires lawful { AreLadders ladders.now }
    requires known { m < length ladders.now }
    requires rung { k < 32 }
    ensures value { result ≡ entry_at ladders.now m k }
    ensures known { result < length ladders.now }
{
    ladders[m as usize].entries[k]
}
