//! The blocks of a crate, by which new data of the crate finds their maps.
ghost use Rattle.std.specs.Prelude.{◌≡◌, ◌<◌, ◌-◌, ◌++◌, ◌∷◌, [], take, length, OnOk, OnErr};
ghost use Rattle.dm_maps.specs.BlockLists.{entry_with, list_at};

use dm_base::ids::BlockId;
use std::alloc::{AllocError, Global};
use std::marker::Model;

/// The blocks of a crate, in order of number.
#[derive(Drop)]
pub(crate) struct BlockList {
    blocks: Vec<BlockId>,
}

impl Model for BlockList {
    ghost use Rattle.std.specs.Prelude.{List};
    ghost use Rattle.dm_base.specs.declared.ids.BlockId.{BlockId};

    ghost Value = { List BlockId };

    ghost view = { λ l. l.blocks.items };
}

impl BlockList {
    /// No blocks.
    pub(crate) fn new(alloc: Global) -> BlockList
        ensures { result ≡ [] }
    {
        BlockList {
            blocks: Vec::new(alloc),
        }
    }

    /// In order of number.
    pub(crate) fn blocks(&self) -> &[BlockId]
        ensures { result.now ≡ self.now }
    {
        self.blocks.as_slice()
    }

    /// Adds a block, the last. Where an allocation fails, nothing changes.
    fn push(&mut self, b: BlockId) -> Result<(), AllocError>
        ensures ok { OnOk result (self.new ≡ self.old ++ b ∷ []) }
        ensures err { OnErr result (self.new ≡ self.old) }
    {
        self.blocks.push(b)?;
        Ok(())
    }

    /// Takes the last block away.
    fn pop(&mut self)
        ensures { self.new ≡ take (length self.old - 1) self.old }
    {
        self.blocks.pop();
    }
}

/// Adds a block to list `k`, which has to be there: the last.
pub(crate) fn list_block(lists: &mut Vec<BlockList>, k: usize, b: BlockId) -> Result<(), AllocError>
    requires { k < length lists.old.items }
    ensures ok { OnOk result (lists.new.items ≡ entry_with lists.old.items k (λ l. l ++ b ∷ [])) }
    ensures err { OnErr result (lists.new.items ≡ lists.old.items) }
{
    match lists.get_mut(k) {
        None => unreachable!(),
        Some(list) => list.push(b),
    }
}

/// Takes the last block of list `k` away.
pub(crate) fn unlist_block(lists: &mut Vec<BlockList>, k: usize)
    ensures { lists.new.items ≡ entry_with lists.old.items k (λ l. take (length l - 1) l) }
{
    if let Some(list) = lists.get_mut(k) {
        list.pop();
    }
}

/// The blocks of list `k`; none where there is no such list.
pub(crate) fn blocks_of(lists: &[BlockList], k: usize) -> &[BlockId]
    ensures { result.now ≡ list_at lists.now k }
{
    match lists.get(k) {
        None => &[],
        Some(list) => list.blocks(),
    }
}
