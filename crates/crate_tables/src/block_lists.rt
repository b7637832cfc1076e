//! `impl` and `extern` blocks in the lists of scopes, numbered over all crates.
ghost use Rattle.std.specs.Prelude.{◌≡◌, ◌+◌, IfErr, IfOk, IsTrue, OnOk, length, slice_get, true};
ghost use Rattle.crate_tables.specs.BlockLists as spec;
ghost use Rattle.crate_tables.specs.TextualMacros.{AllStayShown, StaysKnown};
ghost use Rattle.dm_maps.specs.declared.check.held.HeldId.TheVariants as held;
ghost use Rattle.dm_maps.specs.Known.{knows};
ghost use Rattle.dm_maps.specs.declared.build_fault.BuildFault.TheVariants.{OutOfMemory};
ghost use Rattle.crate_tables.specs.Numbers.{is_past, is_shortage};

use crate::crate_table::CrateTable;
use crate::item_place::{BlockKind, BlockPlace};
use crate::scope_entry::{ScopeEntry, list_entry};
use dm_base::ids::{ExternBlockId, ImplId};
use dm_maps::build_fault::BuildFault;
use dm_maps::builder::WorldBuilder;
use dm_maps::check::held::HeldId;
use dm_maps::check::known_ids::KnownIds;

/// The number behind another. `OutOfNumbers` where there is none of 32 bits.
pub fn behind(number: u32) -> Result<u32, BuildFault>
    ensures exact { IfOk result (λ next. next ≡ number + 1) }
    ensures fault { IfErr result (λ fault. is_shortage (is_past (number + 1)) fault ≡ true) }
{
    match number.checked_add(1) {
        Some(next) => Ok(next),
        None => Err(BuildFault::OutOfNumbers),
    }
}

/// Lists a block of a number in its module.
fn define(builder: &mut WorldBuilder, block: BlockPlace, number: u32) -> Result<(), BuildFault>
    requires { IsTrue (knows builder.old (held.Module block.home)) }
    ensures world { OnOk result (builder.new ≡ spec.with_known_block builder.old number block) }
    ensures stays { StaysKnown builder.old builder.new }
    ensures shown { AllStayShown builder.old builder.new }
    ensures fault { IfErr result (λ fault. fault ≡ OutOfMemory) }
{
    let entry = match block.kind {
        BlockKind::TraitImpl => ScopeEntry::Impl(ImplId(number), true),
        BlockKind::InherentImpl => ScopeEntry::Impl(ImplId(number), false),
        BlockKind::Extern => ScopeEntry::ExternBlock(ExternBlockId(number)),
    };
    list_entry(builder, block.home, entry)
}

/// The same, if the builder has that module. Gives the number of the next block.
fn list_block(builder: &mut WorldBuilder, block: BlockPlace, number: u32) -> Result<u32, BuildFault>
    ensures world { OnOk result (builder.new ≡ spec.with_block builder.old number block) }
    ensures number { IfOk result (λ next. next ≡ number + 1) }
    ensures stays { StaysKnown builder.old builder.new }
    ensures shown { AllStayShown builder.old builder.new }
    ensures fault { IfErr result (λ fault. is_shortage (is_past (number + 1)) fault ≡ true) }
{
    let next = behind(number)?;
    if builder.knows(HeldId::Module(block.home)) {
        define(builder, block, number)?;
    }
    Ok(next)
}

/// Lists the blocks of a crate, the first of which has a number. Gives the number of the next block.
fn list_blocks_of(
    builder: &mut WorldBuilder,
    blocks: &[BlockPlace],
    first: u32,
) -> Result<u32, BuildFault>
    ensures world { OnOk result (builder.new ≡ spec.with_blocks_from builder.old first blocks.now) }
    ensures number { IfOk result (λ next. next ≡ first + length blocks.now) }
    ensures stays { StaysKnown builder.old builder.new }
    ensures shown { AllStayShown builder.old builder.new }
    ensures fault { IfErr result (λ fault. is_shortage (is_past (first + length blocks.now)) fault ≡ true) }
{
    let mut number = first;
    for block in blocks {
        number = list_block(builder, *block, number)?;
    }
    Ok(number)
}

/// Puts the `impl` and `extern` blocks of some crates into the lists of their modules, in order. The number of a block is its
/// place among those of all crates. Nothing else of a scope changes.
///
/// # Errors
///
/// Fails only where memory runs out, and with `OutOfNumbers` at the 4,294,967,296th block. What was listed before stays.
pub(crate) fn list_blocks(
    builder: &mut WorldBuilder,
    tables: &[CrateTable],
) -> Result<(), BuildFault>
    ensures world { OnOk result (builder.new ≡ spec.with_all_blocks builder.old tables.now) }
    ensures stays { StaysKnown builder.old builder.new }
    ensures shown { AllStayShown builder.old builder.new }
    ensures fault { IfErr result (λ fault. is_shortage (is_past (length (spec.blocks_of tables.now))) fault ≡ true) }
{
    let mut number: u32 = 0;
    for table in tables {
        number = list_blocks_of(builder, table.blocks(), number)?;
    }
    Ok(())
}

/// The block of a number, among those of all crates.
pub fn numbered_block(tables: &[CrateTable], number: u32) -> Option<BlockPlace>
    ensures { result ≡ slice_get (spec.blocks_of tables.now) number }
{
    let mut at = number as usize;
    for table in tables {
        let blocks = table.blocks();
        if at < blocks.len() {
            return Some(blocks[at]);
        }
        at -= blocks.len();
    }
    None
}
