//! Extern crates in the lists of scopes.
ghost use Rattle.std.specs.Prelude.{◌≡◌, length, true, IfErr, IfOk, IsTrue, OnOk, drop};
ghost use Rattle.crate_tables.specs.ExternLists as spec;
ghost use Rattle.crate_tables.specs.TextualMacros.{AllStayShown, StaysKnown};
ghost use Rattle.dm_maps.specs.declared.check.held.HeldId.TheVariants as held;
ghost use Rattle.dm_maps.specs.Known.{knows};
ghost use Rattle.crate_tables.specs.Numbers.{is_past, is_shortage};

use crate::extern_crates::ExternCrateRow;
use crate::scope_entry::{ScopeEntry, list_entry};
use dm_base::ids::ExternCrateId;
use dm_maps::build_fault::BuildFault;
use dm_maps::builder::WorldBuilder;
use dm_maps::check::held::HeldId;
use dm_maps::check::known_ids::KnownIds;

/// The extern crate of a number.
fn numbered(number: usize) -> Result<ExternCrateId, BuildFault>
    ensures exact { IfOk result (λ id. id ≡ record { 0 = number }) }
    ensures fault { IfErr result (λ fault. is_shortage (is_past number) fault ≡ true) }
{
    match u32::try_from(number) {
        Ok(number) => Ok(ExternCrateId(number)),
        Err(_) => Err(BuildFault::OutOfNumbers),
    }
}

/// Lists the extern crate of a row in its module.
fn list_row(
    builder: &mut WorldBuilder,
    row: ExternCrateRow,
    number: usize,
) -> Result<(), BuildFault>
    ensures world { OnOk result (builder.new ≡ spec.with_extern_row builder.old number row) }
    ensures stays { StaysKnown builder.old builder.new }
    ensures shown { AllStayShown builder.old builder.new }
    ensures fault { IfErr result (λ fault. is_shortage (is_past number) fault ≡ true) }
{
    let id = numbered(number)?;
    if builder.knows(HeldId::Module(row.home)) {
        list_entry(builder, row.home, ScopeEntry::ExternCrate(id))
    } else {
        Ok(())
    }
}

/// Lists the extern crates of the rows from a number on, each in its module, in order. Nothing else of a scope changes.
///
/// # Errors
///
/// Fails only where memory runs out, and with `OutOfNumbers` past 4,294,967,296 extern crates. What was listed before
/// stays.
pub(crate) fn list_extern_crates(
    builder: &mut WorldBuilder,
    rows: &[ExternCrateRow],
    from: usize,
) -> Result<(), BuildFault>
    ensures world { OnOk result (builder.new ≡ spec.with_extern_rows builder.old from (drop from rows.now)) }
    ensures stays { StaysKnown builder.old builder.new }
    ensures shown { AllStayShown builder.old builder.new }
    ensures fault { IfErr result (λ fault. is_shortage (is_past (length rows.now)) fault ≡ true) }
{
    let mut number = from;
    while number < rows.len() {
        list_row(builder, rows[number], number)?;
        number += 1;
    }
    Ok(())
}
