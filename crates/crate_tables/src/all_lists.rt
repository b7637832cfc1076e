//! The lists of the scopes of a crate, and which of its functions are procedural macros.
ghost use Rattle.std.specs.Prelude.{◌≡◌, IfErr, OnOk, length, true};
ghost use Rattle.crate_tables.specs.AllLists as spec;
ghost use Rattle.crate_tables.specs.CrateTables.{IsTableOf};
ghost use Rattle.crate_tables.specs.Kept.{IsKept};
ghost use Rattle.crate_tables.specs.Numbers.{is_past, is_shortage};

use crate::crate_table::CrateTable;
use crate::def_index::DefIndex;
use crate::extern_crates::ExternCrateRow;
use crate::extern_lists::list_extern_crates;
use crate::item_outline::ItemOutline;
use crate::procedural_pairs::pair_procedural_macros;
use crate::scope_lists::list_definitions;
use crate_items::modules::declared_module::DeclaredModule;
use dm_base::ids::Crate;
use dm_maps::build_fault::BuildFault;
use dm_maps::builder::WorldBuilder;
use std::alloc::Global;

/// Puts the definitions of a crate and its extern crates, whose rows begin at a number, into the lists of their modules,
/// and tells its def map which functions are procedural macros.
pub(crate) fn fill_lists(
    builder: &mut WorldBuilder,
    alloc: Global,
    modules: &[DeclaredModule],
    krate: Crate,
    table: &CrateTable,
    outlines: &[ItemOutline],
    rows: &[ExternCrateRow],
    from: usize,
) -> Result<(), BuildFault>
    requires { IsTableOf builder.old krate table.now }
    ensures world { OnOk result (builder.new ≡
        spec.with_all_lists krate modules.now table.now builder.old outlines.now from rows.now) }
    ensures stays { IsKept builder.old builder.new }
    ensures kept { OnOk result (IsTableOf builder.new krate table.now) }
    ensures fault { IfErr result (λ fault. is_shortage (is_past (length rows.now)) fault ≡ true) }
{
    let defs = DefIndex::of(alloc, table.defs())?;
    list_definitions(builder, alloc, modules, krate, table, &defs, outlines)?;
    list_extern_crates(builder, rows, from)?;
    pair_procedural_macros(builder, alloc, krate, table, &defs)?;
    Ok(())
}
