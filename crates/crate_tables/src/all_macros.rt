//! All macros of a crate in a builder: procedural ones, those that are bound as items, those in textual scope, and the uses,
//! which may mean these.
ghost use Rattle.std.specs.Prelude.{◌≡◌, All, IfErr, IsTrue, OnOk, true};
ghost use Rattle.crate_tables.specs.CrateFillings as spec;
ghost use Rattle.crate_tables.specs.CrateRoots.{root_id as root_of};
ghost use Rattle.crate_tables.specs.CrateTables.{IsMacroOf, IsTableOf};
ghost use Rattle.crate_tables.specs.Kept.{IsKept};
ghost use Rattle.crate_tables.specs.Numbers.{has_too_many, is_shortage};
ghost use Rattle.dm_maps.specs.declared.check.held.HeldId.TheVariants as held;
ghost use Rattle.dm_maps.specs.Known.{knows};

use crate::crate_macros::add_macros;
use crate::crate_table::CrateTable;
use crate::crate_uses::{TextualView, add_uses};
use crate::new_module::CrateView;
use crate::procedural_macros::add_procedural_macros;
use crate::textual_macros::add_textual_macros;
use crate_items::items::declared_item::DeclaredItem;
use crate_items::macros::textual_scopes::textual_scopes;
use dm_base::item_ids::MacroId;
use dm_maps::build_fault::BuildFault;
use dm_maps::builder::WorldBuilder;
use std::alloc::Global;

/// Gives each module the macros in its textual scope, and adds the uses of a crate, which may mean these.
fn add_in_scope(
    builder: &mut WorldBuilder,
    table: &mut CrateTable,
    alloc: Global,
    view: &CrateView<'_>,
    items: &[DeclaredItem],
    macros: &[Option<MacroId>],
) -> Result<(), BuildFault>
    requires table { IsTableOf builder.old view.now.krate table.old }
    requires macros { All (IsMacroOf builder.old) macros.now }
    ensures added { OnOk result ((record { world = builder.new; table = table.new }) ≡
        spec.in_scope view.now (record { world = builder.old; table = table.old; ids = macros.now }) items.now) }
    ensures kept { OnOk result (IsTableOf builder.new view.now.krate table.new) }
    ensures stays { IsKept builder.old builder.new }
    ensures fault { IfErr result (λ fault. is_shortage (has_too_many
        (spec.in_scope view.now (record { world = builder.old; table = table.old; ids = macros.now }) items.now).world) fault ≡ true) }
{
    let made = textual_scopes(alloc, view.list, items)?;
    let scopes = made.as_slice();
    add_textual_macros(builder, alloc, view.krate, table, items, macros, scopes)?;
    let textual = TextualView {
        items,
        macros,
        scopes,
    };
    add_uses(builder, table, alloc, view, &textual)?;
    Ok(())
}

/// Adds the macros among the items of a crate, and then its uses, and gives each module the macros in its textual scope.
fn add_macros_in_scope(
    builder: &mut WorldBuilder,
    table: &mut CrateTable,
    alloc: Global,
    view: &CrateView<'_>,
    items: &[DeclaredItem],
) -> Result<(), BuildFault>
    requires table { IsTableOf builder.old view.now.krate table.old }
    requires root { IsTrue (knows builder.old (held.Module (root_of view.now.krate))) }
    ensures added { OnOk result ((record { world = builder.new; table = table.new }) ≡
        spec.with_macros_in_scope view.now (record { world = builder.old; table = table.old }) items.now) }
    ensures kept { OnOk result (IsTableOf builder.new view.now.krate table.new) }
    ensures stays { IsKept builder.old builder.new }
    ensures fault { IfErr result (λ fault. is_shortage (has_too_many
        (spec.with_macros_in_scope view.now (record { world = builder.old; table = table.old }) items.now).world) fault ≡ true) }
{
    let macros = add_macros(builder, table, alloc, view, items)?;
    add_in_scope(builder, table, alloc, view, items, macros.as_slice())?;
    Ok(())
}

/// Adds the macros among the items of a crate and its uses, and behind these the procedural macros, which are in no textual
/// scope.
pub(crate) fn add_all_macros(
    builder: &mut WorldBuilder,
    table: &mut CrateTable,
    alloc: Global,
    view: &CrateView<'_>,
    items: &[DeclaredItem],
) -> Result<(), BuildFault>
    requires table { IsTableOf builder.old view.now.krate table.old }
    requires root { IsTrue (knows builder.old (held.Module (root_of view.now.krate))) }
    ensures added { OnOk result ((record { world = builder.new; table = table.new }) ≡
        spec.with_all_macros view.now (record { world = builder.old; table = table.old }) items.now) }
    ensures kept { OnOk result (IsTableOf builder.new view.now.krate table.new) }
    ensures stays { IsKept builder.old builder.new }
    ensures fault { IfErr result (λ fault. is_shortage (has_too_many
        (spec.with_all_macros view.now (record { world = builder.old; table = table.old }) items.now).world) fault ≡ true) }
{
    add_macros_in_scope(builder, table, alloc, view, items)?;
    add_procedural_macros(builder, table, alloc, view, items)?;
    Ok(())
}
