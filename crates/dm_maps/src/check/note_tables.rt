//! The ids that the tables of crates, of the AST and of items hold.
ghost use Rattle.std.specs.Prelude.{◌≡◌, None, map};
ghost use Rattle.std.specs.List.{fold, flat_map};
ghost use Rattle.dm_maps.specs.Held.{noted, IsLeastFault};
ghost use Rattle.dm_maps.specs.Holding.{path_holds};
ghost use Rattle.dm_maps.specs.TablesHold.{macro_defs_hold, helper_holds, helpers_hold, macro_of_fn_holds, fn_of_macro_holds, data_holds, raw_holds, variant_holds, field_list_holds, assoc_id_holds, container_holds, assoc_holds, trait_holds, tables_hold};

use crate::check::held::{HeldFault, HeldId};
use crate::check::known_ids::KnownIds;
use crate::check::notes::note;
use dm_base::ids::{FunctionId, ProcMacroId, TraitId};
use dm_base::item_ids::{AssocItemId, ItemContainerId, ItemKind, MacroId, VariantId};
use dm_base::mod_path::PathKind;
use dm_base::source::AstId;
use dm_base::visibility::RawVisibility;
use dm_def_map::crate_data::CrateData;
use dm_def_map::item_tables::ItemTables;
use dm_def_map::item_tables::derive_helpers::{DeriveHelper, DeriveHelpers};
use dm_def_map::item_tables::field_list::FieldList;
use indexmap::IndexMap;

/// The least fault of the macros that AST items define.
#[tactic(auto, using(crate::proofs::Sets::parts))]
pub fn note_macro_defs<T: KnownIds>(
    world: &T,
    table: &IndexMap<AstId, MacroId>,
) -> Option<HeldFault>
    ensures { IsLeastFault (T.known world.now) (macro_defs_hold table.now.entries) result }
{
    table
        .values()
        .fold(None, |least, m| note(world, least, HeldId::Macro(*m)))
}

/// The least fault of the macros of derive helpers.
#[tactic(auto, using(crate::proofs::Sets::parts))]
pub fn note_helpers<T: KnownIds>(
    world: &T,
    table: &IndexMap<AstId, DeriveHelpers>,
) -> Option<HeldFault>
    ensures { IsLeastFault (T.known world.now) (helpers_hold table.now.entries) result }
{
    table.values().fold(
        None,
        |least, helpers| note_all_helpers(world, least, helpers.as_slice()),
    )
}

#[tactic(auto, using(crate::proofs::Sets::parts))]
fn note_all_helpers<T: KnownIds>(
    world: &T,
    least: Option<HeldFault>,
    helpers: &[DeriveHelper],
) -> Option<HeldFault>
    ensures { result ≡ fold (noted (T.known world.now)) least (map helper_holds helpers.now) }
{
    helpers.iter().fold(
        least,
        |least, helper| note(world, least, HeldId::Macro(helper.1)),
    )
}

/// The least fault of the functions and macros of both tables of procedural macros.
#[tactic(auto, using(crate::proofs::Sets::parts))]
pub fn note_data<T: KnownIds>(world: &T, shared: &CrateData) -> Option<HeldFault>
    ensures { IsLeastFault (T.known world.now) (data_holds shared.now) result }
{
    let least = note_macro_of_fn(world, None, shared.macro_of_fn());
    note_fn_of_macro(world, least, shared.fn_of_macro())
}

#[tactic(auto, using(crate::proofs::Sets::parts))]
fn note_macro_of_fn<T: KnownIds>(
    world: &T,
    least: Option<HeldFault>,
    table: &IndexMap<FunctionId, ProcMacroId>,
) -> Option<HeldFault>
    ensures { result
        ≡ fold (noted (T.known world.now)) least (flat_map macro_of_fn_holds table.now.entries) }
{
    let mut least = least;
    for (f, m) in table {
        least = note(world, least, HeldId::Item(ItemKind::Function, f.0));
        least = note(world, least, HeldId::Macro(MacroId::ProcMacroId(*m)));
    }
    least
}

#[tactic(auto, using(crate::proofs::Sets::parts))]
fn note_fn_of_macro<T: KnownIds>(
    world: &T,
    least: Option<HeldFault>,
    table: &IndexMap<ProcMacroId, FunctionId>,
) -> Option<HeldFault>
    ensures { result
        ≡ fold (noted (T.known world.now)) least (flat_map fn_of_macro_holds table.now.entries) }
{
    let mut least = least;
    for (m, f) in table {
        least = note(world, least, HeldId::Macro(MacroId::ProcMacroId(*m)));
        least = note(world, least, HeldId::Item(ItemKind::Function, f.0));
    }
    least
}

/// Folds in the crate of the `$crate` of a visibility's path.
fn note_raw<T: KnownIds>(
    world: &T,
    least: Option<HeldFault>,
    vis: &RawVisibility,
) -> Option<HeldFault>
    ensures { result ≡ fold (noted (T.known world.now)) least (raw_holds vis.now) }
{
    match vis {
        RawVisibility::Module(path, _) => note_path(world, least, path.kind()),
        RawVisibility::PubSelf(_) => least,
        RawVisibility::PubCrate => least,
        RawVisibility::Public => least,
    }
}

/// Folds in the crate of a path's `$crate`.
pub(crate) fn note_path<T: KnownIds>(
    world: &T,
    least: Option<HeldFault>,
    kind: PathKind,
) -> Option<HeldFault>
    ensures { result ≡ fold (noted (T.known world.now)) least (path_holds kind) }
{
    match kind {
        PathKind::DollarCrate(krate) => note(world, least, HeldId::Crate(krate)),
        _ => least,
    }
}

#[tactic(auto, using(crate::proofs::Sets::parts))]
fn note_all_raw<T: KnownIds>(
    world: &T,
    least: Option<HeldFault>,
    fields: &[RawVisibility],
) -> Option<HeldFault>
    ensures { result ≡ fold (noted (T.known world.now)) least (flat_map raw_holds fields.now) }
{
    fields
        .iter()
        .fold(least, |least, vis| note_raw(world, least, vis))
}

/// What a variant, a struct or a union is held as.
fn variant_held(variant: VariantId) -> HeldId
    ensures { result ≡ variant_holds variant }
{
    match variant {
        VariantId::EnumVariantId(v) => HeldId::Variant(v),
        VariantId::StructId(n) => HeldId::Item(ItemKind::Struct, n.0),
        VariantId::UnionId(n) => HeldId::Item(ItemKind::Union, n.0),
    }
}

/// What an associated item is held as.
fn assoc_held(id: AssocItemId) -> HeldId
    ensures { result ≡ assoc_id_holds id }
{
    match id {
        AssocItemId::FunctionId(n) => HeldId::Item(ItemKind::Function, n.0),
        AssocItemId::ConstId(n) => HeldId::Item(ItemKind::Const, n.0),
        AssocItemId::TypeAliasId(n) => HeldId::Item(ItemKind::TypeAlias, n.0),
    }
}

/// Folds in the module or trait that an associated item lies in.
fn note_container<T: KnownIds>(
    world: &T,
    least: Option<HeldFault>,
    container: ItemContainerId,
) -> Option<HeldFault>
    ensures { result ≡ fold (noted (T.known world.now)) least (container_holds container) }
{
    match container {
        ItemContainerId::ExternBlockId(_) => least,
        ItemContainerId::ModuleId(m) => note(world, least, HeldId::Module(m)),
        ItemContainerId::ImplId(_) => least,
        ItemContainerId::TraitId(n) => note(world, least, HeldId::Item(ItemKind::Trait, n.0)),
    }
}

#[tactic(auto, using(crate::proofs::Sets::parts))]
fn note_fields<T: KnownIds>(
    world: &T,
    least: Option<HeldFault>,
    table: &IndexMap<VariantId, FieldList>,
) -> Option<HeldFault>
    ensures { result
        ≡ fold (noted (T.known world.now)) least (flat_map field_list_holds table.now.entries) }
{
    let mut least = least;
    for (variant, fields) in table {
        least = note(world, least, variant_held(*variant));
        least = note_all_raw(world, least, fields.as_slice());
    }
    least
}

#[tactic(auto, using(crate::proofs::Sets::parts))]
fn note_assocs<T: KnownIds>(
    world: &T,
    least: Option<HeldFault>,
    table: &IndexMap<AssocItemId, (ItemContainerId, RawVisibility)>,
) -> Option<HeldFault>
    ensures { result ≡ fold (noted (T.known world.now)) least (flat_map assoc_holds table.now.entries) }
{
    let mut least = least;
    for (id, place) in table {
        least = note(world, least, assoc_held(*id));
        least = note_container(world, least, place.0);
        least = note_raw(world, least, &place.1);
    }
    least
}

#[tactic(auto, using(crate::proofs::Sets::parts))]
fn note_traits<T: KnownIds>(
    world: &T,
    least: Option<HeldFault>,
    table: &IndexMap<TraitId, RawVisibility>,
) -> Option<HeldFault>
    ensures { result ≡ fold (noted (T.known world.now)) least (flat_map trait_holds table.now.entries) }
{
    let mut least = least;
    for (id, vis) in table {
        least = note(world, least, HeldId::Item(ItemKind::Trait, id.0));
        least = note_raw(world, least, vis);
    }
    least
}

/// The least fault of the tables that belong to no map and no module.
#[tactic(auto, using(crate::proofs::Sets::parts))]
pub fn note_tables<T: KnownIds>(world: &T, tables: &ItemTables) -> Option<HeldFault>
    ensures { IsLeastFault (T.known world.now) (tables_hold tables.now) result }
{
    let least = note_fields(world, None, tables.fields());
    let least = note_assocs(world, least, tables.assocs());
    note_traits(world, least, tables.traits())
}
