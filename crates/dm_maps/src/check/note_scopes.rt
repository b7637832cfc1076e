//! The ids that scopes hold.
ghost use Rattle.std.specs.Prelude.{◌≡◌, None, map};
ghost use Rattle.std.specs.List.{fold, flat_map};
ghost use Rattle.dm_maps.specs.declared.check.held.HeldId.TheVariants as held;
ghost use Rattle.dm_maps.specs.Held.{noted, IsLeastFault};
ghost use Rattle.dm_maps.specs.ScopeHolds.{scope_holds, bindings_hold, lists_hold, legacies_hold, types_hold, values_hold, macros_hold, unnamed_trait_holds, unnamed_const_holds};
ghost use Rattle.dm_maps.specs.Holding.{def_holds, type_holds, value_holds, macro_holds};

use crate::check::held::{HeldFault, HeldId};
use crate::check::known_ids::KnownIds;
use crate::check::note_records::note_records;
use crate::check::notes::{note, note_def, note_import, note_value_import, note_vis};
use dm_base::ids::TraitId;
use dm_base::imports::{ImportId, ImportOrExternCrate, ImportOrGlob};
use dm_base::item_ids::{ItemKind, MacroId, ModuleDefId};
use dm_base::per_ns::Item;
use dm_base::visibility::Visibility;
use dm_scope::item_scope::ItemScope;

/// Folds in what a type holds.
#[tactic(auto, using(crate::proofs::Sets::parts))]
pub(crate) fn note_type<T: KnownIds>(
    world: &T,
    least: Option<HeldFault>,
    item: Item<ModuleDefId, ImportOrExternCrate>,
) -> Option<HeldFault>
    ensures { result ≡ fold (noted (T.known world.now)) least (type_holds item) }
{
    let least = note_def(world, least, item.def);
    let least = note_vis(world, least, item.vis);
    match item.import {
        None => least,
        Some(import) => note_import(world, least, import),
    }
}

/// Folds in what a value holds.
#[tactic(auto, using(crate::proofs::Sets::parts))]
pub(crate) fn note_value<T: KnownIds>(
    world: &T,
    least: Option<HeldFault>,
    item: Item<ModuleDefId, ImportOrGlob>,
) -> Option<HeldFault>
    ensures { result ≡ fold (noted (T.known world.now)) least (value_holds item) }
{
    let least = note_def(world, least, item.def);
    let least = note_vis(world, least, item.vis);
    match item.import {
        None => least,
        Some(import) => note_value_import(world, least, import),
    }
}

/// Folds in what a bound macro holds.
#[tactic(auto, using(crate::proofs::Sets::parts))]
pub(crate) fn note_macro<T: KnownIds>(
    world: &T,
    least: Option<HeldFault>,
    item: Item<MacroId, ImportOrExternCrate>,
) -> Option<HeldFault>
    ensures { result ≡ fold (noted (T.known world.now)) least (macro_holds item) }
{
    let least = note(world, least, HeldId::Macro(item.def));
    let least = note_vis(world, least, item.vis);
    match item.import {
        None => least,
        Some(import) => note_import(world, least, import),
    }
}

/// Folds in what a scope's bindings hold.
#[tactic(auto, using(crate::proofs::Sets::parts))]
fn note_bindings<T: KnownIds>(
    world: &T,
    least: Option<HeldFault>,
    scope: &ItemScope,
) -> Option<HeldFault>
    ensures { result ≡ fold (noted (T.known world.now)) least (bindings_hold scope.now) }
{
    let least = note_types(world, least, scope);
    let least = note_values(world, least, scope);
    note_macros(world, least, scope)
}

#[tactic(auto, using(crate::proofs::Sets::parts))]
fn note_types<T: KnownIds>(
    world: &T,
    least: Option<HeldFault>,
    scope: &ItemScope,
) -> Option<HeldFault>
    ensures { result ≡ fold (noted (T.known world.now)) least (types_hold scope.now.types.items) }
{
    scope
        .types()
        .fold(least, |least, entry| note_type(world, least, entry.1))
}

#[tactic(auto, using(crate::proofs::Sets::parts))]
fn note_values<T: KnownIds>(
    world: &T,
    least: Option<HeldFault>,
    scope: &ItemScope,
) -> Option<HeldFault>
    ensures { result ≡ fold (noted (T.known world.now)) least (values_hold scope.now.values.items) }
{
    scope
        .values()
        .fold(least, |least, entry| note_value(world, least, entry.1))
}

#[tactic(auto, using(crate::proofs::Sets::parts))]
fn note_macros<T: KnownIds>(
    world: &T,
    least: Option<HeldFault>,
    scope: &ItemScope,
) -> Option<HeldFault>
    ensures { result ≡ fold (noted (T.known world.now)) least (macros_hold scope.now.macros.items) }
{
    scope
        .macros()
        .fold(least, |least, entry| note_macro(world, least, entry.1))
}

/// Folds in what legacy macros hold: those in textual scope.
#[tactic(auto, using(crate::proofs::Sets::parts))]
fn note_legacies<T: KnownIds>(
    world: &T,
    least: Option<HeldFault>,
    scope: &ItemScope,
) -> Option<HeldFault>
    ensures { result ≡ fold (noted (T.known world.now)) least (legacies_hold scope.now.legacy_macros) }
{
    let mut least = least;
    for (_, macros) in scope.legacy_macros() {
        least = note_all_macros(world, least, macros);
    }
    least
}

#[tactic(auto, using(crate::proofs::Sets::parts))]
fn note_all_macros<T: KnownIds>(
    world: &T,
    least: Option<HeldFault>,
    macros: &[MacroId],
) -> Option<HeldFault>
    ensures { result ≡ fold (noted (T.known world.now)) least (map held.Macro macros.now) }
{
    macros
        .iter()
        .fold(least, |least, m| note(world, least, HeldId::Macro(*m)))
}

/// Folds in what a trait that was imported without a name holds.
#[tactic(auto, using(crate::proofs::Sets::parts))]
fn note_unnamed_trait<T: KnownIds>(
    world: &T,
    least: Option<HeldFault>,
    unnamed: (TraitId, Visibility, Option<ImportId>),
) -> Option<HeldFault>
    ensures { result ≡ fold (noted (T.known world.now)) least (unnamed_trait_holds unnamed) }
{
    let least = note(world, least, HeldId::Item(ItemKind::Trait, unnamed.0.0));
    let least = note_vis(world, least, unnamed.1);
    match unnamed.2 {
        None => least,
        Some(import) => note(world, least, HeldId::Use(import.use_)),
    }
}

/// Folds in what a scope declares.
#[tactic(auto, using(crate::proofs::Sets::parts))]
fn note_declarations<T: KnownIds>(
    world: &T,
    least: Option<HeldFault>,
    scope: &ItemScope,
) -> Option<HeldFault>
    ensures { result ≡ fold (noted (T.known world.now)) least (flat_map def_holds scope.now.declarations) }
{
    let mut least = least;
    for def in scope.declarations() {
        least = note_def(world, least, def);
    }
    least
}

/// Folds in the traits that a scope imports without a name.
#[tactic(auto, using(crate::proofs::Sets::parts))]
fn note_unnamed_traits<T: KnownIds>(
    world: &T,
    least: Option<HeldFault>,
    scope: &ItemScope,
) -> Option<HeldFault>
    ensures { result
        ≡ fold (noted (T.known world.now)) least
        (flat_map unnamed_trait_holds scope.now.unnamed_traits) }
{
    let mut least = least;
    for unnamed in scope.unnamed_traits() {
        least = note_unnamed_trait(world, least, unnamed);
    }
    least
}

/// Folds in the constants that a scope declares without a name.
#[tactic(auto, using(crate::proofs::Sets::parts))]
fn note_unnamed_consts<T: KnownIds>(
    world: &T,
    least: Option<HeldFault>,
    scope: &ItemScope,
) -> Option<HeldFault>
    ensures { result
        ≡ fold (noted (T.known world.now)) least (map unnamed_const_holds scope.now.unnamed_consts) }
{
    let mut least = least;
    for unnamed in scope.unnamed_consts() {
        least = note(world, least, HeldId::Item(ItemKind::Const, unnamed.0));
    }
    least
}

/// Folds in what a scope's lists hold.
#[tactic(auto, using(crate::proofs::Sets::parts))]
fn note_lists<T: KnownIds>(
    world: &T,
    least: Option<HeldFault>,
    scope: &ItemScope,
) -> Option<HeldFault>
    ensures { result ≡ fold (noted (T.known world.now)) least (lists_hold scope.now) }
{
    let least = note_declarations(world, least, scope);
    let least = note_unnamed_traits(world, least, scope);
    note_unnamed_consts(world, least, scope)
}

/// The least fault of what a scope holds.
#[tactic(auto, using(crate::proofs::Sets::parts))]
pub fn note_scope<T: KnownIds>(world: &T, scope: &ItemScope) -> Option<HeldFault>
    ensures { IsLeastFault (T.known world.now) (scope_holds scope.now) result }
{
    let least = note_bindings(world, None, scope);
    let least = note_records(world, least, scope);
    let least = note_legacies(world, least, scope);
    note_lists(world, least, scope)
}
