//! What the `macro_use` prelude of a crate has yet to get.
ghost use Rattle.std.specs.Prelude.{◌≡◌, ◌||◌, ◌++◌, ◌∷◌, [], if◌then◌else◌, true, false, All, Contains, IfOk, IfSome, None, OnOk, is_none};
ghost use Rattle.std.specs.Option.{option_copied};
ghost use Rattle.crate_tables.specs.StandardPreludes.{own_map as map_of};
ghost use Rattle.dm_maps.specs.Holding.{def_holds};
ghost use Rattle.dm_base.specs.declared.item_ids.ModuleDefId.TheVariants as def;
ghost use Rattle.dm_maps.specs.BuildMaps.{lacks_map};
ghost use Rattle.dm_maps.specs.Cut.{among};
ghost use Rattle.dm_maps.specs.Known.{KnowsAll};
ghost use Rattle.dm_maps.specs.World.{scope_of};
ghost use Rattle.dm_scope.specs.Scope.{bound_in};
ghost use Rattle.dm_scope.specs.Sorted.{seen};
ghost use Rattle.dm_collector.specs.MacroPreludes as spec;

use crate::macro_uses::{MacroSource, MacroUses};
use crate_items::macros::declared_macro::MacroUse;
use dm_base::ids::{Crate, ExternCrateId, MapId, ModuleId};
use dm_base::item_ids::MacroId;
use dm_base::name::Name;
use dm_base::per_ns::MacrosItem;
use dm_base::visibility::Visibility;
use dm_imports::rules::source_names::module_names;
use dm_maps::world::World;
use std::alloc::{AllocError, Global};

/// The map of a crate itself.
pub(crate) fn own_map(krate: Crate) -> MapId
    ensures { result ≡ map_of krate }
{
    MapId { krate, block: None }
}

fn is_public(vis: Visibility) -> bool
    ensures { result ≡ spec.is_public vis }
{
    matches!(vis, Visibility::Public)
}

/// A macro that all see.
fn public_in(bound: Option<MacrosItem>) -> Option<MacroId>
    ensures { result ≡ spec.public_in bound }
{
    let item = bound?;
    if is_public(item.vis) {
        Some(item.def)
    } else {
        None
    }
}

/// The macro that all see in a module under a name.
fn public_macro(world: &World, m: ModuleId, name: &Name) -> Option<MacroId>
    ensures value { result ≡ spec.public_in (bound_in (scope_of world.now m) name.now).macros }
    ensures known { IfSome result (λ found. KnowsAll world.now (def_holds (def.MacroId found))) }
{
    let bound = world.bound_in(m, name);
    public_in(bound.macros)
}

fn is_listed(names: &[Name], name: &Name) -> bool
    ensures { result ≡ among names.now name.now }
{
    names.iter().any(|listed| *name == *listed)
}

/// Whether all macros of a root are used.
fn uses_whole(macros: Option<&MacroUse>) -> bool
    ensures { result ≡ spec.uses_whole (option_copied macros.entry) }
{
    match macros {
        None => true,
        Some(used) => used.is_whole(),
    }
}

/// The names of those that are used, where not all are.
fn names_used(macros: Option<&MacroUse>) -> &[Name]
    ensures { result.now ≡ spec.names_used (option_copied macros.entry) }
{
    match macros {
        None => &[],
        Some(used) => used.names(),
    }
}

/// Whether the macro of a name is used.
fn is_used(source: &MacroSource, name: &Name) -> bool
    ensures { result ≡ (spec.uses_whole source.now.macros || among (spec.names_used source.now.macros) name.now) }
{
    let macros = source.macros.as_ref();
    uses_whole(macros) || is_listed(names_used(macros), name)
}

/// What a root brings under a name.
fn brought(
    world: &World,
    source: &MacroSource,
    name: &Name,
) -> Option<(MacroId, Option<ExternCrateId>)>
    ensures value { result ≡ spec.brought world.now source.now name.now }
    ensures known { IfSome result (λ e. KnowsAll world.now (def_holds (def.MacroId e.0))) }
{
    if !is_used(source, name) {
        return None;
    }
    let found = public_macro(world, source.root, name)?;
    Some((found, source.brought_by))
}

/// Of some roots what the last brings that brings anything.
fn given(
    world: &World,
    sources: &[MacroSource],
    name: &Name,
) -> Option<(MacroId, Option<ExternCrateId>)>
    ensures value { result ≡ spec.given world.now sources.now name.now }
    ensures known { IfSome result (λ e. KnowsAll world.now (def_holds (def.MacroId e.0))) }
{
    let mut found = None;
    for source in sources {
        found = brought(world, source, name).or(found);
    }
    found
}

fn is_entry(
    found: Option<(MacroId, Option<ExternCrateId>)>,
    entry: (MacroId, Option<ExternCrateId>),
) -> bool
    ensures { result ≡ spec.is_entry found entry }
{
    match found {
        None => false,
        Some((id, brought_by)) => id == entry.0 && brought_by == entry.1,
    }
}

/// What the `macro_use` prelude of a crate has yet to get under a name; nothing, where the crate is not the world's. Does not
/// allocate.
pub(crate) fn missing_macro(
    world: &World,
    uses: &MacroUses,
    name: &Name,
) -> Option<(MacroId, Option<ExternCrateId>)>
    ensures value { result ≡ spec.missing_macro world.now uses.now name.now }
    ensures there { IfSome result (λ e. lacks_map world.now (map_of uses.now.krate) ≡ false) }
    ensures known { IfSome result (λ e. KnowsAll world.now (def_holds (def.MacroId e.0))) }
{
    let map = own_map(uses.krate());
    if world.lacks_map(map) {
        return None;
    }
    let entry = given(world, uses.sources(), name)?;
    if is_entry(world.macro_use_of(map, name), entry) {
        None
    } else {
        Some(entry)
    }
}

/// References to names.
fn references(alloc: Global, names: &[Name]) -> Result<Vec<&Name>, AllocError>
    ensures { IfOk result (λ found. seen found.items ≡ names.now) }
{
    let mut found = Vec::new(alloc);
    for name in names {
        found.push(name)?;
    }
    Ok(found)
}

/// The names under which a root may bring a macro.
fn used_names<'a>(
    alloc: Global,
    world: &'a World,
    source: &'a MacroSource,
) -> Result<Vec<&'a Name>, AllocError>
    ensures { IfOk result (λ names. (n : Name) → Contains (spec.used_names world.now source.now) n
        → Contains (seen names.items) n) }
{
    let macros = source.macros.as_ref();
    if uses_whole(macros) {
        module_names(alloc, world, source.root)
    } else {
        references(alloc, names_used(macros))
    }
}

/// Adds a name, unless there is nothing under it.
fn add_unless(
    names: &mut Vec<Name>,
    name: &Name,
    is_nothing: bool,
    alloc: Global,
) -> Result<(), AllocError>
    ensures value { OnOk result
        (names.new.items
        ≡ (if is_nothing then names.old.items else names.old.items ++ name.now ∷ [])) }
    ensures none { OnOk result
        (names.new.items ≡ [] → (names.old.items ≡ []) × (is_nothing ≡ true)) }
{
    if is_nothing {
        return Ok(());
    }
    names.push(name.copy(alloc)?)?;
    Ok(())
}

/// Adds those of some names under which a prelude has yet to get a macro.
fn add_missing(
    names: &mut Vec<Name>,
    alloc: Global,
    world: &World,
    uses: &MacroUses,
    listed: &[&Name],
) -> Result<(), AllocError>
    requires some { All (λ n. is_none (spec.missing_macro world.now uses.now n) ≡ false) names.old.items }
    ensures some { OnOk result
        (All (λ n. is_none (spec.missing_macro world.now uses.now n) ≡ false) names.new.items) }
    ensures kept { OnOk result (names.new.items ≡ [] → names.old.items ≡ []) }
    ensures none { OnOk result (names.new.items ≡ []
        → All (λ n. spec.missing_macro world.now uses.now n ≡ None) (seen listed.now)) }
{
    for name in listed {
        let missing = missing_macro(world, uses, *name);
        add_unless(names, *name, missing.is_none(), alloc)?;
    }
    Ok(())
}

/// Adds the names under which a prelude has yet to get a macro that a root may bring.
fn add_missing_of(
    names: &mut Vec<Name>,
    alloc: Global,
    world: &World,
    uses: &MacroUses,
    source: &MacroSource,
) -> Result<(), AllocError>
    requires some { All (λ n. is_none (spec.missing_macro world.now uses.now n) ≡ false) names.old.items }
    ensures some { OnOk result
        (All (λ n. is_none (spec.missing_macro world.now uses.now n) ≡ false) names.new.items) }
    ensures kept { OnOk result (names.new.items ≡ [] → names.old.items ≡ []) }
    ensures used { OnOk result (names.new.items ≡ [] → spec.HasMacrosOf world.now uses.now source.now) }
{
    let listed = used_names(alloc, world, source)?;
    add_missing(names, alloc, world, uses, listed.as_slice())?;
    Ok(())
}

/// The names under which the prelude of a crate has yet to get a macro. Fails where an allocation fails.
pub(crate) fn missing_macro_names(
    alloc: Global,
    world: &World,
    uses: &MacroUses,
) -> Result<Vec<Name>, AllocError>
    ensures some { IfOk result
        (λ names. All (λ n. is_none (spec.missing_macro world.now uses.now n) ≡ false) names.items) }
    ensures used { IfOk result (λ names. names.items ≡ [] → spec.HasMacros world.now uses.now) }
{
    let mut names = Vec::new(alloc);
    for source in uses.sources() {
        add_missing_of(&mut names, alloc, world, uses, source)?;
    }
    Ok(names)
}
