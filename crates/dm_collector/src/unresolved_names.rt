//! Imports that mean nothing, and their names, listed in their modules.
ghost use Rattle.std.specs.Prelude.{◌≡◌, ◌++◌, ◌∷◌, [], IfOk, OnErr, OnOk, if◌then◌else◌, length, slice_get};
ghost use Rattle.std.specs.Option.{option_copied};
ghost use Rattle.dm_collector.specs.UnresolvedNames as spec;
ghost use Rattle.dm_imports.specs.Bound.{Maps};
ghost use Rattle.dm_imports.specs.Tables.{of_tables};

use crate::unnamed_traits::is_unnamed;
use dm_base::ids::ModuleId;
use dm_base::name::Name;
use dm_base::per_ns::{Namespace, PerNs};
use dm_imports::def_maps::DefMaps;
use dm_imports::named_import::NamedImport;
use dm_imports::rules::meanings::ImportMeanings;
use dm_maps::world::World;
use dm_scope::glob_imports::PerNsGlobImports;
use std::alloc::{AllocError, Global};

/// The name of an import that means nothing, and its module.
#[derive(Drop)]
pub struct UnresolvedName {
    pub home: ModuleId,
    pub name: Name,
}

fn bring_nothing(meanings: ImportMeanings) -> bool
    ensures { result ≡ spec.bring_nothing meanings }
{
    meanings.types.is_none() && meanings.values.is_none() && meanings.macros.is_none()
}

/// Whether the path of an import leads to something in a namespace.
fn leads_in(maps: &DefMaps<'_>, import: &NamedImport, namespace: Namespace) -> bool
    ensures { result ≡ spec.leads_in (of_tables maps.now) import.now namespace }
{
    let found = maps.meaning_in(import.home, None, &import.path, namespace);
    found.is_some()
}

/// Whether an import means nothing: it brings nothing, or its path leads nowhere where it is one as `_`.
fn means_nothing(maps: &DefMaps<'_>, meanings: ImportMeanings, import: &NamedImport) -> bool
    ensures { result ≡ spec.means_nothing (of_tables maps.now) meanings import.now }
{
    if !is_unnamed(import.kind) {
        return bring_nothing(meanings);
    }
    !leads_in(maps, import, Namespace::Types)
        && !leads_in(maps, import, Namespace::Values)
        && !leads_in(maps, import, Namespace::Macros)
}

/// The places of the imports that mean nothing, where `meanings` is what each of them brings.
///
/// # Errors
///
/// Fails only where memory runs out.
pub fn unresolved_imports(
    alloc: Global,
    maps: &DefMaps<'_>,
    meanings: &[ImportMeanings],
) -> Result<Vec<usize>, AllocError>
    ensures { IfOk result (λ places. places.items
        ≡ spec.unresolved_from (of_tables maps.now) 0 meanings.now maps.now.imports) }
{
    let mut places = Vec::new(alloc);
    for (place, (meant, import)) in meanings.iter().zip(maps.imports).enumerate() {
        if means_nothing(maps, *meant, import) {
            places.push(place)?;
        }
    }
    Ok(places)
}

/// Adds the name of an import, if it has one.
fn push_name(
    names: &mut Vec<UnresolvedName>,
    alloc: Global,
    import: &NamedImport,
) -> Result<(), AllocError>
    ensures { OnOk result (names.new.items ≡ names.old.items ++ spec.name_of import.now) }
{
    if !is_unnamed(import.kind) {
        let name = import.name.copy(alloc)?;
        let home = import.home;
        names.push(UnresolvedName { home, name })?;
    }
    Ok(())
}

/// Adds that of the import at a place.
fn push_name_at(
    names: &mut Vec<UnresolvedName>,
    alloc: Global,
    imports: &[NamedImport],
    place: usize,
) -> Result<(), AllocError>
    ensures { OnOk result (names.new.items ≡ names.old.items ++ spec.name_at imports.now place) }
{
    match imports.get(place) {
        None => Ok(()),
        Some(import) => push_name(names, alloc, import),
    }
}

/// The names of the imports at some places; an import as `_` has none.
///
/// # Errors
///
/// Fails only where memory runs out.
pub fn names_at(
    alloc: Global,
    imports: &[NamedImport],
    places: &[usize],
) -> Result<Vec<UnresolvedName>, AllocError>
    ensures { IfOk result (λ names. names.items ≡ spec.names_at imports.now places.now) }
{
    let mut names = Vec::new(alloc);
    for place in places {
        push_name_at(&mut names, alloc, imports, *place)?;
    }
    Ok(names)
}

/// Lists a name in its module.
fn list_name(
    world: &mut World,
    flags: &mut PerNsGlobImports,
    name: UnresolvedName,
) -> Result<(), AllocError>
    ensures listed { OnOk result ((record { world = world.new; flags = flags.new })
        ≡ spec.with_name (record { world = world.old; flags = flags.old }) name) }
    ensures same { OnErr result (◌≡◌ {A = Maps} (record { world = world.new; flags = flags.new })
        (record { world = world.old; flags = flags.old })) }
{
    let nothing = PerNs::none();
    if world.knows_res(name.home, &nothing, None) {
        world.push_res(flags, (name.home, name.name), nothing, None)?;
    }
    Ok(())
}

/// Lists names among the unresolved ones of their modules, in order, where nothing is bound under them: rust-analyzer shows
/// imports so that mean nothing.
///
/// # Errors
///
/// Fails only where memory runs out: then the first of the names may be listed, and nothing else is changed.
pub fn list_names(
    world: &mut World,
    flags: &mut PerNsGlobImports,
    names: Vec<UnresolvedName>,
) -> Result<(), AllocError>
    ensures all { OnOk result ((record { world = world.new; flags = flags.new })
        ≡ spec.with_names (record { world = world.old; flags = flags.old }) names.items) }
    ensures some { OnErr result (spec.IsListedSome (record { world = world.old; flags = flags.old }) names.items
        (record { world = world.new; flags = flags.new })) }
{
    for name in names {
        list_name(world, flags, name)?;
    }
    Ok(())
}
