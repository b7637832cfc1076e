//! Traits without a name (`use path::Trait as _`): which imports and globs have yet to bring.
ghost use Rattle.std.specs.Prelude.{◌≡◌, true, IfSome, length, slice_get};
ghost use Rattle.dm_base.specs.PerNs.{keep};
ghost use Rattle.dm_collector.specs.UnnamedTraits as spec;
ghost use Rattle.dm_imports.specs.Tables.{of_tables};
ghost use Rattle.dm_maps.specs.GoesOn.{trait_import_holds};
ghost use Rattle.dm_maps.specs.Known.{KnowsAll};
ghost use Rattle.dm_maps.specs.World.{scope_of};
ghost use Rattle.std.specs.Option.{option_and_then};

use dm_base::ids::{ModuleId, TraitId};
use dm_base::imports::ImportId;
use dm_base::item_ids::ModuleDefId;
use dm_base::per_ns::Namespace;
use dm_base::visibility::Visibility;
use dm_imports::container::Container;
use dm_imports::def_maps::DefMaps;
use dm_imports::glob_import::GlobImport;
use dm_imports::meaning::Meaning;
use dm_imports::named_import::{ImportKind, NamedImport};
use dm_maps::world::World;
use dm_retry::unnamed::is_new_trait;
use dm_scope::item_scope::ItemScope;
use dm_scope::scope_tables::ScopeTables;

/// Whether a module has yet to get an unnamed trait, and all that this names is the world's.
fn is_new(world: &World, m: ModuleId, unnamed: (TraitId, Visibility, Option<ImportId>)) -> bool
    ensures value { result ≡ spec.is_new world.now m unnamed }
    ensures known { result ≡ true → KnowsAll world.now (trait_import_holds m unnamed.0 unnamed.1 unnamed.2) }
{
    let (tr, vis, import) = unnamed;
    if world.knows_unnamed_trait(m, tr, vis, import) {
        is_new_trait(world, m, tr, vis)
    } else {
        false
    }
}

/// An unnamed trait that a module has yet to get.
fn if_new(
    world: &World,
    m: ModuleId,
    unnamed: (TraitId, Visibility, Option<ImportId>),
) -> Option<(TraitId, Visibility, Option<ImportId>)>
    ensures value { result ≡ keep (spec.is_new world.now m) (Some unnamed) }
    ensures known { IfSome result (λ e. KnowsAll world.now (trait_import_holds m e.0 e.1 e.2)) }
{
    if is_new(world, m, unnamed) {
        Some(unnamed)
    } else {
        None
    }
}

/// Whether an import binds no name.
pub(crate) fn is_unnamed(kind: ImportKind) -> bool
    ensures { result ≡ spec.is_unnamed kind }
{
    matches!(kind, ImportKind::Unnamed)
}

/// The trait that something is, if it is one, and not ambiguous.
fn trait_of(meaning: Meaning) -> Option<TraitId>
    ensures { result ≡ spec.trait_of meaning }
{
    if meaning.is_ambiguous {
        return None;
    }
    match meaning.def {
        ModuleDefId::TraitId(tr) => Some(tr),
        _ => None,
    }
}

/// The trait that the path of an import as `_` means.
fn trait_meant(maps: &DefMaps<'_>, import: &NamedImport) -> Option<TraitId>
    ensures { result ≡ spec.trait_meant (of_tables maps.now) import.now }
{
    if !is_unnamed(import.kind) {
        return None;
    }
    let meaning = maps.meaning_in(import.home, None, &import.path, Namespace::Types)?;
    trait_of(meaning)
}

/// The trait that an import as `_` has yet to bring its module. Does not allocate.
pub(crate) fn missing_import(
    maps: &DefMaps<'_>,
    import: &NamedImport,
) -> Option<(TraitId, Visibility, Option<ImportId>)>
    ensures value { result ≡ spec.missing_import (of_tables maps.now) import.now }
    ensures known { IfSome result (λ e. KnowsAll maps.now.world (trait_import_holds import.now.home e.0 e.1 e.2)) }
{
    let tr = trait_meant(maps, import)?;
    if_new(
        maps.world,
        import.home,
        (tr, import.vis, Some(import.import)),
    )
}

/// The module that a glob's path means, if it means one.
pub(crate) fn module_meant(maps: &DefMaps<'_>, glob: &GlobImport) -> Option<ModuleId>
    ensures { result ≡ spec.module_meant (of_tables maps.now) glob.now }
{
    match maps.source(glob)? {
        Container::Module(m) => Some(m),
        Container::Enum(_) => None,
    }
}

/// How many unnamed traits a module has.
pub(crate) fn unnamed_count(world: &World, m: ModuleId) -> usize
    ensures { result ≡ length (scope_of world.now m).unnamed_traits }
{
    match world.scope_of(m) {
        None => 0,
        Some(scope) => scope.unnamed_traits().size_hint().0,
    }
}

/// The unnamed trait at a place of a scope.
fn unnamed_of(scope: &ItemScope, i: usize) -> Option<(TraitId, Visibility, Option<ImportId>)>
    ensures { result ≡ slice_get scope.now.unnamed_traits i }
{
    let mut left = i;
    for unnamed in scope.unnamed_traits() {
        if left == 0 {
            return Some(unnamed);
        }
        left -= 1;
    }
    None
}

/// The unnamed trait at a place of a module.
fn unnamed_at(
    world: &World,
    m: ModuleId,
    i: usize,
) -> Option<(TraitId, Visibility, Option<ImportId>)>
    ensures { result ≡ slice_get (scope_of world.now m).unnamed_traits i }
{
    unnamed_of(world.scope_of(m)?, i)
}

/// Whether a module sees an unnamed trait, and all that this names is the world's.
fn is_seen_from(
    world: &World,
    m: ModuleId,
    unnamed: (TraitId, Visibility, Option<ImportId>),
) -> bool
    ensures { result ≡ spec.is_seen_from world.now m unnamed }
{
    let (tr, vis, import) = unnamed;
    if world.knows_unnamed_trait(m, tr, vis, import) {
        vis.is_visible_from(world, m)
    } else {
        false
    }
}

/// What a glob has yet to bring of the unnamed trait at a place of a module.
fn missing_of(
    world: &World,
    glob: &GlobImport,
    m: ModuleId,
    i: usize,
) -> Option<(TraitId, Visibility, Option<ImportId>)>
    ensures value { result ≡ spec.missing_of world.now glob.now m i }
    ensures known { IfSome result (λ e. KnowsAll world.now (trait_import_holds glob.now.into e.0 e.1 e.2)) }
{
    let unnamed = unnamed_at(world, m, i)?;
    if !is_seen_from(world, glob.into, unnamed) {
        return None;
    }
    let (tr, _vis, import) = unnamed;
    if_new(world, glob.into, (tr, glob.vis, import))
}

/// What a glob has yet to bring of the unnamed trait at a place of its source. Does not allocate.
pub(crate) fn missing_glob(
    maps: &DefMaps<'_>,
    glob: &GlobImport,
    i: usize,
) -> Option<(TraitId, Visibility, Option<ImportId>)>
    ensures value { result ≡ spec.missing_glob (of_tables maps.now) glob.now i }
    ensures known { IfSome result (λ e. KnowsAll maps.now.world (trait_import_holds glob.now.into e.0 e.1 e.2)) }
{
    let m = module_meant(maps, glob)?;
    missing_of(maps.world, glob, m, i)
}
