//! Names around a module: its preludes and builtin types.
ghost use Rattle.std.specs.Prelude.{◌≡◌};
ghost use Rattle.dm_base.specs.Tree.{IsKnown};
ghost use Rattle.dm_maps.specs.Trees.{tree_of};
ghost use Rattle.dm_imports.specs.Meanings.{IsNamed};
ghost use Rattle.dm_imports.specs.Paths as spec;
ghost use Rattle.dm_imports.specs.Paths.{MayAsk};
ghost use Rattle.dm_imports.specs.Tables.{asks, of_tables};

use crate::asking::Asking;
use crate::def_maps::DefMaps;
use crate::meaning::{Meaning, public_def};
use crate::paths::shown::shown;
use dm_base::builtin_type::BuiltinType;
use dm_base::ids::{Crate, ExternCrateId, MapId, ModuleId};
use dm_base::item_ids::{MacroId, ModuleDefId};
use dm_base::item_in_ns::ItemModules;
use dm_base::macros::{MacroExpander, MacroLoc};
use dm_base::module_tree::ModuleTree;
use dm_base::name::Name;
use dm_base::per_ns::Namespace;
use dm_base::visibility::Visibility;
use dm_maps::local_def_map::LocalDefMap;
use dm_maps::world::World;
use dm_maps::world::maps_of::local_def_map;

/// The extern prelude of a module's crate.
fn local_of(world: &World, m: ModuleId) -> &LocalDefMap
    requires { IsKnown (tree_of world.now) m }
    ensures { result.now ≡ spec.local_of world.now m }
{
    let krate = world.module_krate(m).unwrap();
    local_def_map(world, krate)
}

/// The map that a module lies in.
fn map_of(world: &World, m: ModuleId) -> MapId
    requires { IsKnown (tree_of world.now) m }
    ensures { result ≡ (tree_of world.now).map_of m }
{
    MapId {
        krate: world.krate(m),
        block: world.block(m),
    }
}

/// A crate of the extern prelude.
pub(crate) fn extern_crate(maps: &DefMaps<'_>, m: ModuleId, name: &Name) -> Option<Meaning>
    requires { IsKnown (tree_of maps.now.world) m }
    ensures value { result ≡ spec.extern_crate (of_tables maps.now) m name.now }
    ensures named { IsNamed maps.now.world result }
{
    match local_of(maps.world, m).get(name) {
        None => None,
        Some((root, _krate)) => Some(public_def(ModuleDefId::ModuleId(root))),
    }
}

/// A macro of the `macro_use` prelude of a crate, by what brought it: the crate alone sees what an extern crate of it brings,
/// and all see what the standard library does.
pub(crate) fn used(krate: Crate, id: MacroId, brought_by: Option<ExternCrateId>) -> Meaning
    ensures { result ≡ spec.used krate (id, brought_by) }
{
    let vis = match brought_by {
        None => Visibility::Public,
        Some(_) => Visibility::PubCrate(krate),
    };
    Meaning {
        vis,
        ..public_def(ModuleDefId::MacroId(id))
    }
}

/// A macro of the `macro_use` prelude.
fn used_macro(maps: &DefMaps<'_>, m: ModuleId, name: &Name) -> Option<Meaning>
    requires { IsKnown (tree_of maps.now.world) m }
    ensures value { result ≡ spec.used_macro (of_tables maps.now) m name.now }
    ensures named { IsNamed maps.now.world result }
{
    match maps.world.macro_use_of(map_of(maps.world, m), name) {
        None => None,
        Some((id, brought_by)) => Some(used(maps.world.krate(m), id, brought_by)),
    }
}

/// A builtin type.
fn builtin(name: &Name) -> Option<Meaning>
    ensures { result ≡ spec.builtin name.now }
{
    match BuiltinType::by_name(name) {
        None => None,
        Some(ty) => Some(public_def(ModuleDefId::BuiltinType(ty))),
    }
}

/// A crate of the extern prelude is a type, a macro of the `macro_use` prelude a macro.
fn preluded(maps: &DefMaps<'_>, m: ModuleId, name: &Name, namespace: Namespace) -> Option<Meaning>
    requires { IsKnown (tree_of maps.now.world) m }
    ensures value { result ≡ spec.preluded (of_tables maps.now) m name.now namespace }
    ensures named { IsNamed maps.now.world result }
{
    match namespace {
        Namespace::Types => extern_crate(maps, m, name),
        Namespace::Values => None,
        Namespace::Macros => used_macro(maps, m, name),
    }
}

/// What the standard prelude has, or what another module that stands for it.
fn in_prelude(
    maps: &DefMaps<'_>,
    asking: &Asking<'_>,
    name: &Name,
    namespace: Namespace,
) -> Option<Meaning>
    requires { MayAsk (of_tables maps.now) (asks asking.now) }
    ensures value { result ≡ spec.in_prelude (of_tables maps.now) (asks asking.now) name.now namespace }
    ensures named { IsNamed maps.now.world result }
{
    match maps.world.prelude_of(map_of(maps.world, asking.home)) {
        None => None,
        Some(prelude) => shown(maps, asking, prelude, name, namespace),
    }
}

/// A builtin type, where a type is asked for.
fn builtin_in(name: &Name, namespace: Namespace) -> Option<Meaning>
    ensures { result ≡ spec.builtin_in name.now namespace }
{
    match namespace {
        Namespace::Types => builtin(name),
        Namespace::Values | Namespace::Macros => None,
    }
}

/// Whether a macro is one of the compiler's.
pub(crate) fn is_builtin_macro(loc: MacroLoc) -> bool
    ensures { result ≡ spec.is_builtin_macro loc }
{
    match loc {
        MacroLoc::Macro2(expander) | MacroLoc::MacroRules(expander) => {
            !matches!(expander, MacroExpander::Declarative { .. })
        }
        MacroLoc::Proc(_) => false,
    }
}

/// Whether it is a macro of the compiler's.
pub(crate) fn is_compilers(world: &World, found: Meaning) -> bool
    ensures { result ≡ spec.is_compilers world.now found }
{
    match found.def {
        ModuleDefId::MacroId(id) => match world.macro_loc(id) {
            None => false,
            Some(loc) => is_builtin_macro(loc),
        },
        _ => false,
    }
}

/// A module without preludes still has builtin types, and the macros of the compiler that the standard prelude has.
fn around_bare(
    maps: &DefMaps<'_>,
    asking: &Asking<'_>,
    name: &Name,
    namespace: Namespace,
) -> Option<Meaning>
    requires { MayAsk (of_tables maps.now) (asks asking.now) }
    ensures value { result ≡ spec.around_bare (of_tables maps.now) (asks asking.now) name.now namespace }
    ensures named { IsNamed maps.now.world result }
{
    match in_prelude(maps, asking, name, namespace) {
        Some(found) if is_compilers(maps.world, found) => Some(found),
        _ => builtin_in(name, namespace),
    }
}

/// Crates and macros of preludes go before the standard prelude, and that before builtin types.
fn around_preluded(
    maps: &DefMaps<'_>,
    asking: &Asking<'_>,
    name: &Name,
    namespace: Namespace,
) -> Option<Meaning>
    requires { MayAsk (of_tables maps.now) (asks asking.now) }
    ensures value { result ≡ spec.around_preluded (of_tables maps.now) (asks asking.now) name.now namespace }
    ensures named { IsNamed maps.now.world result }
{
    let of_prelude = preluded(maps, asking.home, name, namespace);
    if of_prelude.is_some() {
        return of_prelude;
    }
    let standard = in_prelude(maps, asking, name, namespace);
    if standard.is_some() {
        return standard;
    }
    builtin_in(name, namespace)
}

/// What stands around the module that asks.
pub(crate) fn around(
    maps: &DefMaps<'_>,
    asking: &Asking<'_>,
    name: &Name,
    namespace: Namespace,
) -> Option<Meaning>
    requires { MayAsk (of_tables maps.now) (asks asking.now) }
    ensures value { result ≡ spec.around (of_tables maps.now) (asks asking.now) name.now namespace }
    ensures named { IsNamed maps.now.world result }
{
    if maps.declarations.is_bare(asking.home) {
        around_bare(maps, asking, name, namespace)
    } else {
        around_preluded(maps, asking, name, namespace)
    }
}
