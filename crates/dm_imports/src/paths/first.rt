//! The first segment of a path.
ghost use Rattle.std.specs.Prelude.{◌≡◌};
ghost use Rattle.std.specs.Option.{option_and_then};
ghost use Rattle.dm_base.specs.Tree.{crate_of};
ghost use Rattle.dm_maps.specs.Readings.{root_of};
ghost use Rattle.dm_maps.specs.Trees.{tree_of};
ghost use Rattle.dm_imports.specs.Meanings.{IsNamed};
ghost use Rattle.dm_imports.specs.Paths as spec;
ghost use Rattle.dm_imports.specs.Paths.{MayAsk};
ghost use Rattle.dm_imports.specs.Tables.{asks, of_tables};

use crate::asking::Asking;
use crate::def_maps::DefMaps;
use crate::meaning::{Meaning, Source};
use crate::paths::around::{around, extern_crate};
use crate::paths::shown::shown;
use crate::paths::textual::textual_macro;
use dm_base::item_ids::MacroId;
use dm_base::module_tree::ModuleTree;
use dm_base::name::Name;
use dm_base::per_ns::Namespace;

/// Whether a glob brought it.
pub(crate) fn is_by_glob(meaning: Meaning) -> bool
    ensures { result ≡ spec.is_by_glob meaning }
{
    matches!(meaning.source, Source::Glob(_))
}

/// What is not brought by a glob.
fn not_by_glob(meaning: Option<Meaning>) -> Option<Meaning>
    ensures { result ≡ spec.not_by_glob meaning }
{
    let found = meaning?;
    if is_by_glob(found) { None } else { Some(found) }
}

/// What the module declares or imports by name goes before the names around it, and those before what globs bring.
fn in_module(
    maps: &DefMaps<'_>,
    asking: &Asking<'_>,
    name: &Name,
    namespace: Namespace,
) -> Option<Meaning>
    requires { MayAsk (of_tables maps.now) (asks asking.now) }
    ensures value { result ≡ spec.in_module (of_tables maps.now) (asks asking.now) name.now namespace }
    ensures named { IsNamed maps.now.world result }
{
    let own = shown(maps, asking, asking.home, name, namespace);
    let named = not_by_glob(own);
    if named.is_some() {
        return named;
    }
    let outer = around(maps, asking, name, namespace);
    if outer.is_some() { outer } else { own }
}

/// An extern crate, where a type is asked for.
fn extern_crate_in(
    maps: &DefMaps<'_>,
    asking: &Asking<'_>,
    name: &Name,
    namespace: Namespace,
) -> Option<Meaning>
    requires { MayAsk (of_tables maps.now) (asks asking.now) }
    ensures value { result ≡ spec.extern_crate_in (of_tables maps.now) (asks asking.now) name.now namespace }
    ensures named { IsNamed maps.now.world result }
{
    match namespace {
        Namespace::Types => extern_crate(maps, asking.home, name),
        Namespace::Values | Namespace::Macros => None,
    }
}

/// In edition 2015: what the crate's root has.
fn in_root(
    maps: &DefMaps<'_>,
    asking: &Asking<'_>,
    name: &Name,
    namespace: Namespace,
) -> Option<Meaning>
    requires { MayAsk (of_tables maps.now) (asks asking.now) }
    ensures value { result ≡ spec.in_root (of_tables maps.now) (asks asking.now) name.now namespace }
    ensures named { IsNamed maps.now.world result }
{
    match maps.world.root_of(maps.world.krate(asking.home)) {
        None => None,
        Some(root) => shown(maps, asking, root, name, namespace),
    }
}

/// A textual macro, where a macro is asked for.
fn textual_in(
    maps: &DefMaps<'_>,
    asking: &Asking<'_>,
    textual: Option<MacroId>,
    name: &Name,
    namespace: Namespace,
) -> Option<Meaning>
    requires { MayAsk (of_tables maps.now) (asks asking.now) }
    ensures value { result ≡ spec.textual_in (of_tables maps.now) (asks asking.now) textual name.now namespace }
    ensures named { IsNamed maps.now.world result }
{
    match (namespace, textual) {
        (Namespace::Macros, Some(id)) => {
            let krate = maps.world.krate(asking.home);
            Some(textual_macro(maps.world, krate, id, name))
        }
        _ => None,
    }
}

/// A plain path's first segment: a textual macro goes before all.
fn plain(
    maps: &DefMaps<'_>,
    asking: &Asking<'_>,
    textual: Option<MacroId>,
    name: &Name,
    namespace: Namespace,
) -> Option<Meaning>
    requires { MayAsk (of_tables maps.now) (asks asking.now) }
    ensures value { result ≡ spec.plain (of_tables maps.now) (asks asking.now) textual name.now namespace }
    ensures named { IsNamed maps.now.world result }
{
    let macro_before = textual_in(maps, asking, textual, name, namespace);
    if macro_before.is_some() {
        return macro_before;
    }
    in_module(maps, asking, name, namespace)
}

/// What a path's first segment means.
pub(crate) fn first(
    maps: &DefMaps<'_>,
    asking: &Asking<'_>,
    textual: Option<MacroId>,
    is_abs: bool,
    name: &Name,
    namespace: Namespace,
) -> Option<Meaning>
    requires { MayAsk (of_tables maps.now) (asks asking.now) }
    ensures value { result ≡ spec.first (of_tables maps.now) (asks asking.now) textual is_abs name.now namespace }
    ensures named { IsNamed maps.now.world result }
{
    if maps.world.is_2015(maps.world.krate(asking.home)) {
        in_root(maps, asking, name, namespace)
    } else if is_abs {
        extern_crate_in(maps, asking, name, namespace)
    } else {
        plain(maps, asking, textual, name, namespace)
    }
}
