//! What paths of imports and globs mean in def maps, as they are.
ghost use Rattle.std.specs.Prelude.{◌≡◌, slice_get};
ghost use Rattle.dm_base.specs.Tree.{IsKnown};
ghost use Rattle.dm_maps.specs.Holding.{path_holds};
ghost use Rattle.dm_maps.specs.Known.{KnowsAll};
ghost use Rattle.dm_maps.specs.Trees.{tree_of};
ghost use Rattle.dm_imports.specs.Meanings.{IsNamed};
ghost use Rattle.dm_imports.specs.Paths as spec;
ghost use Rattle.dm_imports.specs.Paths.{MayAsk};
ghost use Rattle.dm_imports.specs.Tables.{asks, of_tables};

pub(crate) mod around;
pub(crate) mod containers;
pub(crate) mod first;
pub(crate) mod shown;
pub(crate) mod textual;

use crate::asking::Asking;
use crate::container::Container;
use crate::def_maps::DefMaps;
use crate::meaning::{Meaning, public_def};
use crate::paths::containers::{led, through};
use crate::paths::first::first;
use dm_base::ids::ModuleId;
use dm_base::item_ids::{MacroId, ModuleDefId};
use dm_base::mod_path::{ModPath, PathKind};
use dm_base::module_tree::ModuleTree;
use dm_base::name::Name;
use dm_base::per_ns::Namespace;

/// A module itself.
fn itself(container: Container, namespace: Namespace) -> Option<Meaning>
    ensures { result ≡ spec.itself container namespace }
{
    match (container, namespace) {
        (Container::Module(m), Namespace::Types) => Some(public_def(ModuleDefId::ModuleId(m))),
        _ => None,
    }
}

/// What segments mean from a container.
fn from_container(
    maps: &DefMaps<'_>,
    asking: &Asking<'_>,
    segments: &[Name],
    namespace: Namespace,
    container: Container,
) -> Option<Meaning>
    requires { MayAsk (of_tables maps.now) (asks asking.now) }
    ensures value { result ≡ spec.from_container (of_tables maps.now) (asks asking.now) segments.now namespace container }
    ensures named { IsNamed maps.now.world result }
{
    match segments.split_first() {
        None => itself(container, namespace),
        Some((name, rest)) => through(maps, asking, container, name, rest, namespace),
    }
}

/// What segments mean from a module, if there is one.
fn from_module(
    maps: &DefMaps<'_>,
    asking: &Asking<'_>,
    segments: &[Name],
    namespace: Namespace,
    module: Option<ModuleId>,
) -> Option<Meaning>
    requires { MayAsk (of_tables maps.now) (asks asking.now) }
    ensures value { result ≡ spec.from_module (of_tables maps.now) (asks asking.now) segments.now namespace «module» }
    ensures named { IsNamed maps.now.world result }
{
    match module {
        None => None,
        Some(m) => from_container(maps, asking, segments, namespace, Container::Module(m)),
    }
}

/// What a path without a name means: in edition 2015 the crate's root.
fn of_no_name(maps: &DefMaps<'_>, asking: &Asking<'_>, namespace: Namespace) -> Option<Meaning>
    requires { MayAsk (of_tables maps.now) (asks asking.now) }
    ensures value { result ≡ spec.of_no_name (of_tables maps.now) (asks asking.now) namespace }
    ensures named { IsNamed maps.now.world result }
{
    let krate = maps.world.krate(asking.home);
    if maps.world.is_2015(krate) {
        from_module(maps, asking, &[], namespace, maps.world.root_of(krate))
    } else {
        None
    }
}

/// What segments mean of which the first is looked up.
fn from_first(
    maps: &DefMaps<'_>,
    asking: &Asking<'_>,
    textual: Option<MacroId>,
    is_abs: bool,
    segments: &[Name],
    namespace: Namespace,
) -> Option<Meaning>
    requires { MayAsk (of_tables maps.now) (asks asking.now) }
    ensures value { result ≡ spec.from_first (of_tables maps.now) (asks asking.now) textual is_abs segments.now namespace }
    ensures named { IsNamed maps.now.world result }
{
    let Some((name, rest)) = segments.split_first() else {
        return of_no_name(maps, asking, namespace);
    };
    match rest.split_first() {
        None => first(maps, asking, textual, is_abs, name, namespace),
        Some((next, others)) => {
            let types = first(maps, asking, textual, is_abs, name, Namespace::Types);
            let container = led(types)?;
            through(maps, asking, container, next, others, namespace)
        }
    }
}

/// What a path means in a namespace. `textual` is the textual macro of its name where it stands.
///
/// The module that asks, and what visibilities name, have to be the world's.
pub fn path_meaning(
    maps: &DefMaps<'_>,
    asking: &Asking<'_>,
    textual: Option<MacroId>,
    path: &ModPath,
    namespace: Namespace,
) -> Option<Meaning>
    requires { MayAsk (of_tables maps.now) (asks asking.now) }
    ensures value { result ≡ spec.path_meaning (of_tables maps.now) (asks asking.now) textual path.now namespace }
    ensures named { IsNamed maps.now.world result }
{
    let home = asking.home;
    let segments = path.segments();
    match path.kind() {
        PathKind::Crate => {
            let root = maps.world.root_of(maps.world.krate(home));
            from_module(maps, asking, segments, namespace, root)
        }
        PathKind::DollarCrate(krate) => {
            let root = maps.world.root_of(krate);
            from_module(maps, asking, segments, namespace, root)
        }
        PathKind::Super(steps) => {
            let outer = maps.world.outer_member(home, steps);
            from_module(maps, asking, segments, namespace, outer)
        }
        PathKind::Abs => from_first(maps, asking, textual, true, segments, namespace),
        PathKind::Plain => from_first(maps, asking, textual, false, segments, namespace),
    }
}
