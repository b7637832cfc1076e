//! What a glob offers its module.
ghost use Rattle.std.specs.Prelude.{◌≡◌};
ghost use Rattle.dm_base.specs.Tree.{IsKnown};
ghost use Rattle.dm_base.specs.Visibility.{NamesKnown};
ghost use Rattle.dm_base.specs.declared.per_ns.Namespace.TheVariants.{Types, Values, Macros};
ghost use Rattle.dm_maps.specs.Holding.{res_holds};
ghost use Rattle.dm_maps.specs.Known.{KnowsAll};
ghost use Rattle.dm_maps.specs.Trees.{tree_of};
ghost use Rattle.dm_maps.specs.World.{scope_of};
ghost use Rattle.dm_scope.specs.Scope.{bound_in};
ghost use Rattle.dm_imports.specs.declared.container.Container.TheVariants as container;
ghost use Rattle.dm_imports.specs.Meanings.{IsNamed};
ghost use Rattle.dm_imports.specs.Paths.{AreVariantsNamed};
ghost use Rattle.dm_imports.specs.Rules as spec;
ghost use Rattle.dm_imports.specs.Tables.{asks, of_tables};

use crate::asking::Asking;
use crate::container::Container;
use crate::def_maps::DefMaps;
use crate::glob_import::GlobImport;
use crate::meaning::{Meaning, Source};
use crate::paths::containers::{led, member};
use crate::paths::path_meaning;
use crate::paths::shown::item_shown;
use crate::rules::visibilities::least;
use dm_base::ids::ModuleId;
use dm_base::name::Name;
use dm_base::per_ns::{Namespace, PerNs};

/// Whether a container is another than a module.
pub(crate) fn is_other(m: ModuleId, container: Container) -> bool
    ensures { result ≡ spec.is_other m container }
{
    match container {
        Container::Module(k) => m != k,
        Container::Enum(_) => true,
    }
}

/// What a glob shows of what its module sees.
fn offered(maps: &DefMaps<'_>, glob: &GlobImport, found: Meaning) -> Meaning
    requires into { IsKnown (tree_of maps.now.world) glob.now.into }
    requires vis { NamesKnown (tree_of maps.now.world) glob.now.vis }
    requires found { NamesKnown (tree_of maps.now.world) found.vis }
    ensures value { result ≡ spec.offered (of_tables maps.now) glob.now found }
    ensures named { NamesKnown (tree_of maps.now.world) result.vis }
{
    Meaning {
        vis: least(maps.world, glob.into, glob.vis, found.vis),
        source: Source::Glob(glob.import),
        ..found
    }
}

/// Who asks for what a glob's path means: no import, so that no slot is its own.
fn glob_asks<'a>(glob: &GlobImport) -> Asking<'a>
    ensures { asks result ≡ spec.glob_asks glob.now }
{
    Asking {
        home: glob.into,
        import: None,
        below: None,
        offered: None,
    }
}

/// The module or enum that a glob's path means, if that is not the glob's own module.
pub(crate) fn source_of(maps: &DefMaps<'_>, glob: &GlobImport) -> Option<Container>
    requires into { IsKnown (tree_of maps.now.world) glob.now.into }
    requires variants { AreVariantsNamed (of_tables maps.now) }
    ensures { result ≡ spec.source_of (of_tables maps.now) glob.now }
{
    let asking = glob_asks(glob);
    let found = path_meaning(maps, &asking, None, &glob.path, Namespace::Types);
    let container = led(found)?;
    if is_other(glob.into, container) {
        Some(container)
    } else {
        None
    }
}

/// What a glob offers of a source under a name.
pub(crate) fn offer_from(
    maps: &DefMaps<'_>,
    glob: &GlobImport,
    container: Container,
    name: &Name,
    namespace: Namespace,
) -> Option<Meaning>
    requires into { IsKnown (tree_of maps.now.world) glob.now.into }
    requires vis { NamesKnown (tree_of maps.now.world) glob.now.vis }
    requires variants { AreVariantsNamed (of_tables maps.now) }
    ensures value { result ≡ spec.offer_from (of_tables maps.now) glob.now container name.now namespace }
    ensures named { IsNamed maps.now.world result }
{
    let asking = glob_asks(glob);
    let found = member(maps, &asking, container, name, namespace)?;
    Some(offered(maps, glob, found))
}

/// What a glob offers under a name, in each namespace.
#[derive(Clone, Copy)]
pub(crate) struct NameOffers {
    pub(crate) types: Option<Meaning>,
    pub(crate) values: Option<Meaning>,
    pub(crate) macros: Option<Meaning>,
}

/// What a glob offers of a module under a name, where the module binds `items` under it.
fn item_offer(
    maps: &DefMaps<'_>,
    glob: &GlobImport,
    m: ModuleId,
    name: &Name,
    items: &PerNs,
    namespace: Namespace,
) -> Option<Meaning>
    requires into { IsKnown (tree_of maps.now.world) glob.now.into }
    requires vis { NamesKnown (tree_of maps.now.world) glob.now.vis }
    requires variants { AreVariantsNamed (of_tables maps.now) }
    requires items { items.now ≡ bound_in (scope_of maps.now.world m) name.now }
    requires known { KnowsAll maps.now.world (res_holds items.now) }
    ensures value { result ≡ spec.offer_from (of_tables maps.now) glob.now (container.Module m) name.now namespace }
    ensures named { IsNamed maps.now.world result }
{
    let asking = glob_asks(glob);
    let found = item_shown(maps, &asking, m, name, items, namespace)?;
    Some(offered(maps, glob, found))
}

/// What a glob offers of a source under a name, in each namespace.
pub(crate) fn offers_from(
    maps: &DefMaps<'_>,
    glob: &GlobImport,
    container: Container,
    name: &Name,
) -> NameOffers
    requires into { IsKnown (tree_of maps.now.world) glob.now.into }
    requires vis { NamesKnown (tree_of maps.now.world) glob.now.vis }
    requires variants { AreVariantsNamed (of_tables maps.now) }
    ensures types { result.types ≡ spec.offer_from (of_tables maps.now) glob.now container name.now Types }
    ensures values { result.values ≡ spec.offer_from (of_tables maps.now) glob.now container name.now Values }
    ensures macros { result.macros ≡ spec.offer_from (of_tables maps.now) glob.now container name.now Macros }
    ensures types_named { IsNamed maps.now.world result.types }
    ensures values_named { IsNamed maps.now.world result.values }
    ensures macros_named { IsNamed maps.now.world result.macros }
{
    match container {
        Container::Module(m) => {
            let items = maps.world.bound_in(m, name);
            NameOffers {
                types: item_offer(maps, glob, m, name, &items, Namespace::Types),
                values: item_offer(maps, glob, m, name, &items, Namespace::Values),
                macros: item_offer(maps, glob, m, name, &items, Namespace::Macros),
            }
        }
        Container::Enum(_) => NameOffers {
            types: offer_from(maps, glob, container, name, Namespace::Types),
            values: offer_from(maps, glob, container, name, Namespace::Values),
            macros: offer_from(maps, glob, container, name, Namespace::Macros),
        },
    }
}
