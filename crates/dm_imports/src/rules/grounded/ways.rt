//! Ways in which slots of def maps may be derived.
ghost use Rattle.std.specs.Prelude.{◌≡◌, All, Contains, IfOk, OnOk, is_some, true};
ghost use Rattle.std.specs.Option.{option_copied};
ghost use Rattle.dm_base.specs.declared.ids.ModuleId.{ModuleId};
ghost use Rattle.dm_maps.specs.World.{scope_of};
ghost use Rattle.dm_scope.specs.Scope.{bound_in};
ghost use Rattle.dm_imports.specs.Grounding as spec;
ghost use Rattle.dm_imports.specs.Rules.{AreMapsKnown, IsImportKnown, IsModule};
ghost use Rattle.dm_imports.specs.Supporting.{IsListing};
ghost use Rattle.dm_imports.specs.Tables.{of_tables};

use crate::def_maps::DefMaps;
use crate::named_import::NamedImport;
use crate::paths::shown::item_at;
use crate::rules::grounded::steps::is_declared;
use crate::rules::listing::{Listing, names_in};
use crate::slots::Slots;
use dm_base::ids::ModuleId;
use dm_base::name::Name;
use dm_base::per_ns::{Namespace, PerNs};
use dm_scope::scope_tables::ScopeTables;
use std::alloc::{AllocError, Global};
use std::marker::Model;

/// A slot, and the import that may derive it; without one a declaration may, or globs.
#[derive(Drop)]
pub(crate) struct Way<'a> {
    pub(crate) home: ModuleId,
    pub(crate) name: &'a Name,
    pub(crate) namespace: Namespace,
    pub(crate) import: Option<&'a NamedImport>,
}

impl<'a> Model for Way<'a> {
    ghost use Rattle.std.specs.Option.{option_copied};
    ghost use Rattle.dm_imports.specs.Grounding.{Way};

    ghost Value = { Way };

    ghost view = { λ w. record {
      home = w.home;
      name = w.name.now;
      namespace = w.namespace;
      import = option_copied w.import;
    } };
}

/// Makes the slot of a way known where its module declares it, and else adds the way, if the slot means something. The
/// module binds `items` under the name.
fn add_way<'a>(
    ways: &mut Vec<Way<'a>>,
    known: &mut Slots<bool>,
    maps: &DefMaps<'_>,
    items: &PerNs,
    way: Way<'a>,
) -> Result<(), AllocError>
    requires way { spec.IsWay (of_tables maps.now) way }
    requires items { items.now ≡ bound_in (scope_of maps.now.world way.home) way.name }
    ensures more { OnOk result (spec.HasMore (of_tables maps.now) known.old known.new ways.old.items ways.new.items) }
    ensures settled { OnOk result (is_some (spec.means (of_tables maps.now) way.entry) ≡ true
        → spec.IsSettled (spec.slots_of known.new) ways.new.items way.entry) }
{
    let Some(meaning) = item_at(maps, way.home, way.name, items, way.namespace) else {
        return Ok(());
    };
    if is_declared(meaning) {
        known.put(way.home, way.name, way.namespace, true)?;
    } else {
        ways.push(way)?;
    }
    Ok(())
}

/// Does so with the ways of a name in each namespace.
fn add_name<'a>(
    ways: &mut Vec<Way<'a>>,
    known: &mut Slots<bool>,
    maps: &DefMaps<'_>,
    home: ModuleId,
    name: &'a Name,
    import: Option<&'a NamedImport>,
) -> Result<(), AllocError>
    requires { spec.AreWays (of_tables maps.now) home name.now (option_copied import) }
    ensures more { OnOk result (spec.HasMore (of_tables maps.now) known.old known.new ways.old.items ways.new.items) }
    ensures settled { OnOk result (spec.AreSettled (of_tables maps.now) (spec.slots_of known.new) ways.new.items
        home name.now (option_copied import.entry)) }
{
    let items = maps.world.bound_in(home, name);
    let way = Way {
        home,
        name,
        namespace: Namespace::Types,
        import,
    };
    add_way(ways, known, maps, &items, way)?;
    let way = Way {
        home,
        name,
        namespace: Namespace::Values,
        import,
    };
    add_way(ways, known, maps, &items, way)?;
    let way = Way {
        home,
        name,
        namespace: Namespace::Macros,
        import,
    };
    add_way(ways, known, maps, &items, way)?;
    Ok(())
}

/// Does so with those of some imports.
fn add_imports<'a>(
    ways: &mut Vec<Way<'a>>,
    known: &mut Slots<bool>,
    maps: &DefMaps<'_>,
    imports: &'a [NamedImport],
) -> Result<(), AllocError>
    requires known { All (IsImportKnown (of_tables maps.now)) imports.now }
    requires listed { All (Contains maps.now.imports) imports.now }
    ensures more { OnOk result (spec.HasMore (of_tables maps.now) known.old known.new ways.old.items ways.new.items) }
    ensures settled { OnOk result (All (spec.IsImportSettled (of_tables maps.now) (spec.slots_of known.new) ways.new.items)
        imports.now) }
{
    for import in imports {
        add_name(ways, known, maps, import.home, &import.name, Some(import))?;
    }
    Ok(())
}

/// Does so with those of some names of a module.
fn add_names<'a>(
    ways: &mut Vec<Way<'a>>,
    known: &mut Slots<bool>,
    maps: &DefMaps<'_>,
    m: ModuleId,
    names: &[&'a Name],
) -> Result<(), AllocError>
    requires { IsModule (of_tables maps.now) m }
    ensures more { OnOk result (spec.HasMore (of_tables maps.now) known.old known.new ways.old.items ways.new.items) }
    ensures settled { OnOk result (All (spec.IsNameSettled (of_tables maps.now) (spec.slots_of known.new) ways.new.items m)
        names.now) }
{
    for name in names {
        add_name(ways, known, maps, m, *name, None)?;
    }
    Ok(())
}

/// Does so with those of all names that a module binds.
fn add_module<'a>(
    ways: &mut Vec<Way<'a>>,
    known: &mut Slots<bool>,
    alloc: Global,
    maps: &DefMaps<'_>,
    listing: &Listing<'a>,
    m: ModuleId,
) -> Result<(), AllocError>
    requires home { IsModule (of_tables maps.now) m }
    requires listing { IsListing maps.now.world listing.now }
    ensures more { OnOk result (spec.HasMore (of_tables maps.now) known.old known.new ways.old.items ways.new.items) }
    ensures settled { OnOk result (spec.HasWaysOf (of_tables maps.now) (spec.slots_of known.new) ways.new.items m) }
{
    let names = names_in(alloc, listing, m)?;
    add_names(ways, known, maps, m, names.as_slice())?;
    Ok(())
}

/// Does so with those of all modules.
fn add_modules<'a>(
    ways: &mut Vec<Way<'a>>,
    known: &mut Slots<bool>,
    alloc: Global,
    maps: &DefMaps<'_>,
    listing: &Listing<'a>,
) -> Result<(), AllocError>
    requires { IsListing maps.now.world listing.now }
    ensures more { OnOk result (spec.HasMore (of_tables maps.now) known.old known.new ways.old.items ways.new.items) }
    ensures settled { OnOk result ((m : ModuleId) → IsModule (of_tables maps.now) m
        → spec.HasWaysOf (of_tables maps.now) (spec.slots_of known.new) ways.new.items m) }
{
    for number in 0..u32::MAX {
        let m = ModuleId(number);
        if maps.world.scope_of(m).is_none() {
            return Ok(());
        }
        add_module(ways, known, alloc, maps, listing, m)?;
    }
    Ok(())
}

/// All ways in which slots may be derived that mean something, and are declared by no module: by each import, and in each
/// module by globs. The slots that modules declare are made known.
///
/// Fails only where memory runs out.
pub(crate) fn all_ways<'a>(
    known: &mut Slots<bool>,
    alloc: Global,
    maps: &DefMaps<'a>,
    listing: &Listing<'a>,
) -> Result<Vec<Way<'a>>, AllocError>
    requires maps { AreMapsKnown (of_tables maps.now) }
    requires listing { IsListing maps.now.world listing.now }
    requires safe { spec.IsSafe (of_tables maps.now) (spec.slots_of known.old) }
    ensures ways { IfOk result (λ ways. All (spec.IsWay (of_tables maps.now)) ways.items) }
    ensures covered { IfOk result (λ ways. spec.AreCovered (of_tables maps.now) (spec.slots_of known.new) ways.items) }
    ensures safe { OnOk result (spec.IsSafe (of_tables maps.now) (spec.slots_of known.new)) }
{
    let mut ways = Vec::new(alloc);
    add_imports(&mut ways, known, maps, maps.imports)?;
    add_modules(&mut ways, known, alloc, maps, listing)?;
    Ok(ways)
}
