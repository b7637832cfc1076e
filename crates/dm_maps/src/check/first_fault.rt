//! The first fault, which is a dangling id, of a world that is being built.
ghost use Rattle.std.specs.Prelude.{◌≡◌, ◌≤◌, ◌↔◌, IsNone, length, map, [], ◌∷◌};
ghost use Rattle.std.specs.Option.{option_map};
ghost use Rattle.dm_maps.specs.First.{each_from, fault_of, local_at, crate_holder, block_holder, module_holder, holders, IsAnswer, IsChecked};
ghost use Rattle.dm_maps.specs.declared.check.fault.Holder.TheVariants as holder;
ghost use Rattle.dm_maps.specs.Held.{IsLeastFault};
ghost use Rattle.dm_maps.specs.Known.{knows};
ghost use Rattle.dm_maps.specs.Holding.{local_holds};
ghost use Rattle.dm_maps.specs.TablesHold.{tables_hold};
ghost use Rattle.dm_maps.specs.Built.{IsBuilt};

use crate::builder::WorldBuilder;
use crate::check::fault::{Holder, WorldFault};
use crate::check::held::HeldFault;
use crate::check::note_maps::{note_local_map, note_map, note_module};
use crate::check::note_tables::{note_data, note_tables};
use crate::check::notes::lesser;
use crate::place::Place;
use dm_base::ids::ModuleId;
use dm_def_map::building;
use dm_def_map::def_map::DefMap;
use dm_def_map::item_tables::ItemTables;
use dm_def_map::modules::local_def_map::LocalDefMap;

/// The fault of a holder whose ids' least fault this is.
fn fault_of(holder: Holder, least: Option<HeldFault>) -> Option<WorldFault>
    ensures { result ≡ option_map (fault_of holder) least }
{
    match least {
        None => None,
        Some(fault) => Some(WorldFault {
            kind: fault.kind,
            holder,
            id: fault.id,
        }),
    }
}

/// The least fault of the extern prelude of crate `k`.
fn note_local_map_at(world: &WorldBuilder, locals: &[LocalDefMap], k: usize) -> Option<HeldFault>
    ensures { IsLeastFault (knows world.now) (local_holds (local_at locals.now k)) result }
{
    match locals.get(k) {
        None => None,
        Some(local) => note_local_map(world, local),
    }
}

/// The fault of the map of crate `k`, with its extern prelude and its procedural macros.
fn crate_map_fault(
    world: &WorldBuilder,
    locals: &[LocalDefMap],
    k: usize,
    map: &DefMap,
) -> Option<WorldFault>
    ensures { IsAnswer world.now (crate_holder locals.now k map.now ∷ []) result }
{
    let own = note_map(world, map);
    let local = note_local_map_at(world, locals, k);
    let beside = lesser(local, note_data(world, building::shared(map)));
    let least = lesser(own, beside);
    fault_of(Holder::Map(map.id()), least)
}

/// The fault of the map of a block.
fn block_map_fault(world: &WorldBuilder, map: &DefMap) -> Option<WorldFault>
    ensures { IsAnswer world.now (block_holder map.now ∷ []) result }
{
    let least = note_map(world, map);
    fault_of(Holder::Map(map.id()), least)
}

/// The fault of the module of number `i`, which stands at that place.
fn module_fault(world: &WorldBuilder, i: u32, place: Place) -> Option<WorldFault>
    ensures { IsAnswer world.now (module_holder world.now i place ∷ []) result }
{
    match world.placed_module(place) {
        None => None,
        Some(data) => {
            let least = note_module(world, data);
            fault_of(Holder::Module(ModuleId(i)), least)
        }
    }
}

/// The fault of the tables that belong to no map and no module.
fn tables_fault(world: &WorldBuilder, tables: &ItemTables) -> Option<WorldFault>
    ensures { IsAnswer world.now ((holder.Tables, tables_hold tables.now) ∷ []) result }
{
    let least = note_tables(world, tables);
    fault_of(Holder::Tables, least)
}

fn of_crate_maps(
    world: &WorldBuilder,
    locals: &[LocalDefMap],
    maps: &[DefMap],
) -> Option<WorldFault>
    ensures { IsAnswer world.now (each_from (crate_holder locals.now) 0 maps.now) result }
{
    for (k, map) in maps.iter().enumerate() {
        if let Some(fault) = crate_map_fault(world, locals, k, map) {
            return Some(fault);
        }
    }
    None
}

fn of_block_maps(world: &WorldBuilder, maps: &[DefMap]) -> Option<WorldFault>
    ensures { IsAnswer world.now (map block_holder maps.now) result }
{
    for map in maps {
        if let Some(fault) = block_map_fault(world, map) {
            return Some(fault);
        }
    }
    None
}

fn of_modules(world: &WorldBuilder, places: &[Place]) -> Option<WorldFault>
    requires { length places.now ≤ 4294967295 }
    ensures { IsAnswer world.now (each_from (module_holder world.now) 0 places.now) result }
{
    for (i, place) in places.iter().enumerate() {
        if let Some(fault) = module_fault(world, i as u32, *place) {
            return Some(fault);
        }
    }
    None
}

impl WorldBuilder {
    /// The first holder with a fault, in the order of crates' maps, blocks' maps, modules and tables, each by number:
    /// of it the least kind of fault, and of that the least id. None where each id is one of the builder's own. Takes
    /// no memory.
    pub(crate) fn first_fault(&self) -> Option<WorldFault>
        ensures answer { IsAnswer self.now (holders self.now) result }
        ensures checked { IsNone result ↔ IsChecked self.now }
        ensures built { IsBuilt self.now }
    {
        if let Some(fault) = of_crate_maps(self, &self.local_maps, self.maps.crates()) {
            return Some(fault);
        }
        if let Some(fault) = of_block_maps(self, self.maps.blocks()) {
            return Some(fault);
        }
        if let Some(fault) = of_modules(self, &self.places) {
            return Some(fault);
        }
        tables_fault(self, &self.item_tables)
    }
}
