//! Look-ups in the tables of a world, also while it is built. None of them takes memory.
ghost use Rattle.std.specs.Prelude.{◌≡◌, ◌↔◌, IsTrue, IfSome, Some, slice_get, nat_lt, length};
ghost use Rattle.std.specs.Option.{option_copied, option_map};
ghost use Rattle.dm_base.specs.Names.{find_name};
ghost use Rattle.dm_base.specs.Tree.{IsTree, IsKnown};
ghost use Rattle.dm_scope.specs.Scope.{bound_in};
ghost use Rattle.dm_maps.specs.World.{crate_map, place_of, numbered_map, map_of, placed_module, module_of, scope_of};
ghost use Rattle.dm_maps.specs.Readings.{variants_of};
ghost use Rattle.dm_maps.specs.Trees.{IsWorld, map_id_in, parent_in, container_in, containers_of};

use crate::builder::WorldBuilder;
use crate::place::Place;
use dm_base::fields_shape::FieldsShape;
use dm_base::ids::{BlockId, Crate, EnumId, EnumVariantId, MapId, ModuleId};
use dm_base::name::Name;
use dm_base::per_ns::{PerNs, TypesItem};
use dm_def_map::building;
use dm_def_map::def_map::DefMap;
use dm_def_map::modules::module_data::ModuleData;

impl WorldBuilder {
    /// Where a module stands.
    pub(crate) fn place_of(&self, m: ModuleId) -> Option<Place>
        ensures { result ≡ place_of self.now m }
    {
        self.places.get(m.0 as usize).copied()
    }

    /// The map of that id, by its number: a block's is found by the block alone, whatever crate the id names.
    pub(crate) fn numbered_map(&self, id: MapId) -> Option<&DefMap>
        ensures { option_copied result ≡ numbered_map self.now id }
    {
        self.maps.get(id)
    }

    /// The map of a crate.
    pub(crate) fn crate_map_at(&self, krate: Crate) -> &DefMap
        requires { IsTrue (nat_lt krate.0 (length self.now.crate_maps)) }
        ensures { crate_map self.now krate ≡ Some result.now }
    {
        &self.maps.crates()[krate.0 as usize]
    }

    /// The map of a block: its id is what a change of the map takes.
    pub fn block_map(&self, block: BlockId) -> Option<&DefMap>
        ensures { option_copied result ≡ slice_get self.now.block_maps block.0 }
    {
        self.maps.blocks().get(block.0 as usize)
    }

    /// The map that a module lies in.
    pub(crate) fn map_of(&self, m: ModuleId) -> Option<&DefMap>
        ensures { option_copied result ≡ map_of self.now m }
    {
        self.numbered_map(self.place_of(m)?.map)
    }

    /// A module, by its number.
    pub(crate) fn module_of(&self, m: ModuleId) -> Option<&ModuleData>
        ensures { option_copied result ≡ module_of self.now m }
    {
        self.placed_module(self.place_of(m)?)
    }

    pub(crate) fn placed_module(&self, place: Place) -> Option<&ModuleData>
        ensures { option_copied result ≡ placed_module self.now place }
    {
        building::nth(self.numbered_map(place.map)?, place.index)
    }

    /// Whether the module is one of the world's.
    pub(crate) fn has(&self, m: ModuleId) -> bool
        ensures { result ≡ nat_lt m.0 (length self.now.places) }
    {
        (m.0 as usize) < self.places.len()
    }

    /// The id of the map that a module lies in.
    pub(crate) fn map_id_of(&self, m: ModuleId) -> MapId
        ensures { result ≡ map_id_in self.now.places m }
    {
        match self.places.get(m.0 as usize) {
            None => MapId {
                krate: Crate(0),
                block: None,
            },
            Some(place) => place.map,
        }
    }

    /// The parent of a module in its map.
    pub(crate) fn parent_of(&self, m: ModuleId) -> Option<ModuleId>
        ensures value { result ≡ parent_in self.now.places m }
        ensures world { IsWorld self.now }
    {
        self.places.get(m.0 as usize)?.parent
    }

    /// The module that contains a block.
    pub(crate) fn container_of(&self, block: Option<BlockId>) -> Option<ModuleId>
        ensures value { result ≡ container_in (containers_of self.now.block_maps) block }
        ensures world { IsWorld self.now }
    {
        let _maps = &self.maps;
        self.maps.blocks().get(block?.0 as usize)?.parent()
    }

    /// What a module's scope binds under a name; nothing where there is no such module.
    pub(crate) fn bound_in(&self, m: ModuleId, name: &Name) -> PerNs
        ensures { result ≡ bound_in (scope_of self.now m) name.now }
    {
        match self.module_of(m) {
            None => PerNs::none(),
            Some(data) => data.scope().get(name),
        }
    }

    /// What a module's scope binds under a name as a type; nothing where there is no such module.
    pub(crate) fn type_in(&self, m: ModuleId, name: &Name) -> Option<&TypesItem>
        ensures { option_copied result ≡ (bound_in (scope_of self.now m) name.now).types }
    {
        self.module_of(m)?.scope().type_item(name)
    }

    /// The variant of an enum under a name, with its shape.
    pub(crate) fn variant_of(&self, e: EnumId, name: &Name) -> Option<(EnumVariantId, FieldsShape)>
        ensures { result ≡ find_name name.now (variants_of self.now e) }
    {
        self.enums.get(&e)?.get(name)
    }
}
