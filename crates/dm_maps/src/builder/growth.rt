//! Adding modules and def maps, with their places, ladders (jump pointers) and lists: all or nothing where an
//! allocation fails. Room in plain lists is reserved first, so only a ladder and a block's entry are ever taken back.
ghost use Rattle.std.specs.Prelude.{◌≡◌, ◌<◌, ◌++◌, ◌∷◌, [], IsSome, None, Some, OnOk, OnErr, length, vec_len, vec_capacity};
ghost use Rattle.dm_maps.specs.BlockLists.{entry_with};
ghost use Rattle.dm_maps.specs.Maps.{IsFree, maps_with_child, maps_and, nth_module_in};

use crate::builder::block_list::{BlockList, list_block, unlist_block};
use crate::ladders::Ladders;
use crate::maps::Maps;
use crate::place::Place;
use dm_base::ids::{BlockId, Crate, ModuleId};
use dm_base::name::Name;
use dm_def_map::def_map::DefMap;
use dm_def_map::modules::local_def_map::LocalDefMap;
use dm_def_map::modules::module_data::ModuleData;
use std::alloc::{AllocError, Global};

/// A module that is added: its number, its name as a child of the module at `at`, and its own place.
#[derive(Drop)]
pub(crate) struct NewChild {
    pub(crate) at: Place,
    pub(crate) place: Place,
    pub(crate) name: Name,
    pub(crate) m: ModuleId,
    pub(crate) added: ModuleData,
}

/// A block that is added: its crate and its number, the place of its root, and its map.
#[derive(Drop)]
pub(crate) struct NewBlock {
    pub(crate) krate: Crate,
    pub(crate) b: BlockId,
    pub(crate) place: Place,
    pub(crate) map: DefMap,
}

/// Adds an element, the last. Where an allocation fails, nothing changes.
pub(crate) fn add_last<T: Drop>(list: &mut Vec<T>, item: T) -> Result<(), AllocError>
    ensures ok { OnOk result (list.new.items ≡ list.old.items ++ item ∷ []) }
    ensures err { OnErr result (list.new.items ≡ list.old.items) }
{
    list.push(item)?;
    Ok(())
}

/// Adds an element, the last, for which there is room.
fn put<T: Drop>(list: &mut Vec<T>, item: T)
    requires { vec_len list.old < vec_capacity list.old }
    ensures { list.new.items ≡ list.old.items ++ item ∷ [] }
{
    match list.push(item) {
        Ok(()) => {}
        Err(_refused) => unreachable!(),
    }
}

/// Adds a module in `parent`, with its place and its ladder.
pub(crate) fn add_child_in(
    ladders: &mut Ladders,
    parent: ModuleId,
    places: &mut Vec<Place>,
    maps: &mut Maps,
    child: NewChild,
) -> Result<(), AllocError>
    requires room { length ladders.old < 4294967295 }
    requires known { parent.0 < length ladders.old }
    requires free { IsFree maps.old child.at.map child.m }
    requires there { IsSome (nth_module_in maps.old child.at.map child.at.index) }
    ensures ladders { OnOk result (ladders.new ≡ ladders.old ++ Some parent ∷ []) }
    ensures places { OnOk result (places.new.items ≡ places.old.items ++ child.place ∷ []) }
    ensures maps { OnOk result (maps.new
        ≡ maps_with_child maps.old child.at.map child.at.index child.name child.m child.added) }
    ensures old_ladders { OnErr result (ladders.new ≡ ladders.old) }
    ensures old_places { OnErr result (places.new.items ≡ places.old.items) }
    ensures old_maps { OnErr result (maps.new ≡ maps.old) }
{
    let at = child.at;
    let place = child.place;
    places.reserve(1)?;
    ladders.push(Some(parent))?;
    match maps.add_child(at.map, at.index, child.name, child.m, child.added) {
        Ok(()) => {
            put(places, place);
            Ok(())
        }
        Err(refused) => {
            ladders.pop();
            Err(refused)
        }
    }
}

/// Adds the map of a block, and lists the block as one of its crate.
fn add_listed_map(
    lists: &mut Vec<BlockList>,
    krate: Crate,
    b: BlockId,
    maps: &mut Maps,
    map: DefMap,
) -> Result<(), AllocError>
    requires { krate.0 < length lists.old.items }
    ensures lists { OnOk result (lists.new.items ≡ entry_with lists.old.items krate.0 (λ l. l ++ b ∷ [])) }
    ensures maps { OnOk result (maps.new ≡ maps_and maps.old map) }
    ensures old_lists { OnErr result (lists.new.items ≡ lists.old.items) }
    ensures old_maps { OnErr result (maps.new ≡ maps.old) }
{
    let k = krate.0 as usize;
    list_block(lists, k, b)?;
    match maps.push(map) {
        Ok(()) => Ok(()),
        Err(refused) => {
            unlist_block(lists, k);
            Err(refused)
        }
    }
}

/// Adds the map of a block in `container`, with the place and the ladder of its root, and lists the block as one of its
/// crate.
pub(crate) fn add_map_in(
    ladders: &mut Ladders,
    container: ModuleId,
    lists: &mut Vec<BlockList>,
    places: &mut Vec<Place>,
    maps: &mut Maps,
    block: NewBlock,
) -> Result<(), AllocError>
    requires room { length ladders.old < 4294967295 }
    requires known { container.0 < length ladders.old }
    requires listed { block.krate.0 < length lists.old.items }
    ensures ladders { OnOk result (ladders.new ≡ ladders.old ++ Some container ∷ []) }
    ensures lists { OnOk result (lists.new.items
        ≡ entry_with lists.old.items block.krate.0 (λ l. l ++ block.b ∷ [])) }
    ensures places { OnOk result (places.new.items ≡ places.old.items ++ block.place ∷ []) }
    ensures maps { OnOk result (maps.new ≡ maps_and maps.old block.map) }
    ensures old_ladders { OnErr result (ladders.new ≡ ladders.old) }
    ensures old_lists { OnErr result (lists.new.items ≡ lists.old.items) }
    ensures old_places { OnErr result (places.new.items ≡ places.old.items) }
    ensures old_maps { OnErr result (maps.new ≡ maps.old) }
{
    let place = block.place;
    places.reserve(1)?;
    ladders.push(Some(container))?;
    match add_listed_map(lists, block.krate, block.b, maps, block.map) {
        Ok(()) => {
            put(places, place);
            Ok(())
        }
        Err(refused) => {
            ladders.pop();
            Err(refused)
        }
    }
}

/// Adds the map of a crate, with the place and the ladder of its root, an empty extern prelude, and an empty list of
/// blocks.
pub(crate) fn add_outmost_map(
    ladders: &mut Ladders,
    lists: &mut Vec<BlockList>,
    places: &mut Vec<Place>,
    place: Place,
    local_maps: &mut Vec<LocalDefMap>,
    maps: &mut Maps,
    map: DefMap,
    alloc: Global,
) -> Result<(), AllocError>
    requires room { length ladders.old < 4294967295 }
    ensures ladders { OnOk result (ladders.new ≡ ladders.old ++ None ∷ []) }
    ensures lists { OnOk result (lists.new.items ≡ lists.old.items ++ [] ∷ []) }
    ensures places { OnOk result (places.new.items ≡ places.old.items ++ place ∷ []) }
    ensures locals { OnOk result (local_maps.new.items ≡ local_maps.old.items ++ [] ∷ []) }
    ensures maps { OnOk result (maps.new ≡ maps_and maps.old map) }
    ensures old_ladders { OnErr result (ladders.new ≡ ladders.old) }
    ensures old_lists { OnErr result (lists.new.items ≡ lists.old.items) }
    ensures old_places { OnErr result (places.new.items ≡ places.old.items) }
    ensures old_locals { OnErr result (local_maps.new.items ≡ local_maps.old.items) }
    ensures old_maps { OnErr result (maps.new ≡ maps.old) }
{
    places.reserve(1)?;
    local_maps.reserve(1)?;
    lists.reserve(1)?;
    ladders.push(None)?;
    match maps.push(map) {
        Ok(()) => {
            put(places, place);
            put(local_maps, LocalDefMap::new(alloc));
            put(lists, BlockList::new(alloc));
            Ok(())
        }
        Err(refused) => {
            ladders.pop();
            Err(refused)
        }
    }
}
