//! What associated items stand in: the traits and the implementations of a crate.
ghost use Rattle.std.specs.List.{cons_option, filter_map};
ghost use Rattle.std.specs.Prelude.{◌≡◌, ◌+◌, ◌++◌, [], IfErr, IfOk, OnOk, length, map, true};
ghost use Rattle.crate_tables.specs.Containers as spec;
ghost use Rattle.crate_tables.specs.Numbers.{is_past, is_shortage};

use crate::block_lists::behind;
use crate::crate_table::CrateTable;
use crate::item_place::{BlockKind, BlockPlace, DefPlace};
use crate_items::items::module_items::ItemHome;
use dm_base::ids::{FileId, ImplId, ModuleId};
use dm_base::item_ids::{ItemContainerId, ModuleDefId};
use dm_maps::build_fault::BuildFault;
use std::alloc::{AllocError, Global};

/// A trait or an implementation: the module that it stands in, and where it is written.
#[derive(Clone, Copy)]
pub struct Container {
    pub id: ItemContainerId,
    pub home: ModuleId,
    pub file: FileId,
    pub item: usize,
}

/// The trait that a definition is.
fn trait_of(place: DefPlace) -> Option<Container>
    ensures { result ≡ spec.trait_of place }
{
    match place.def {
        ModuleDefId::TraitId(id) => Some(Container {
            id: ItemContainerId::TraitId(id),
            home: place.home,
            file: place.file,
            item: place.item,
        }),
        _ => None,
    }
}

/// The implementation that a block of a number is.
fn impl_of(number: u32, block: BlockPlace) -> Option<Container>
    ensures { result ≡ spec.impl_of number block }
{
    match block.kind {
        BlockKind::Extern => None,
        _ => Some(Container {
            id: ItemContainerId::ImplId(ImplId(number)),
            home: block.home,
            file: block.file,
            item: block.item,
        }),
    }
}

fn push_if(found: &mut Vec<Container>, one: Option<Container>) -> Result<(), AllocError>
    ensures { OnOk result (found.new.items ≡ found.old.items ++ cons_option one []) }
{
    match one {
        None => Ok(()),
        Some(container) => {
            found.push(container)?;
            Ok(())
        }
    }
}

/// The traits among some definitions.
fn traits_of(alloc: Global, places: &[DefPlace]) -> Result<Vec<Container>, AllocError>
    ensures { IfOk result (λ found. found.items ≡ filter_map spec.trait_of places.now) }
{
    let found = places
        .iter()
        .filter_map(|place| trait_of(*place))
        .collect(alloc)?;
    Ok(found)
}

/// Adds the implementations among some blocks, the first of which has a number.
fn push_impls(
    found: &mut Vec<Container>,
    blocks: &[BlockPlace],
    first: u32,
) -> Result<(), BuildFault>
    ensures exact { OnOk result
        (found.new.items ≡ found.old.items ++ spec.impls_from first blocks.now) }
    ensures fault { IfErr result (λ fault. is_shortage (is_past (first + length blocks.now)) fault ≡ true) }
{
    let mut number = first;
    for block in blocks {
        push_if(found, impl_of(number, *block))?;
        number = behind(number)?;
    }
    Ok(())
}

/// The traits and the implementations of a crate, whose blocks begin at a number.
pub(crate) fn containers_of(
    alloc: Global,
    table: &CrateTable,
    first: u32,
) -> Result<Vec<Container>, BuildFault>
    ensures exact { IfOk result (λ found. found.items ≡ spec.containers_of first table.now) }
    ensures fault { IfErr result (λ fault. is_shortage (is_past (first + length table.now.blocks)) fault ≡ true) }
{
    let mut found = traits_of(alloc, table.defs())?;
    push_impls(&mut found, table.blocks(), first)?;
    Ok(found)
}

/// What the items of some containers stand in.
pub(crate) fn homes_of(alloc: Global, containers: &[Container]) -> Result<Vec<ItemHome>, AllocError>
    ensures { IfOk result (λ homes. homes.items ≡ map spec.home_of containers.now) }
{
    let mut homes = Vec::new(alloc);
    for container in containers {
        homes.push(ItemHome {
            file: container.file,
            item: Some(container.item),
        })?;
    }
    Ok(homes)
}
