//! The associated items of traits and of plain inherent implementations, as the answers take them.
ghost use Rattle.std.specs.Prelude.{◌≡◌};
ghost use Rattle.hir_def_map.specs.RawVisibilities.{assoc_def};

use crate::settled::Settled;
use crate::world_modules::item_home;
use crate::world_paths::meaning;
use crate_items::files::source::Source;
use crate_tables::assoc_items::filling::AssocPlace;
use crate_tables::block_lists::numbered_block;
use crate_tables::item_place::{BlockKind, BlockPlace};
use defmap_answers::associated::AssociatedItem;
use defmap_answers::crates::Crates;
use defmap_answers::places::{ItemPlace, source_of};
use defmap_answers::self_types::self_path;
use defmap_answers::written_path::written_path;
use dm_base::ids::{FileId, ModuleId};
use dm_base::item_ids::{AssocItemId, ItemContainerId, ModuleDefId};
use dm_base::item_in_ns::ItemModules;
use dm_base::visibility::Visibility;
use dm_maps::world::World;
use hir_def_map::visibility::AssocVisibility;
use std::alloc::{AllocError, Global};

fn kind_of(id: AssocItemId) -> &'static str {
    match id {
        AssocItemId::FunctionId(_) => "fn",
        AssocItemId::ConstId(_) => "const",
        AssocItemId::TypeAliasId(_) => "type",
    }
}

fn def_of(id: AssocItemId) -> ModuleDefId
    ensures { result ≡ assoc_def id }
{
    match id {
        AssocItemId::FunctionId(function) => ModuleDefId::FunctionId(function),
        AssocItemId::ConstId(constant) => ModuleDefId::ConstId(constant),
        AssocItemId::TypeAliasId(alias) => ModuleDefId::TypeAliasId(alias),
    }
}

/// Who sees an item.
fn visibility_of(world: &World, id: AssocItemId) -> Option<Visibility> {
    if world.knows_def(def_of(id)) {
        Some(id.assoc_visibility(world))
    } else {
        None
    }
}

/// The text of a file.
fn text_of(settled: &Settled, file: FileId) -> &str {
    let files = settled.files();
    if files.contains(file) {
        std::str::from_utf8(files.text(file)).unwrap_or("")
    } else {
        ""
    }
}

/// The source of a file in the crate of a module, and the number of that.
fn source_in(settled: &Settled, home: ModuleId, file: FileId) -> Option<(usize, &Source)> {
    let krate = settled.world().module_krate(home)?;
    let number = krate.0 as usize;
    Some((number, source_of(settled.lists(), number, file)?))
}

/// The type that an inherent implementation is of, where its header is plain.
fn self_type(
    alloc: Global,
    settled: &Settled,
    block: BlockPlace,
) -> Result<Option<ModuleDefId>, AllocError> {
    let Some((_krate, source)) = source_in(settled, block.home, block.file) else {
        return Ok(None);
    };
    let text = text_of(settled, block.file);
    let Some(written) = self_path(alloc, text, source, block.item)? else {
        return Ok(None);
    };
    let Some(path) = written_path(alloc, written.as_str())? else {
        return Ok(None);
    };
    match meaning(settled.world(), block.home, &path) {
        Some(found) if found.segment_index.is_none() => match found.resolved_def.types {
            None => Ok(None),
            Some(item) => Ok(Some(item.def)),
        },
        _ => Ok(None),
    }
}

/// What has an item, and the module that it stands in.
fn owner_of(
    alloc: Global,
    settled: &Settled,
    id: AssocItemId,
) -> Result<Option<(ModuleDefId, ModuleId)>, AllocError> {
    let Some((container, _raw)) = settled.world().raw_assoc_of(id) else {
        return Ok(None);
    };
    match *container {
        ItemContainerId::TraitId(of) => {
            let owner = ModuleDefId::TraitId(of);
            Ok(match item_home(settled.world(), owner) {
                None => None,
                Some(home) => Some((owner, home)),
            })
        }
        ItemContainerId::ImplId(number) => {
            let tables = settled.collected.tables.as_slice();
            match numbered_block(tables, number.0) {
                Some(block) if block.kind == BlockKind::InherentImpl => {
                    Ok(match self_type(alloc, settled, block)? {
                        None => None,
                        Some(owner) => Some((owner, block.home)),
                    })
                }
                _ => Ok(None),
            }
        }
        _ => Ok(None),
    }
}

/// The name of an item of a text, without the `r#` of a raw one.
fn name_of<'a>(text: &'a str, source: &Source, item: usize) -> Option<&'a str> {
    let name = source.items().get(item)?.name?;
    let lexeme = source.lexemes().get(name)?;
    let written = text.get(lexeme.start..lexeme.start.saturating_add(lexeme.len))?;
    Some(written.strip_prefix("r#").unwrap_or(written))
}

/// An associated item, where it is plain what has it.
fn item_of(
    alloc: Global,
    settled: &Settled,
    place: AssocPlace,
) -> Result<Option<AssociatedItem>, AllocError> {
    let Some(visibility) = visibility_of(settled.world(), place.id) else {
        return Ok(None);
    };
    let Some((owner, home)) = owner_of(alloc, settled, place.id)? else {
        return Ok(None);
    };
    let Some((krate, source)) = source_in(settled, home, place.file) else {
        return Ok(None);
    };
    let text = text_of(settled, place.file);
    let Some(name) = name_of(text, source, place.item) else {
        return Ok(None);
    };
    Ok(Some(AssociatedItem {
        owner,
        kind: kind_of(place.id),
        name: String::from_str(alloc, name)?,
        visibility,
        place: ItemPlace {
            krate,
            file: place.file,
            item: place.item,
        },
    }))
}

/// The associated items of traits and of plain inherent implementations, of all crates.
pub(crate) fn associated_items(
    alloc: Global,
    settled: &Settled,
) -> Result<Vec<AssociatedItem>, AllocError> {
    let mut items = Vec::new(alloc);
    for place in &settled.collected.assocs {
        if let Some(item) = item_of(alloc, settled, *place)? {
            items.push(item)?;
        }
    }
    Ok(items)
}
