//! The associated items of crates.
ghost use Rattle.std.specs.Prelude.{◌≡◌};
ghost use Rattle.hir_def_map.specs.RawVisibilities.{assoc_def};

use crate::settled::Settled;
use crate_tables::assoc_items::filling::AssocPlace;
use defmap_answers::crates::{Crates, is_asked, numbered};
use defmap_answers::places::source_of;
use dm_base::ids::FileId;
use dm_base::item_ids::{AssocItemId, ItemContainerId, ModuleDefId};
use dm_base::visibility::Visibility;
use dm_maps::world::World;
use hir_def_map::visibility::AssocVisibility;
use std::alloc::{AllocError, Global};
use std::fmt::Write;

/// What an item is, with its number.
fn words_of(id: AssocItemId) -> (&'static str, u32) {
    match id {
        AssocItemId::FunctionId(function) => ("function", function.0),
        AssocItemId::ConstId(constant) => ("constant", constant.0),
        AssocItemId::TypeAliasId(alias) => ("type alias", alias.0),
    }
}

fn def_of(id: AssocItemId) -> ModuleDefId
    ensures { result ≡ assoc_def id }
{
    match id {
        AssocItemId::FunctionId(function) => ModuleDefId::FunctionId(function),
        AssocItemId::ConstId(constant) => ModuleDefId::ConstId(constant),
        AssocItemId::TypeAliasId(alias) => ModuleDefId::TypeAliasId(alias),
    }
}

/// What it stands in, with its number.
fn container_of(world: &World, id: AssocItemId) -> (&'static str, u32) {
    match world.raw_assoc_of(id) {
        None => ("nothing", 0),
        Some((container, _)) => match *container {
            ItemContainerId::TraitId(id) => ("trait", id.0),
            ItemContainerId::ImplId(id) => ("impl", id.0),
            ItemContainerId::ExternBlockId(id) => ("extern block", id.0),
            ItemContainerId::ModuleId(id) => ("module", id.0),
        },
    }
}

/// Who sees it.
fn seen_by(alloc: Global, world: &World, id: AssocItemId) -> Result<String, AllocError> {
    if !world.knows_def(def_of(id)) {
        return String::from_str(alloc, "nobody");
    }
    match id.assoc_visibility(world) {
        Visibility::Public => String::from_str(alloc, "all"),
        Visibility::PubCrate(krate) => format!(in alloc; "crate {}", krate.0),
        Visibility::Module(module, _) => format!(in alloc; "module {}", module.0),
    }
}

/// Adds an associated item: where it is written, what it stands in, and who sees it.
fn push_assoc(
    out: &mut String,
    alloc: Global,
    world: &World,
    place: AssocPlace,
) -> Result<(), AllocError> {
    let (word, number) = words_of(place.id);
    let (container, of) = container_of(world, place.id);
    let seen = seen_by(alloc, world, place.id)?;
    let (item, file) = (place.item, place.file.0);
    write!(
        out,
        "{word} {number}: item {item} of file {file}, in {container} {of}, seen by {seen}\n"
    )
}

/// Whether a file is one of a crate that is asked about.
fn is_of_asked(settled: &Settled, file: FileId) -> bool {
    let lists = settled.lists();
    for number in 0..lists.len() {
        if is_asked(settled, numbered(number)) && source_of(lists, number, file).is_some() {
            return true;
        }
    }
    false
}

/// Adds the associated items of the crates that are asked about, in lines.
pub(crate) fn push_assocs(
    out: &mut String,
    alloc: Global,
    settled: &Settled,
) -> Result<(), AllocError> {
    for place in &settled.collected.assocs {
        if is_of_asked(settled, place.file) {
            push_assoc(out, alloc, settled.world(), *place)?;
        }
    }
    Ok(())
}
