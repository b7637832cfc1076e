//! Who sees the constructors of variants under `#[non_exhaustive]`: their crate alone.
ghost use Rattle.std.specs.Prelude.{◌≡◌, ◌++◌, ℕ, if◌then◌else◌, IfOk, OnOk, Some, slice_get};
ghost use Rattle.std.specs.List.{flat_map};
ghost use Rattle.std.specs.Map.{lookup};
ghost use Rattle.crate_items.specs.DeclaredVariants.{variants_from};
ghost use Rattle.crate_items.specs.Files.{text_of as text_in};
ghost use Rattle.crate_items.specs.Sources.{source_at};
ghost use Rattle.dm_base.specs.declared.ids.EnumVariantId.{EnumVariantId as Id};
ghost use Rattle.dm_collector.specs.Constructors as spec;
ghost use Rattle.dm_imports.specs.Declarations.{same_variant};

use crate_items::files::crate_data::CrateData;
use crate_items::files::crate_graph::CrateGraph;
use crate_items::files::file_table::FileTable;
use crate_items::items::declared_item::DeclaredItem;
use crate_items::items::declared_variant::{DeclaredVariant, declared_variants};
use crate_items::modules::CrateModules;
use crate_tables::crate_table::CrateTable;
use crate_tables::item_place::DefPlace;
use dm_base::fields_shape::FieldsShape;
use dm_base::ids::{Crate, EnumId, EnumVariantId};
use dm_base::item_ids::{AdtId, ModuleDefId};
use dm_base::visibility::Visibility;
use dm_maps::world::World;
use indexmap::IndexMap;
use item_tree::cfg::CfgOptions;
use item_tree::items::item_kind::ItemKind;
use std::alloc::{AllocError, Global};

/// Adds the constructor of a variant of an enum, if its crate alone sees it.
fn push_variant(
    found: &mut Vec<(EnumVariantId, Visibility)>,
    world: &World,
    krate: Crate,
    e: EnumId,
    variant: &DeclaredVariant,
) -> Result<(), AllocError>
    ensures { OnOk result
        (found.new.items ≡ found.old.items ++ spec.of_variant world.now krate e variant.now) }
{
    if !variant.is_non_exhaustive {
        return Ok(());
    }
    match world.variant_of(e, &variant.name) {
        None => Ok(()),
        Some((v, _shape)) => {
            found.push((v, Visibility::PubCrate(krate)))?;
            Ok(())
        }
    }
}

/// Adds those of the variants of an enum.
fn push_variants(
    found: &mut Vec<(EnumVariantId, Visibility)>,
    world: &World,
    krate: Crate,
    e: EnumId,
    variants: &[DeclaredVariant],
) -> Result<(), AllocError>
    ensures { OnOk result
        (found.new.items ≡ found.old.items ++ flat_map (spec.of_variant world.now krate e) variants.now) }
{
    for variant in variants {
        push_variant(found, world, krate, e, variant)?;
    }
    Ok(())
}

/// The variants that the item of a number in a file has.
fn variants_at(
    alloc: Global,
    options: &CfgOptions,
    list: &CrateModules,
    files: &FileTable,
    place: DefPlace,
) -> Result<Vec<DeclaredVariant>, AllocError>
    ensures { IfOk result (λ found. found.items ≡ variants_from options.now
        (text_in files.now place.file) (source_at list.now.sources place.file) place.item) }
{
    // Of the item only where it stands is looked at.
    let placed = DeclaredItem {
        module: 0,
        file: place.file,
        item: place.item,
        kind: ItemKind::Enum,
        name: None,
        visibility: None,
        shape: FieldsShape::Record,
    };
    declared_variants(alloc, options, list, files, &placed)
}

/// Adds those of a definition, if it is an enum.
fn push_place(
    found: &mut Vec<(EnumVariantId, Visibility)>,
    alloc: Global,
    world: &World,
    files: &FileTable,
    krate: Crate,
    options: &CfgOptions,
    list: &CrateModules,
    place: DefPlace,
) -> Result<(), AllocError>
    ensures { OnOk result (found.new.items
        ≡ found.old.items ++ spec.of_place world.now files.now krate options.now list.now place) }
{
    match place.def {
        ModuleDefId::AdtId(AdtId::EnumId(e)) => {
            let variants = variants_at(alloc, options, list, files, place)?;
            push_variants(found, world, krate, e, variants.as_slice())
        }
        _ => Ok(()),
    }
}

/// Adds those of some definitions.
fn push_places(
    found: &mut Vec<(EnumVariantId, Visibility)>,
    alloc: Global,
    world: &World,
    files: &FileTable,
    krate: Crate,
    options: &CfgOptions,
    list: &CrateModules,
    places: &[DefPlace],
) -> Result<(), AllocError>
    ensures { OnOk result (found.new.items ≡ found.old.items
        ++ flat_map (spec.of_place world.now files.now krate options.now list.now) places.now) }
{
    for place in places {
        push_place(found, alloc, world, files, krate, options, list, *place)?;
    }
    Ok(())
}

/// The definitions of the crate of a number.
fn places_at(tables: &[CrateTable], number: usize) -> &[DefPlace]
    ensures { result.now ≡ spec.places_in (slice_get tables.now number) }
{
    match tables.get(number) {
        None => &[],
        Some(table) => table.defs(),
    }
}

/// Adds those of the definitions of a crate.
fn push_listed(
    found: &mut Vec<(EnumVariantId, Visibility)>,
    alloc: Global,
    world: &World,
    files: &FileTable,
    krate: Crate,
    described: &CrateData,
    list: &CrateModules,
    places: &[DefPlace],
) -> Result<(), AllocError>
    ensures { OnOk result (found.new.items ≡ found.old.items
        ++ flat_map (spec.of_place world.now files.now krate described.now.cfg_options list.now) places.now) }
{
    let options = described.cfg_options();
    push_places(found, alloc, world, files, krate, options, list, places)
}

/// Adds those of the crate of a number.
fn push_crate(
    found: &mut Vec<(EnumVariantId, Visibility)>,
    alloc: Global,
    world: &World,
    files: &FileTable,
    lists: &[CrateModules],
    krate: Crate,
    described: &CrateData,
    places: &[DefPlace],
) -> Result<(), AllocError>
    ensures { OnOk result (found.new.items ≡ found.old.items ++ spec.of_crate world.now files.now krate
        described.now places.now (slice_get lists.now krate.0)) }
{
    match lists.get(krate.0 as usize) {
        None => Ok(()),
        Some(list) => push_listed(found, alloc, world, files, krate, described, list, places),
    }
}

/// Adds those of the crate of a number, by the tables of all crates.
fn push_tabled(
    found: &mut Vec<(EnumVariantId, Visibility)>,
    alloc: Global,
    world: &World,
    files: &FileTable,
    lists: &[CrateModules],
    tables: &[CrateTable],
    krate: Crate,
    described: &CrateData,
) -> Result<(), AllocError>
    ensures { OnOk result (found.new.items ≡ found.old.items ++ spec.of_crate world.now files.now krate
        described.now (spec.places_in (slice_get tables.now krate.0)) (slice_get lists.now krate.0)) }
{
    let places = places_at(tables, krate.0 as usize);
    push_crate(found, alloc, world, files, lists, krate, described, places)
}

/// The constructors of variants of the crates of a graph that their crate alone sees.
fn constructors(
    alloc: Global,
    world: &World,
    graph: &CrateGraph,
    files: &FileTable,
    lists: &[CrateModules],
    tables: &[CrateTable],
) -> Result<Vec<(EnumVariantId, Visibility)>, AllocError>
    ensures { IfOk result (λ found. found.items
        ≡ spec.constructors world.now files.now lists.now tables.now 0 graph.now) }
{
    let mut found = Vec::new(alloc);
    for (number, described) in graph.crates().iter().enumerate() {
        let krate = graph.crate_at(number);
        push_tabled(
            &mut found, alloc, world, files, lists, tables, krate, described,
        )?;
    }
    Ok(found)
}

/// Gives a constructor a visibility.
fn put(
    table: &mut IndexMap<EnumVariantId, Visibility>,
    v: EnumVariantId,
    vis: Visibility,
) -> Result<(), AllocError>
    ensures { OnOk result ((x : Id) → lookup (same_variant x) table.new.entries
        ≡ (if same_variant v x then Some vis else lookup (same_variant x) table.old.entries)) }
{
    table.insert(v, vis)?;
    Ok(())
}

/// A table of some constructors: of two of one variant the later counts.
fn table_of(
    alloc: Global,
    constructors: &[(EnumVariantId, Visibility)],
) -> Result<IndexMap<EnumVariantId, Visibility>, AllocError>
    ensures { IfOk result (λ table. (v : Id) → lookup (same_variant v) table.entries
        ≡ spec.constructor_vis constructors.now v) }
{
    let mut table = IndexMap::new(alloc);
    for constructor in constructors {
        put(&mut table, constructor.0, constructor.1)?;
    }
    Ok(table)
}

/// Who sees the constructors of variants of the crates of a graph, where their crate alone does.
///
/// Fails only where memory runs out.
pub(crate) fn constructor_visibilities(
    alloc: Global,
    world: &World,
    graph: &CrateGraph,
    files: &FileTable,
    lists: &[CrateModules],
    tables: &[CrateTable],
) -> Result<IndexMap<EnumVariantId, Visibility>, AllocError>
    ensures { IfOk result (λ table. (v : Id) → lookup (same_variant v) table.entries
        ≡ spec.constructor_vis (spec.constructors world.now files.now lists.now tables.now 0 graph.now) v) }
{
    let found = constructors(alloc, world, graph, files, lists, tables)?;
    let table = table_of(alloc, found.as_slice())?;
    Ok(table)
}
