//! Associated items, added to a builder.
ghost use Rattle.std.specs.Prelude.{◌≡◌, ◌++◌, ◌∷◌, [], true, IfErr, IsTrue, OnOk, slice_get};
ghost use Rattle.crate_tables.specs.AssocItems as spec;
ghost use Rattle.crate_items.specs.Sources.{source_at};
ghost use Rattle.dm_maps.specs.declared.check.held.HeldId.TheVariants as held;
ghost use Rattle.dm_maps.specs.Added.{IsGrown};
ghost use Rattle.dm_maps.specs.BuildTables.{with_assoc_item};
ghost use Rattle.dm_maps.specs.Known.{knows};
ghost use Rattle.dm_maps.specs.declared.build_fault.BuildFault.TheVariants.{OutOfMemory};
ghost use Rattle.crate_tables.specs.Numbers.{has_too_many, is_shortage};

use crate::assoc_items::containers::Container;
use crate_items::files::file_table::FileTable;
use crate_items::files::source::Source;
use crate_items::items::module_items::ModuleItem;
use crate_items::items::raw_visibilities::item_visibility;
use crate_items::modules::CrateModules;
use dm_base::ids::FileId;
use dm_base::item_ids::{AssocItemId, ItemContainerId, ItemKind, ModuleDefId};
use dm_base::visibility::RawVisibility;
use dm_maps::build_fault::BuildFault;
use dm_maps::builder::WorldBuilder;
use dm_maps::check::held::HeldId;
use dm_maps::check::known_ids::KnownIds;
use dm_maps::laws::settings_keep_scopes;
use item_tree::items::item_kind;
use std::alloc::{AllocError, Global};

/// Where an associated item is written: its file, and the number of the item there.
#[derive(Clone, Copy, PartialEq, Eq, Debug)]
pub struct AssocPlace {
    pub id: AssocItemId,
    pub file: FileId,
    pub item: usize,
}

/// The kind of the items of a builder that an associated item is.
fn assoc_kind(kind: item_kind::ItemKind) -> Option<ItemKind>
    ensures { result ≡ spec.assoc_kind kind }
{
    match kind {
        item_kind::ItemKind::Function => Some(ItemKind::Function),
        item_kind::ItemKind::Const => Some(ItemKind::Const),
        item_kind::ItemKind::TypeAlias => Some(ItemKind::TypeAlias),
        _ => None,
    }
}

/// The same of the item of a number in a file.
fn kind_of(source: &Source, number: usize) -> Option<ItemKind>
    ensures { result ≡ spec.kind_of (slice_get source.now.items number) }
{
    match source.items().get(number) {
        None => None,
        Some(item) => assoc_kind(item.kind),
    }
}

fn kind_in(list: &CrateModules, file: FileId, number: usize) -> Option<ItemKind>
    ensures { result ≡ spec.kind_in (source_at list.now.sources file) number }
{
    match list.sources().get(file) {
        None => None,
        Some(source) => kind_of(source, number),
    }
}

/// The associated item that a definition is.
fn assoc_of(def: ModuleDefId) -> Option<AssocItemId>
    ensures { result ≡ spec.assoc_of def }
{
    match def {
        ModuleDefId::FunctionId(id) => Some(AssocItemId::FunctionId(id)),
        ModuleDefId::ConstId(id) => Some(AssocItemId::ConstId(id)),
        ModuleDefId::TypeAliasId(id) => Some(AssocItemId::TypeAliasId(id)),
        _ => None,
    }
}

/// Sets what an associated item stands in, and its visibility.
fn set_assoc(
    builder: &mut WorldBuilder,
    id: AssocItemId,
    container: ItemContainerId,
    visibility: RawVisibility,
) -> Result<(), BuildFault>
    ensures world { OnOk result (builder.new ≡ with_assoc_item builder.old id container visibility) }
    ensures grown { IsGrown builder.old builder.new }
    ensures fault { IfErr result (λ fault. fault ≡ OutOfMemory) }
{
    settings_keep_scopes();
    builder.set_assoc(id, container, visibility)?;
    Ok(())
}

fn push_place(places: &mut Vec<AssocPlace>, place: AssocPlace) -> Result<(), AllocError>
    ensures { OnOk result (places.new.items ≡ places.old.items ++ place ∷ []) }
{
    places.push(place)?;
    Ok(())
}

/// Sets this of the item of a row, if it is an associated one, and lists where it is written.
fn place(
    builder: &mut WorldBuilder,
    places: &mut Vec<AssocPlace>,
    container: Container,
    row: ModuleItem,
    visibility: RawVisibility,
    id: Option<AssocItemId>,
) -> Result<(), BuildFault>
    ensures added { OnOk result ((record { world = builder.new; places = places.new.items }) ≡
        spec.placed builder.old places.old.items container row visibility id) }
    ensures grown { IsGrown builder.old builder.new }
    ensures fault { IfErr result (λ fault. fault ≡ OutOfMemory) }
{
    match id {
        None => Ok(()),
        Some(id) => {
            set_assoc(builder, id, container.id, visibility)?;
            let place = AssocPlace {
                id,
                file: row.file,
                item: row.item,
            };
            push_place(places, place)?;
            Ok(())
        }
    }
}

/// Adds the item of a row to the module of its container.
fn add(
    builder: &mut WorldBuilder,
    places: &mut Vec<AssocPlace>,
    alloc: Global,
    list: &CrateModules,
    files: &FileTable,
    container: Container,
    row: ModuleItem,
    kind: ItemKind,
) -> Result<(), BuildFault>
    requires { IsTrue (knows builder.old (held.Module container.home)) }
    ensures added { OnOk result ((record { world = builder.new; places = places.new.items }) ≡
        spec.added files.now list.now (record { world = builder.old; places = places.old.items })
        container row kind) }
    ensures grown { IsGrown builder.old builder.new }
    ensures fault { IfErr result
        (λ fault. is_shortage (has_too_many (spec.added files.now list.now
        (record { world = builder.old; places = places.old.items }) container row kind).world) fault ≡ true) }
{
    let def = builder.add_item(kind, container.home)?;
    let visibility = item_visibility(alloc, list, files, row.file, row.item)?;
    place(builder, places, container, row, visibility, assoc_of(def))
}

/// Adds the item of a row to its container, if it is an associated one.
fn add_in(
    builder: &mut WorldBuilder,
    places: &mut Vec<AssocPlace>,
    alloc: Global,
    list: &CrateModules,
    files: &FileTable,
    container: Container,
    row: ModuleItem,
) -> Result<(), BuildFault>
    ensures added { OnOk result ((record { world = builder.new; places = places.new.items }) ≡
        spec.added_in files.now list.now (record { world = builder.old; places = places.old.items })
        container row (spec.kind_in (source_at list.now.sources row.file) row.item)) }
    ensures grown { IsGrown builder.old builder.new }
    ensures fault { IfErr result
        (λ fault. is_shortage (has_too_many (spec.added_in files.now list.now
        (record { world = builder.old; places = places.old.items }) container row (spec.kind_in
        (source_at list.now.sources row.file) row.item)).world) fault ≡ true) }
{
    match kind_in(list, row.file, row.item) {
        None => Ok(()),
        Some(kind) => {
            if builder.knows(HeldId::Module(container.home)) {
                add(builder, places, alloc, list, files, container, row, kind)
            } else {
                Ok(())
            }
        }
    }
}

/// The same of the container of the row's number, if there is one.
fn add_row(
    builder: &mut WorldBuilder,
    places: &mut Vec<AssocPlace>,
    alloc: Global,
    list: &CrateModules,
    files: &FileTable,
    containers: &[Container],
    row: ModuleItem,
) -> Result<(), BuildFault>
    ensures added { OnOk result ((record { world = builder.new; places = places.new.items }) ≡
        spec.with_row files.now list.now containers.now
        (record { world = builder.old; places = places.old.items }) row) }
    ensures grown { IsGrown builder.old builder.new }
    ensures fault { IfErr result
        (λ fault. is_shortage (has_too_many (spec.with_row files.now list.now containers.now
        (record { world = builder.old; places = places.old.items }) row).world) fault ≡ true) }
{
    match containers.get(row.module) {
        None => Ok(()),
        Some(container) => add_in(builder, places, alloc, list, files, *container, row),
    }
}

/// Adds the associated items among some rows, in order.
pub(crate) fn add_rows(
    builder: &mut WorldBuilder,
    places: &mut Vec<AssocPlace>,
    alloc: Global,
    list: &CrateModules,
    files: &FileTable,
    containers: &[Container],
    rows: &[ModuleItem],
) -> Result<(), BuildFault>
    ensures added { OnOk result ((record { world = builder.new; places = places.new.items }) ≡
        spec.with_rows files.now list.now containers.now
        (record { world = builder.old; places = places.old.items }) rows.now) }
    ensures grown { IsGrown builder.old builder.new }
    ensures fault { IfErr result
        (λ fault. is_shortage (has_too_many (spec.with_rows files.now list.now containers.now
        (record { world = builder.old; places = places.old.items }) rows.now).world) fault ≡ true) }
{
    for row in rows {
        add_row(builder, places, alloc, list, files, containers, *row)?;
    }
    Ok(())
}
