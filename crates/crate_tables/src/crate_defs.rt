//! The definitions of a crate, added to a builder, with their variants.
ghost use Rattle.std.specs.Prelude.{◌≡◌, ◌↔◌, true, IfErr, IfOk, IfSome, IsTrue, OnOk, length, slice_get};
ghost use Rattle.crate_items.specs.DeclaredVariants.{declared_variants};
ghost use Rattle.crate_tables.specs.CrateDefs as spec;
ghost use Rattle.crate_tables.specs.CrateTables.{IsTableOf};
ghost use Rattle.dm_maps.specs.Holding.{def_holds, vis_holds};
ghost use Rattle.dm_maps.specs.declared.check.held.HeldId.TheVariants as held;
ghost use Rattle.dm_base.specs.declared.ids.Crate.{Crate};
ghost use Rattle.dm_base.specs.declared.item_ids.ItemKind.TheVariants as kinds;
ghost use Rattle.dm_maps.specs.Added.{IsGrown};
ghost use Rattle.dm_maps.specs.Known.{knows, KnowsAll};
ghost use Rattle.dm_maps.specs.declared.build_fault.BuildFault.TheVariants.{TakenVariant};
ghost use Rattle.crate_tables.specs.Numbers.{has_too_many, is_shortage};

use crate::crate_maps::parent_id;
use crate::crate_table::CrateTable;
use crate::item_place::DefPlace;
use crate::new_module::CrateView;
use crate::raw_visibilities::set_fields;
use crate::visibilities::known_visibility;
use crate_items::files::source::Source;
use crate_items::items::constructor::constructor_visibility;
use crate_items::items::declared_item::DeclaredItem;
use crate_items::items::declared_variant::{DeclaredVariant, declared_variants};
use crate_items::modules::CrateModules;
use dm_base::fields_shape::FieldsShape;
use dm_base::ids::{EnumId, ModuleId};
use dm_base::item_ids::{AdtId, ItemKind, ModuleDefId, VariantId};
use dm_base::per_ns::PerNs;
use dm_base::visibility::Visibility;
use dm_maps::build_fault::BuildFault;
use dm_maps::builder::WorldBuilder;
use item_tree::items::visibility::{RawVisibility, raw_visibility};
use item_tree::items::{Range, item_kind};
use std::alloc::{AllocError, Global};

/// The visibility that is written before the item of a number.
fn written_in(source: &Source, number: usize) -> RawVisibility
    ensures { result ≡ spec.written_in source.now (slice_get source.now.items number) }
{
    match source.items().get(number) {
        None => RawVisibility::Inherited,
        Some(item) => {
            let range = Range {
                first: item.visibility,
                behind: item.qualifiers,
            };
            raw_visibility(source.lexemes(), range)
        }
    }
}

/// The visibility that is written before an item.
pub(crate) fn written_of(list: &CrateModules, item: &DeclaredItem) -> RawVisibility
    ensures { result ≡ spec.written_of list.now item.now }
{
    match list.sources().get(item.file) {
        None => RawVisibility::Inherited,
        Some(source) => written_in(source, item.item),
    }
}

/// The kind of the items that a builder numbers.
pub(crate) fn def_kind(kind: item_kind::ItemKind) -> Option<ItemKind>
    ensures { result ≡ spec.def_kind kind }
{
    match kind {
        item_kind::ItemKind::Function => Some(ItemKind::Function),
        item_kind::ItemKind::Struct => Some(ItemKind::Struct),
        item_kind::ItemKind::Union => Some(ItemKind::Union),
        item_kind::ItemKind::Enum => Some(ItemKind::Enum),
        item_kind::ItemKind::Const => Some(ItemKind::Const),
        item_kind::ItemKind::Static => Some(ItemKind::Static),
        item_kind::ItemKind::Trait => Some(ItemKind::Trait),
        item_kind::ItemKind::TypeAlias => Some(ItemKind::TypeAlias),
        _ => None,
    }
}

/// Whether a name is taken.
fn is_taken(fault: BuildFault) -> bool
    ensures { IsTrue result ↔ (fault ≡ TakenVariant) }
{
    match fault {
        BuildFault::TakenVariant => true,
        _ => false,
    }
}

/// Adds a variant to an enum, with the visibilities of its fields, unless that has one of its name.
fn add_variant(
    builder: &mut WorldBuilder,
    e: EnumId,
    variant: DeclaredVariant,
) -> Result<(), BuildFault>
    requires { IsTrue (knows builder.old (held.Item kinds.Enum e.0)) }
    ensures world { OnOk result (builder.new ≡ spec.with_variant_of builder.old e variant) }
    ensures kept { IsTrue (knows builder.new (held.Item kinds.Enum e.0)) }
    ensures grown { IsGrown builder.old builder.new }
    ensures fault { IfErr result
        (λ fault. is_shortage (has_too_many (spec.with_variant_of builder.old e variant)) fault ≡ true) }
{
    match builder.add_variant(e, variant.name, variant.shape) {
        Ok(id) => {
            set_fields(
                builder,
                VariantId::EnumVariantId(id),
                variant.fields.into_vec(),
            )?;
            Ok(())
        }
        Err(fault) => { if is_taken(fault) { Ok(()) } else { Err(fault) } }
    }
}

/// Adds the variants of an enum.
fn add_variants(
    builder: &mut WorldBuilder,
    e: EnumId,
    variants: Vec<DeclaredVariant>,
) -> Result<(), BuildFault>
    requires { IsTrue (knows builder.old (held.Item kinds.Enum e.0)) }
    ensures world { OnOk result (builder.new ≡ spec.with_variants builder.old e variants.items) }
    ensures grown { IsGrown builder.old builder.new }
    ensures fault { IfErr result
        (λ fault. is_shortage (has_too_many (spec.with_variants builder.old e variants.items)) fault ≡ true) }
{
    for variant in variants {
        add_variant(builder, e, variant)?;
    }
    Ok(())
}

/// Adds the variants of a definition, if it is an enum.
fn add_variants_of(
    builder: &mut WorldBuilder,
    def: ModuleDefId,
    variants: Vec<DeclaredVariant>,
) -> Result<(), BuildFault>
    requires { KnowsAll builder.old (def_holds def) }
    ensures world { OnOk result (builder.new ≡ spec.with_variants_of builder.old def variants.items) }
    ensures grown { IsGrown builder.old builder.new }
    ensures fault { IfErr result
        (λ fault. is_shortage (has_too_many (spec.with_variants_of builder.old def variants.items))
        fault ≡ true) }
{
    match def {
        ModuleDefId::AdtId(AdtId::EnumId(e)) => add_variants(builder, e, variants),
        _ => Ok(()),
    }
}

/// Who sees a definition, and its constructor if it has one.
#[derive(Clone, Copy)]
struct SeenBy {
    definition: Visibility,
    constructor: Visibility,
}

/// Who sees the constructor of a struct, if it has one.
fn constructor_vis(shape: FieldsShape, visibility: Visibility) -> Option<Visibility>
    ensures { result ≡ spec.constructor_vis shape visibility }
{
    if shape.has_value_ns_ctor() {
        Some(visibility)
    } else {
        None
    }
}

/// Adds a definition in a module, with its variants, and declares it there.
fn define(
    builder: &mut WorldBuilder,
    table: &mut CrateTable,
    item: DeclaredItem,
    m: ModuleId,
    seen: SeenBy,
    kind: ItemKind,
    variants: Vec<DeclaredVariant>,
) -> Result<(), BuildFault>
    requires { IsTrue (knows builder.old (held.Module m)) }
    ensures world { OnOk result (builder.new ≡ (spec.defined
        (record { world = builder.old; table = table.old }) item m seen.definition seen.constructor kind
        variants.items).world) }
    ensures table { OnOk result (table.new ≡ (spec.defined
        (record { world = builder.old; table = table.old }) item m seen.definition seen.constructor kind
        variants.items).table) }
    ensures kept { (k : Crate) → IsTableOf builder.old k table.old → KnowsAll builder.old (vis_holds seen.definition)
        → KnowsAll builder.old (vis_holds seen.constructor) → OnOk result (IsTableOf builder.new k table.new) }
    ensures grown { IsGrown builder.old builder.new }
    ensures fault { IfErr result
        (λ fault. is_shortage (has_too_many (spec.defined
        (record { world = builder.old; table = table.old }) item m seen.definition seen.constructor kind variants.items).world)
        fault ≡ true) }
{
    let def = builder.add_item(kind, m)?;
    add_variants_of(builder, def, variants)?;
    let constructor = constructor_vis(item.shape, seen.constructor);
    let place = DefPlace {
        def,
        home: m,
        file: item.file,
        item: item.item,
    };
    let items = PerNs::from_def(def, seen.definition, constructor, None);
    table.push_named(m, item.name, items)?;
    table.push_def(place)?;
    Ok(())
}

/// Adds a definition in a module, if it is one that a builder numbers.
fn define_if(
    builder: &mut WorldBuilder,
    table: &mut CrateTable,
    alloc: Global,
    view: &CrateView<'_>,
    item: DeclaredItem,
    m: ModuleId,
    seen: SeenBy,
) -> Result<(), BuildFault>
    requires { IsTrue (knows builder.old (held.Module m)) }
    ensures world { OnOk result (builder.new ≡ (spec.defined_if
        (record { world = builder.old; table = table.old }) item m seen.definition seen.constructor
        (spec.def_kind item.kind)
        (declared_variants view.now.options view.now.list view.now.files item)).world) }
    ensures table { OnOk result (table.new ≡ (spec.defined_if
        (record { world = builder.old; table = table.old }) item m seen.definition seen.constructor
        (spec.def_kind item.kind)
        (declared_variants view.now.options view.now.list view.now.files item)).table) }
    ensures kept { (k : Crate) → IsTableOf builder.old k table.old → KnowsAll builder.old (vis_holds seen.definition)
        → KnowsAll builder.old (vis_holds seen.constructor) → OnOk result (IsTableOf builder.new k table.new) }
    ensures grown { IsGrown builder.old builder.new }
    ensures fault { IfErr result
        (λ fault. is_shortage (has_too_many (spec.defined_if
        (record { world = builder.old; table = table.old }) item m seen.definition seen.constructor
        (spec.def_kind item.kind) (declared_variants view.now.options view.now.list view.now.files item)).world)
        fault ≡ true) }
{
    match def_kind(item.kind) {
        None => Ok(()),
        Some(kind) => {
            let variants = declared_variants(alloc, view.options, view.list, view.files, &item)?;
            define(builder, table, item, m, seen, kind, variants)
        }
    }
}

/// Whom an item of a module is shown to.
pub(crate) fn item_visibility(
    builder: &WorldBuilder,
    table: &CrateTable,
    view: &CrateView<'_>,
    item: &DeclaredItem,
    m: ModuleId,
) -> Visibility
    requires table { IsTableOf builder.now view.now.krate table.now }
    requires home { IsTrue (knows builder.now (held.Module m)) }
    ensures exact { result ≡ spec.visibility_in view.now table.now item.now m }
    ensures known { KnowsAll builder.now (vis_holds result) }
{
    let is_closed = view.is_macro_root(item.module);
    let written = written_of(view.list, item);
    known_visibility(
        builder,
        is_closed,
        view.krate,
        table,
        m,
        written,
        item.visibility,
    )
}

/// Whom the constructor of an item of a module is shown to, if it has one.
fn constructor_of(
    builder: &WorldBuilder,
    table: &CrateTable,
    alloc: Global,
    view: &CrateView<'_>,
    item: &DeclaredItem,
    m: ModuleId,
) -> Result<Visibility, AllocError>
    requires table { IsTableOf builder.now view.now.krate table.now }
    requires home { IsTrue (knows builder.now (held.Module m)) }
    ensures exact { IfOk result (λ seen. seen ≡ spec.constructor_in view.now table.now item.now m) }
    ensures known { IfOk result (λ seen. KnowsAll builder.now (vis_holds seen)) }
{
    let (options, edition) = (view.options, view.edition);
    let least = constructor_visibility(alloc, options, edition, view.list, view.files, item)?;
    let is_closed = view.is_macro_root(item.module);
    Ok(known_visibility(
        builder,
        is_closed,
        view.krate,
        table,
        m,
        least.written,
        least.shown,
    ))
}

/// Adds an item in its module, if it is a definition.
fn add_in(
    builder: &mut WorldBuilder,
    table: &mut CrateTable,
    alloc: Global,
    view: &CrateView<'_>,
    item: DeclaredItem,
    m: ModuleId,
) -> Result<(), BuildFault>
    requires table { IsTableOf builder.old view.now.krate table.old }
    requires home { IsTrue (knows builder.old (held.Module m)) }
    ensures filled { OnOk result ((record { world = builder.new; table = table.new }) ≡
        spec.added_in view.now (record { world = builder.old; table = table.old }) item m) }
    ensures kept { OnOk result (IsTableOf builder.new view.now.krate table.new) }
    ensures grown { IsGrown builder.old builder.new }
    ensures fault { IfErr result
        (λ fault. is_shortage (has_too_many (spec.added_in view.now
        (record { world = builder.old; table = table.old }) item m).world) fault ≡ true) }
{
    let definition = item_visibility(builder, table, view, &item, m);
    let constructor = constructor_of(builder, table, alloc, view, &item, m)?;
    let seen = SeenBy {
        definition,
        constructor,
    };
    define_if(builder, table, alloc, view, item, m, seen)
}

/// Adds an item of a crate, if it is a definition, and unless its module was left out.
fn add_item(
    builder: &mut WorldBuilder,
    table: &mut CrateTable,
    alloc: Global,
    view: &CrateView<'_>,
    item: DeclaredItem,
) -> Result<(), BuildFault>
    requires { IsTableOf builder.old view.now.krate table.old }
    ensures filled { OnOk result ((record { world = builder.new; table = table.new }) ≡
        spec.with_declared view.now (record { world = builder.old; table = table.old }) item) }
    ensures kept { OnOk result (IsTableOf builder.new view.now.krate table.new) }
    ensures grown { IsGrown builder.old builder.new }
    ensures fault { IfErr result
        (λ fault. is_shortage (has_too_many (spec.with_declared view.now
        (record { world = builder.old; table = table.old }) item).world) fault ≡ true) }
{
    match parent_id(builder, view.krate, table, item.module) {
        None => Ok(()),
        Some(m) => add_in(builder, table, alloc, view, item, m),
    }
}

/// Adds the definitions among the items of a crate, as `declared_items` gives them, each in its module: functions, structs,
/// unions, enums with their variants, constants, statics, traits and type aliases, which are declared there under their
/// names. What stands in a module that was left out is left out.
///
/// # Errors
///
/// Fails where memory or numbers run out: `OutOfNumbers` where there are 4,294,967,295 items or variants. What was added
/// before stays.
pub fn add_items(
    builder: &mut WorldBuilder,
    table: &mut CrateTable,
    alloc: Global,
    view: &CrateView<'_>,
    items: Vec<DeclaredItem>,
) -> Result<(), BuildFault>
    requires { IsTableOf builder.old view.now.krate table.old }
    ensures filled { OnOk result ((record { world = builder.new; table = table.new }) ≡
        spec.with_items view.now (record { world = builder.old; table = table.old }) items.items) }
    ensures kept { OnOk result (IsTableOf builder.new view.now.krate table.new) }
    ensures grown { IsGrown builder.old builder.new }
    ensures fault { IfErr result
        (λ fault. is_shortage (has_too_many (spec.with_items view.now
        (record { world = builder.old; table = table.old }) items.items).world) fault ≡ true) }
{
    for item in items {
        add_item(builder, table, alloc, view, item)?;
    }
    Ok(())
}
