//! The uses of a crate, added to a builder, with their leaves.
ghost use Rattle.std.specs.Prelude.{◌≡◌, true, All, IfErr, IfOk, IsTrue, OnOk, map};
ghost use Rattle.crate_items.specs.DeclaredImports.{declared_imports};
ghost use Rattle.crate_tables.specs.CrateTables.{IsMacroOf, IsTableOf};
ghost use Rattle.crate_tables.specs.CrateUses as spec;
ghost use Rattle.dm_base.specs.declared.ids.Crate.{Crate};
ghost use Rattle.dm_maps.specs.Added.{IsGrown};
ghost use Rattle.dm_maps.specs.Holding.{vis_holds};
ghost use Rattle.dm_maps.specs.Known.{knows, KnowsAll};
ghost use Rattle.dm_maps.specs.declared.check.held.HeldId.TheVariants as held;
ghost use Rattle.crate_tables.specs.Numbers.{has_too_many, is_shortage};

use crate::crate_defs::item_visibility;
use crate::crate_maps::parent_id;
use crate::crate_table::CrateTable;
use crate::item_place::UsePlace;
use crate::new_module::CrateView;
use crate::textual_macros::macro_at;
use crate::use_leaf::UseLeaf;
use crate_items::items::declared_import::{DeclaredImport, declared_imports};
use crate_items::items::declared_item::DeclaredItem;
use crate_items::macros::textual_scopes::TextualScope;
use dm_base::ids::{ModuleId, UseId};
use dm_base::item_ids::MacroId;
use dm_base::mod_path::PathKind;
use dm_base::name::Name;
use dm_base::visibility::Visibility;
use dm_maps::build_fault::BuildFault;
use dm_maps::builder::WorldBuilder;
use item_tree::items::imports::ImportKind;
use item_tree::items::item_kind::ItemKind;
use std::alloc::{AllocError, Global};
use std::marker::Model;

/// The items of a crate, the macro that each is, if it is one, and the textual scopes of its modules.
#[derive(Drop)]
pub struct TextualView<'a> {
    pub items: &'a [DeclaredItem],
    pub macros: &'a [Option<MacroId>],
    pub scopes: &'a [TextualScope],
}

impl<'a> Model for TextualView<'a> {
    ghost use Rattle.crate_tables.specs.CrateUses.{Textual};

    ghost Value = { Textual };

    ghost view = { λ v. record {
      items = v.items.now;
      macros = v.macros.now;
      scopes = v.scopes.now;
    } };
}

fn is_single(kind: ImportKind) -> bool
    ensures { result ≡ spec.is_single kind }
{
    matches!(kind, ImportKind::Plain)
}

fn is_plain(kind: PathKind) -> bool
    ensures { result ≡ spec.is_plain kind }
{
    matches!(kind, PathKind::Plain)
}

/// The macro that a name means in textual scope at an item of a module.
fn macro_named(
    textual: &TextualView<'_>,
    home: usize,
    number: usize,
    name: &Name,
) -> Option<MacroId>
    ensures { result ≡ spec.macro_named textual.now home number name.now }
{
    let scope = textual.scopes.get(home)?;
    let found = scope.macro_before(textual.items, number, name)?;
    macro_at(textual.macros, found)
}

/// The textual macro that a leaf of a use means.
fn textual_of(
    textual: &TextualView<'_>,
    home: usize,
    number: usize,
    import: &DeclaredImport,
) -> Option<MacroId>
    ensures { result ≡ spec.textual_of textual.now home number import.now }
{
    let (name, rest) = import.path.segments().split_first()?;
    if is_single(import.kind) && is_plain(import.path.kind()) && rest.is_empty() {
        macro_named(textual, home, number, name)
    } else {
        None
    }
}

/// The leaves of a use.
fn leaves_of(
    alloc: Global,
    textual: &TextualView<'_>,
    number: usize,
    item: &DeclaredItem,
    home: ModuleId,
    visibility: Visibility,
    use_: UseId,
    imports: Vec<DeclaredImport>,
) -> Result<Vec<UseLeaf>, AllocError>
    ensures { IfOk result (λ leaves. leaves.items ≡
        map (spec.leaf_in textual.now number item.now home visibility use_) imports.items) }
{
    let mut leaves = Vec::new(alloc);
    for import in imports {
        leaves.push(UseLeaf {
            home,
            visibility,
            use_,
            textual: textual_of(textual, item.module, number, &import),
            import,
        })?;
    }
    Ok(leaves)
}

/// Adds a use of a module, with its leaves.
fn add_use(
    builder: &mut WorldBuilder,
    table: &mut CrateTable,
    alloc: Global,
    textual: &TextualView<'_>,
    number: usize,
    item: &DeclaredItem,
    m: ModuleId,
    visibility: Visibility,
    imports: Vec<DeclaredImport>,
) -> Result<(), BuildFault>
    requires home { IsTrue (knows builder.old (held.Module m)) }
    requires macros { All (IsMacroOf builder.old) textual.now.macros }
    ensures world { OnOk result (builder.new ≡ (spec.used textual.now (record { world = builder.old; table = table.old })
        number item.now m visibility imports.items).world) }
    ensures table { OnOk result (table.new ≡ (spec.used textual.now (record { world = builder.old; table = table.old })
        number item.now m visibility imports.items).table) }
    ensures kept { (k : Crate) → IsTableOf builder.old k table.old → KnowsAll builder.old (vis_holds visibility)
        → OnOk result (IsTableOf builder.new k table.new) }
    ensures grown { IsGrown builder.old builder.new }
    ensures fault { IfErr result
        (λ fault. is_shortage (has_too_many (spec.used textual.now
        (record { world = builder.old; table = table.old }) number item.now m visibility imports.items).world)
        fault ≡ true) }
{
    let use_ = builder.add_use(m)?;
    let leaves = leaves_of(alloc, textual, number, item, m, visibility, use_, imports)?;
    table.push_leaves(leaves)?;
    table.push_use(UsePlace {
        use_,
        file: item.file,
        item: item.item,
    })?;
    Ok(())
}

/// Adds a use, unless its module was left out.
fn add_in(
    builder: &mut WorldBuilder,
    table: &mut CrateTable,
    alloc: Global,
    view: &CrateView<'_>,
    textual: &TextualView<'_>,
    number: usize,
    item: &DeclaredItem,
) -> Result<(), BuildFault>
    requires table { IsTableOf builder.old view.now.krate table.old }
    requires macros { All (IsMacroOf builder.old) textual.now.macros }
    ensures added { OnOk result ((record { world = builder.new; table = table.new }) ≡
        spec.used_in view.now textual.now (record { world = builder.old; table = table.old }) number item.now) }
    ensures kept { OnOk result (IsTableOf builder.new view.now.krate table.new) }
    ensures grown { IsGrown builder.old builder.new }
    ensures fault { IfErr result
        (λ fault. is_shortage (has_too_many (spec.used_in view.now textual.now
        (record { world = builder.old; table = table.old }) number item.now).world) fault ≡ true) }
{
    match parent_id(builder, view.krate, table, item.module) {
        None => Ok(()),
        Some(m) => {
            let visibility = item_visibility(builder, table, view, item, m);
            let imports = declared_imports(alloc, view.list, view.files, item)?;
            add_use(
                builder, table, alloc, textual, number, item, m, visibility, imports,
            )
        }
    }
}

fn is_use(kind: ItemKind) -> bool
    ensures { result ≡ spec.is_use kind }
{
    matches!(kind, ItemKind::Use)
}

/// Adds an item, if it is a use.
fn add_one(
    builder: &mut WorldBuilder,
    table: &mut CrateTable,
    alloc: Global,
    view: &CrateView<'_>,
    textual: &TextualView<'_>,
    number: usize,
    item: &DeclaredItem,
) -> Result<(), BuildFault>
    requires table { IsTableOf builder.old view.now.krate table.old }
    requires macros { All (IsMacroOf builder.old) textual.now.macros }
    ensures added { OnOk result ((record { world = builder.new; table = table.new }) ≡
        spec.with_use_item view.now textual.now (record { world = builder.old; table = table.old }) number item.now) }
    ensures kept { OnOk result (IsTableOf builder.new view.now.krate table.new) }
    ensures grown { IsGrown builder.old builder.new }
    ensures fault { IfErr result
        (λ fault. is_shortage (has_too_many (spec.with_use_item view.now textual.now
        (record { world = builder.old; table = table.old }) number item.now).world) fault ≡ true) }
{
    if is_use(item.kind) {
        add_in(builder, table, alloc, view, textual, number, item)
    } else {
        Ok(())
    }
}

/// Adds the uses among some items, the first of which has the number 0.
fn add_all(
    builder: &mut WorldBuilder,
    table: &mut CrateTable,
    alloc: Global,
    view: &CrateView<'_>,
    textual: &TextualView<'_>,
    items: &[DeclaredItem],
) -> Result<(), BuildFault>
    requires table { IsTableOf builder.old view.now.krate table.old }
    requires macros { All (IsMacroOf builder.old) textual.now.macros }
    ensures added { OnOk result ((record { world = builder.new; table = table.new }) ≡
        spec.with_uses_from view.now textual.now (record { world = builder.old; table = table.old }) 0 items.now) }
    ensures kept { OnOk result (IsTableOf builder.new view.now.krate table.new) }
    ensures grown { IsGrown builder.old builder.new }
    ensures fault { IfErr result
        (λ fault. is_shortage (has_too_many (spec.with_uses_from view.now textual.now
        (record { world = builder.old; table = table.old }) 0 items.now).world) fault ≡ true) }
{
    for (number, item) in items.iter().enumerate() {
        add_one(builder, table, alloc, view, textual, number, item)?;
    }
    Ok(())
}

/// Adds the uses among the items of a crate, as `declared_items` gives them, each in its module, with its leaves. A leaf by
/// one name gets the macro by `macro_rules!` that the name means in textual scope before the use. For the items
/// `add_macros` told which macro each is. What stands in a module that was left out is left out.
///
/// # Errors
///
/// Fails where memory or numbers run out: `OutOfNumbers` where there are 4,294,967,295 uses. What was added before stays.
pub fn add_uses(
    builder: &mut WorldBuilder,
    table: &mut CrateTable,
    alloc: Global,
    view: &CrateView<'_>,
    textual: &TextualView<'_>,
) -> Result<(), BuildFault>
    requires table { IsTableOf builder.old view.now.krate table.old }
    requires macros { All (IsMacroOf builder.old) textual.now.macros }
    ensures added { OnOk result ((record { world = builder.new; table = table.new }) ≡
        spec.with_uses view.now textual.now (record { world = builder.old; table = table.old })) }
    ensures kept { OnOk result (IsTableOf builder.new view.now.krate table.new) }
    ensures grown { IsGrown builder.old builder.new }
    ensures fault { IfErr result
        (λ fault. is_shortage (has_too_many (spec.with_uses view.now textual.now
        (record { world = builder.old; table = table.old })).world) fault ≡ true) }
{
    add_all(builder, table, alloc, view, textual, textual.items)
}
