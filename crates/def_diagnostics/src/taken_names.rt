//! The names that items take, each in a namespace of a module.
ghost use Rattle.std.specs.Prelude.{◌≡◌, ◌++◌, IfOk, OnOk, fold, map};
ghost use Rattle.std.specs.List.{find};
ghost use Rattle.std.specs.Option.{option_copied};
ghost use Rattle.def_diagnostics.specs.TakenNames as spec;

use crate::declared_mods::DeclaredMods;
use crate_items::files::file_table::FileTable;
use crate_items::items::declared_item::DeclaredItem;
use crate_items::macros::declared_macro::is_macro_exported;
use crate_items::macros::procedural_macro::{ProceduralMacro, procedural_macro};
use crate_items::modules::CrateModules;
use dm_base::fields_shape::FieldsShape;
use dm_base::name::Name;
use dm_base::per_ns::Namespace;
use indexmap::IndexSet;
use item_tree::items::item_kind::ItemKind;
use std::alloc::{AllocError, Global};

/// A name in a namespace of a module.
#[derive(PartialEq, Eq, Hash)]
pub(crate) struct TakenName {
    pub(crate) module: usize,
    pub(crate) namespace: Namespace,
    pub(crate) name: Name,
}

/// Hand-written `Drop`, to keep proofs small: dropping one is then a single call.
impl Drop for TakenName {
    fn drop(self) {
        let TakenName {
            module: _module,
            namespace: _namespace,
            name: _name,
        } = self;
    }
}

/// The namespaces of a struct.
fn of_struct(shape: FieldsShape) -> &'static [Namespace]
    ensures { result.now ≡ spec.of_struct shape }
{
    if shape.has_value_ns_ctor() {
        &[Namespace::Types, Namespace::Values]
    } else {
        &[Namespace::Types]
    }
}

/// In which namespaces of its module an item takes its name.
fn namespaces(kind: ItemKind, shape: FieldsShape) -> &'static [Namespace]
    ensures { result.now ≡ spec.namespaces kind shape }
{
    match kind {
        ItemKind::Struct => of_struct(shape),
        ItemKind::Union | ItemKind::Enum | ItemKind::Trait => &[Namespace::Types],
        ItemKind::TypeAlias | ItemKind::Mod | ItemKind::ExternCrate => &[Namespace::Types],
        ItemKind::Function | ItemKind::Const | ItemKind::Static => &[Namespace::Values],
        ItemKind::Macro2 => &[Namespace::Macros],
        _ => &[],
    }
}

/// A name in these namespaces of a module.
fn names_in(
    alloc: Global,
    home: usize,
    namespaces: &[Namespace],
    name: &Name,
) -> Result<Vec<TakenName>, AllocError>
    ensures { IfOk result (λ names. names.items ≡ map (spec.taken_in home name.now) namespaces.now) }
{
    let mut names = Vec::new(alloc);
    for namespace in namespaces {
        names.push(TakenName {
            module: home,
            namespace: *namespace,
            name: name.copy(alloc)?,
        })?;
    }
    Ok(names)
}

/// Whether an item takes a name: all do but a `mod` item that `cfg` takes away, and a macro that is not exported.
fn takes_name(
    alloc: Global,
    list: &CrateModules,
    mods: &DeclaredMods,
    item: &DeclaredItem,
) -> Result<bool, AllocError>
    ensures { IfOk result (λ takes. takes ≡ spec.takes_name list.now mods.now item.now item.now.kind) }
{
    match item.kind {
        ItemKind::Mod => Ok(mods.has(item)),
        ItemKind::MacroRules => is_macro_exported(alloc, list, item),
        _ => Ok(true),
    }
}

/// The names that an item takes by its kind.
fn names_by_kind(
    alloc: Global,
    item: &DeclaredItem,
    name: &Name,
) -> Result<Vec<TakenName>, AllocError>
    ensures { IfOk result (λ names. names.items ≡ spec.names_by_kind item.now item.now.kind name.now) }
{
    match item.kind {
        ItemKind::MacroRules => names_in(alloc, 0, &[Namespace::Macros], name),
        _ => names_in(alloc, item.module, namespaces(item.kind, item.shape), name),
    }
}

/// The names that an item takes by its own name.
fn own_names(
    alloc: Global,
    list: &CrateModules,
    mods: &DeclaredMods,
    item: &DeclaredItem,
) -> Result<Vec<TakenName>, AllocError>
    ensures { IfOk result (λ names. names.items ≡
        spec.names_if (spec.takes_name list.now mods.now item.now item.now.kind) item.now item.now.name) }
{
    let takes = takes_name(alloc, list, mods, item)?;
    match (takes, item.name.as_ref()) {
        (true, Some(name)) => names_by_kind(alloc, item, name),
        _ => Ok(Vec::new(alloc)),
    }
}

/// Adds the name that a procedural macro takes in a module, if there is one.
fn push_macro(
    names: &mut Vec<TakenName>,
    home: usize,
    made: Option<ProceduralMacro>,
) -> Result<(), AllocError>
    ensures { OnOk result (names.new.items ≡ names.old.items ++ spec.name_of_macro home made) }
{
    match made {
        None => Ok(()),
        Some(made) => {
            names.push(TakenName {
                module: home,
                namespace: Namespace::Macros,
                name: made.name,
            })?;
            Ok(())
        }
    }
}

/// The names that an item takes.
pub(crate) fn names_of(
    alloc: Global,
    list: &CrateModules,
    files: &FileTable,
    mods: &DeclaredMods,
    item: &DeclaredItem,
) -> Result<Vec<TakenName>, AllocError>
    ensures { IfOk result (λ names. names.items ≡
        spec.names_of list.now files.now mods.now item.now) }
{
    let mut names = own_names(alloc, list, mods, item)?;
    let made = procedural_macro(alloc, list, files, item)?;
    push_macro(&mut names, item.module, made)?;
    Ok(names)
}

fn is_taken(taken: &IndexSet<TakenName>, name: &TakenName) -> bool
    ensures { result ≡ spec.is_taken taken.now.keys name.now }
{
    taken.contains(name)
}

/// The first of some names that is taken.
pub(crate) fn first_taken<'a>(
    taken: &IndexSet<TakenName>,
    names: &'a [TakenName],
) -> Option<&'a TakenName>
    ensures { option_copied result ≡ find (spec.is_taken taken.now.keys) names.now }
{
    names.iter().find(|name| is_taken(taken, name))
}

/// Takes a name.
fn take(taken: &mut IndexSet<TakenName>, name: TakenName) -> Result<(), AllocError>
    ensures { OnOk result (taken.new.keys ≡ spec.with_name taken.old.keys name) }
{
    taken.insert(name)?;
    Ok(())
}

/// Takes some names.
pub(crate) fn take_all(
    taken: &mut IndexSet<TakenName>,
    names: Vec<TakenName>,
) -> Result<(), AllocError>
    ensures { OnOk result (taken.new.keys ≡ fold spec.with_name taken.old.keys names.items) }
{
    for name in names {
        take(taken, name)?;
    }
    Ok(())
}
