//! The macro calls among the items of a crate, and the macros that they call.
ghost use Rattle.std.specs.Prelude.{◌≡◌, ◌++◌, IfOk, OnOk, map};
ghost use Rattle.std.specs.List.{flat_map};
ghost use Rattle.def_diagnostics.specs.MacroCalls as spec;

use crate::diagnostic::{Diagnostic, DiagnosticKind, Place};
use crate::macro_meaning::{called_macro, knows_module, knows_path};
use crate_items::files::file_table::FileTable;
use crate_items::items::declared_item::DeclaredItem;
use crate_items::macros::macro_call::macro_call_path;
use crate_items::modules::CrateModules;
use dm_base::ids::{FileId, ModuleId};
use dm_base::item_ids::MacroId;
use dm_base::mod_path::ModPath;
use dm_base::name::Name;
use dm_maps::world::World;
use std::alloc::{AllocError, Global};

/// A macro call among the items of a module.
pub struct MacroCall {
    /// The module that it stands in.
    pub home: ModuleId,
    /// The file of that module, and the number of the item in its tree.
    pub file: FileId,
    pub item: usize,
    pub path: ModPath,
    /// The macro that it calls; none where its path leads nowhere.
    pub called: Option<MacroId>,
}

/// Hand-written `Drop`, to keep proofs small: dropping one is then a single call.
impl Drop for MacroCall {
    fn drop(self) {
        let MacroCall {
            home: _home,
            file: _file,
            item: _item,
            path: _path,
            called: _called,
        } = self;
    }
}

/// The id of the module of a number in a crate's list, unless it was left out.
pub(crate) fn id_at(ids: &[Option<ModuleId>], number: usize) -> Option<ModuleId>
    ensures { result ≡ spec.id_at ids.now number }
{
    match ids.get(number) {
        None => None,
        Some(id) => *id,
    }
}

/// The macro that a call calls, if the world has what it names.
fn called_if_known(world: &World, m: ModuleId, path: &ModPath) -> Option<MacroId>
    ensures { result ≡ spec.called_if_known world.now m path.now }
{
    if knows_module(world, m) && knows_path(world, path) {
        called_macro(world, m, path)
    } else {
        None
    }
}

/// Adds an item as a call, if it stands in a module of the world and calls a path.
fn push_call(
    calls: &mut Vec<MacroCall>,
    world: &World,
    item: &DeclaredItem,
    home: Option<ModuleId>,
    path: Option<ModPath>,
) -> Result<(), AllocError>
    ensures { OnOk result (calls.new.items ≡ calls.old.items ++ spec.call_if world.now item.now home path) }
{
    match (home, path) {
        (Some(home), Some(path)) => {
            let called = called_if_known(world, home, &path);
            calls.push(MacroCall {
                home,
                file: item.file,
                item: item.item,
                path,
                called,
            })?;
            Ok(())
        }
        _ => Ok(()),
    }
}

/// The macro calls among some items of a crate, in their order, each with the macro that its path means in a world: a
/// textual one by what is in scope where its module ends. The ids are those of the modules of the crate's list.
///
/// # Errors
///
/// Fails only where memory runs out.
pub fn macro_calls(
    alloc: Global,
    world: &World,
    list: &CrateModules,
    files: &FileTable,
    ids: &[Option<ModuleId>],
    items: &[DeclaredItem],
) -> Result<Vec<MacroCall>, AllocError>
    ensures { IfOk result (λ calls. calls.items ≡
        flat_map (spec.call_of world.now list.now files.now ids.now) items.now) }
{
    let mut calls = Vec::new(alloc);
    for item in items {
        let path = macro_call_path(alloc, list, files, item)?;
        push_call(&mut calls, world, item, id_at(ids, item.module), path)?;
    }
    Ok(calls)
}

/// The modules in which some macro calls stand.
///
/// # Errors
///
/// Fails only where memory runs out.
pub fn homes(alloc: Global, calls: &[MacroCall]) -> Result<Vec<ModuleId>, AllocError>
    ensures { IfOk result (λ homes. homes.items ≡ map spec.home_of calls.now) }
{
    let mut homes = Vec::new(alloc);
    for call in calls {
        homes.push(call.home)?;
    }
    Ok(homes)
}

/// Adds the module of a call, if that calls a macro.
fn push_known(homes: &mut Vec<ModuleId>, call: &MacroCall) -> Result<(), AllocError>
    ensures { OnOk result (homes.new.items ≡ homes.old.items ++ spec.known_home call.now) }
{
    if call.called.is_some() {
        homes.push(call.home)?;
    }
    Ok(())
}

/// The modules in which those of some macro calls stand that call a macro.
///
/// # Errors
///
/// Fails only where memory runs out.
pub fn known_homes(alloc: Global, calls: &[MacroCall]) -> Result<Vec<ModuleId>, AllocError>
    ensures { IfOk result (λ homes. homes.items ≡ flat_map spec.known_home calls.now) }
{
    let mut homes = Vec::new(alloc);
    for call in calls {
        push_known(&mut homes, call)?;
    }
    Ok(homes)
}

/// Some names once more.
pub(crate) fn copied_names(alloc: Global, names: &[Name]) -> Result<Vec<Name>, AllocError>
    ensures { IfOk result (λ copies. copies.items ≡ names.now) }
{
    let mut copies = Vec::new(alloc);
    for name in names {
        let copy = name.copy(alloc)?;
        copies.push(copy)?;
    }
    Ok(copies)
}

/// A path once more.
pub(crate) fn copied_path(alloc: Global, path: &ModPath) -> Result<ModPath, AllocError>
    ensures { IfOk result (λ copy. copy ≡ path.now) }
{
    let names = copied_names(alloc, path.segments())?;
    Ok(ModPath::from_segments(path.kind(), names))
}

/// Adds what is told of a call, if it calls no macro.
fn push_unresolved(
    found: &mut Vec<Diagnostic>,
    alloc: Global,
    call: &MacroCall,
) -> Result<(), AllocError>
    ensures { OnOk result (found.new.items ≡ found.old.items ++ spec.unresolved_macro_call call.now) }
{
    if call.called.is_none() {
        let path = copied_path(alloc, &call.path)?;
        found.push(Diagnostic {
            file: call.file,
            place: Place::Item(call.item),
            kind: DiagnosticKind::UnresolvedMacroCall(path),
        })?;
    }
    Ok(())
}

/// What is told of those of some macro calls that call no macro, in their order.
///
/// # Errors
///
/// Fails only where memory runs out.
pub fn unresolved_macro_calls(
    alloc: Global,
    calls: &[MacroCall],
) -> Result<Vec<Diagnostic>, AllocError>
    ensures { IfOk result (λ found. found.items ≡ flat_map spec.unresolved_macro_call calls.now) }
{
    let mut found = Vec::new(alloc);
    for call in calls {
        push_unresolved(&mut found, alloc, call)?;
    }
    Ok(found)
}
