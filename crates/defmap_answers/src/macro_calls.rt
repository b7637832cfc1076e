//! The macro calls among the items of a crate that lead nowhere.
use crate::crates::Crates;
use crate::hidden::Hidden;
use crate::macro_homes::MacroHome;
use crate::notes::Cause;
use crate::shown::outwards;
use crate_items::items::declared_item::DeclaredItem;
use crate_items::macros::macro_call::macro_call_path;
use dm_base::ids::ModuleId;
use dm_base::mod_path::{ModPath, PathKind};
use dm_base::name::Name;
use item_tree::items::item_kind::ItemKind;
use std::alloc::{AllocError, Global};

/// Where a macro call leads to.
#[derive(Drop)]
pub(crate) enum CallEnd {
    Found,
    /// To what may be there.
    Unknown(Cause),
    /// Nowhere.
    Nowhere(ModPath),
}

/// The name that a path is, if it is one name alone.
fn only_name(path: &ModPath) -> Option<&Name> {
    if !matches!(path.kind(), PathKind::Plain) || path.segments().len() != 1 {
        return None;
    }
    path.segments().first()
}

/// Whether a crate declares a macro under a name, wherever that is in scope.
fn is_declared(items: &[Vec<DeclaredItem>], krate: usize, name: &Name) -> bool {
    let Some(items) = items.get(krate) else {
        return false;
    };
    for item in items {
        let is_macro = matches!(item.kind, ItemKind::MacroRules | ItemKind::Macro2);
        if is_macro && item.name.as_ref() == Some(name) {
            return true;
        }
    }
    false
}

/// Whether a macro of a name is in textual scope in a module or in one around it.
fn is_textual<C: Crates>(crates: &C, around: &[ModuleId], name: &Name) -> bool {
    for m in around {
        if crates.textual_macro(*m, name).is_some() {
            return true;
        }
    }
    false
}

/// How many macros are called in a module and in those around it.
fn calls_around(homes: &[MacroHome], around: &[ModuleId]) -> usize {
    let mut count = 0usize;
    for home in homes {
        if around.contains(&home.module) {
            count = count.saturating_add(1);
        }
    }
    count
}

/// Where the call of a macro by its name alone leads to.
fn end_of_name<C: Crates>(
    alloc: Global,
    hidden: &Hidden<'_, C>,
    homes: &[MacroHome],
    call: MacroHome,
    path: ModPath,
) -> Result<CallEnd, AllocError> {
    let crates = hidden.crates();
    let around = outwards(alloc, crates, call.module)?;
    let Some(name) = only_name(&path) else {
        return Ok(CallEnd::Nowhere(path));
    };
    if is_textual(crates, around.as_slice(), name)
        || is_declared(crates.items(), call.krate, name)
    {
        return Ok(CallEnd::Found);
    }
    if !hidden.has_sysroot() {
        return Ok(CallEnd::Unknown(Cause::Standard));
    }
    if calls_around(homes, around.as_slice()) > 1 {
        return Ok(CallEnd::Unknown(Cause::Macro));
    }
    Ok(CallEnd::Nowhere(path))
}

/// The path of a macro call.
pub(crate) fn path_of<C: Crates>(
    alloc: Global,
    crates: &C,
    call: MacroHome,
) -> Result<Option<ModPath>, AllocError> {
    let Some(item) = item_of(crates.items(), call) else {
        return Ok(None);
    };
    match crates.lists().get(call.krate) {
        None => Ok(None),
        Some(list) => macro_call_path(alloc, list, crates.files(), item),
    }
}

/// The item that a macro call is.
pub(crate) fn item_of(items: &[Vec<DeclaredItem>], call: MacroHome) -> Option<&DeclaredItem> {
    items.get(call.krate)?.get(call.item)
}

/// Where a macro call leads to.
pub(crate) fn end_of<C: Crates>(
    alloc: Global,
    hidden: &Hidden<'_, C>,
    homes: &[MacroHome],
    call: MacroHome,
) -> Result<CallEnd, AllocError> {
    let crates = hidden.crates();
    let Some(path) = path_of(alloc, crates, call)? else {
        return Ok(CallEnd::Found);
    };
    if let Some(found) = crates.macro_meaning(call.module, &path) {
        if found.resolved_def.macros.is_some() {
            return Ok(CallEnd::Found);
        }
    }
    if only_name(&path).is_some() {
        return end_of_name(alloc, hidden, homes, call, path);
    }
    match hidden.cause_of(call.module, &path)? {
        Some(cause) => Ok(CallEnd::Unknown(cause)),
        None => Ok(CallEnd::Nowhere(path)),
    }
}
