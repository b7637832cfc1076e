//! Behind which items the modules of a crate leave their textual macros.
ghost use Rattle.std.specs.Prelude.{◌≡◌, IfOk, slice_get};
ghost use Rattle.std.specs.List.{list_any};
ghost use Rattle.crate_items.specs.TextualScopes as spec;

use crate::items::declared_item::DeclaredItem;
use crate::items::item_attributes::{body_attributes_at, file_attributes, item_attributes};
use crate::macros::textual_order::{TextualItem, declaring, textual_items};
use crate::modules::CrateModules;
use crate::modules::declared_module::DeclaredModule;
use item_tree::attributes::attribute_kind::AttributeKind;
use std::alloc::{AllocError, Global};

fn is_macro_use(kind: AttributeKind) -> bool
    ensures { result ≡ spec.is_macro_use kind }
{
    match kind {
        AttributeKind::MacroUse => true,
        AttributeKind::MacroUseOf(_range) => true,
        _ => false,
    }
}

fn any_macro_use(kinds: &[AttributeKind]) -> bool
    ensures { result ≡ list_any spec.is_macro_use kinds.now }
{
    kinds.iter().any(|kind| is_macro_use(*kind))
}

/// Whether an active `macro_use` stands before the item of a number.
fn is_under_at(
    alloc: Global,
    list: &CrateModules,
    items: &[DeclaredItem],
    number: usize,
) -> Result<bool, AllocError>
    ensures { IfOk result (λ under. under ≡ spec.leaves_by list.now (slice_get items.now number)) }
{
    match items.get(number) {
        None => Ok(false),
        Some(item) => {
            let kinds = item_attributes(alloc, list, item)?;
            Ok(any_macro_use(kinds.as_slice()))
        }
    }
}

/// Whether a module begins with an active `macro_use`, in its file or in its braces.
fn begins_so(
    alloc: Global,
    list: &CrateModules,
    declared: &DeclaredModule,
) -> Result<bool, AllocError>
    ensures { IfOk result (λ begins. begins ≡
        spec.begins_so list.now declared.now.file declared.now.item) }
{
    let kinds = match declared.item() {
        Some(item) => body_attributes_at(alloc, list, declared.file(), item)?,
        None => file_attributes(alloc, list, declared.file())?,
    };
    Ok(any_macro_use(kinds.as_slice()))
}

/// Whether a module leaves its macros, which the item of a number declares.
fn leaves(
    alloc: Global,
    list: &CrateModules,
    items: &[DeclaredItem],
    declared: &DeclaredModule,
    number: usize,
) -> Result<bool, AllocError>
    ensures { IfOk result (λ leave. leave ≡ spec.leaves list.now items.now declared.now number) }
{
    let under = is_under_at(alloc, list, items, number)?;
    let begins = begins_so(alloc, list, declared)?;
    Ok(under || begins)
}

/// The number of the item that declares a module.
fn declared_at(textual: &[TextualItem], declared: &DeclaredModule) -> Option<usize>
    ensures { result ≡ spec.declared_at textual.now declared.now.declaration }
{
    match declared.declaration() {
        None => None,
        Some(declaration) => declaring(textual, declaration),
    }
}

/// The item behind which a module leaves its macros, if it does.
fn left_behind(
    alloc: Global,
    list: &CrateModules,
    items: &[DeclaredItem],
    textual: &[TextualItem],
    declared: &DeclaredModule,
) -> Result<Option<usize>, AllocError>
    ensures { IfOk result (λ left. left ≡ spec.left_behind list.now items.now textual.now declared.now) }
{
    match declared_at(textual, declared) {
        None => Ok(None),
        Some(number) => {
            if leaves(alloc, list, items, declared, number)? {
                Ok(Some(number))
            } else {
                Ok(None)
            }
        }
    }
}

/// For each module of a crate's list the item behind which it leaves its macros, if it does.
pub(crate) fn all_left(
    alloc: Global,
    list: &CrateModules,
    items: &[DeclaredItem],
) -> Result<Vec<Option<usize>>, AllocError>
    ensures { IfOk result (λ left. left.items ≡ spec.all_left list.now items.now) }
{
    let known = textual_items(alloc, items)?;
    let textual = known.as_slice();
    let mut left = Vec::new(alloc);
    for declared in list.modules() {
        let one = left_behind(alloc, list, items, textual, declared)?;
        left.push(one)?;
    }
    Ok(left)
}
