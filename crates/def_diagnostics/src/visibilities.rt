//! Visibilities that lead nowhere.
ghost use Rattle.std.specs.Prelude.{◌≡◌, ◌++◌, IfOk, OnOk};
ghost use Rattle.std.specs.List.{flat_map};
ghost use Rattle.def_diagnostics.specs.Visibilities as spec;

use crate::diagnostic::{Diagnostic, DiagnosticKind, Place};
use crate_items::items::declared_item::DeclaredItem;
use std::alloc::{AllocError, Global};

/// Adds what is told of the visibility of an item, if that leads nowhere.
fn push_unresolved(found: &mut Vec<Diagnostic>, item: &DeclaredItem) -> Result<(), AllocError>
    ensures { OnOk result (found.new.items ≡ found.old.items ++ spec.unresolved_visibility item.now) }
{
    if item.visibility.is_none() {
        found.push(Diagnostic {
            file: item.file,
            place: Place::Item(item.item),
            kind: DiagnosticKind::UnresolvedVisibility,
        })?;
    }
    Ok(())
}

/// What is told of those of some items whose visibility leads to no module around, in their order.
///
/// # Errors
///
/// Fails only where memory runs out.
pub fn unresolved_visibilities(
    alloc: Global,
    items: &[DeclaredItem],
) -> Result<Vec<Diagnostic>, AllocError>
    ensures { IfOk result (λ found. found.items ≡ flat_map spec.unresolved_visibility items.now) }
{
    let mut found = Vec::new(alloc);
    for item in items {
        push_unresolved(&mut found, item)?;
    }
    Ok(found)
}
