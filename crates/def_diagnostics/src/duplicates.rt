//! Second declarations of names.
ghost use Rattle.std.specs.Prelude.{◌≡◌, ◌++◌, [], IfOk, OnOk};
ghost use Rattle.std.specs.Option.{option_copied};
ghost use Rattle.def_diagnostics.specs.Duplicates as spec;

use crate::declared_mods::DeclaredMods;
use crate::diagnostic::{Diagnostic, DiagnosticKind, Place};
use crate::taken_names::{TakenName, first_taken, names_of, take_all};
use crate_items::files::file_table::FileTable;
use crate_items::items::declared_item::DeclaredItem;
use crate_items::modules::CrateModules;
use indexmap::IndexSet;
use std::alloc::{AllocError, Global};

/// Adds what is told of an item that takes a name again, if it does.
fn push_duplicate(
    found: &mut Vec<Diagnostic>,
    alloc: Global,
    item: &DeclaredItem,
    taken: Option<&TakenName>,
) -> Result<(), AllocError>
    ensures { OnOk result (found.new.items ≡ found.old.items ++
        spec.duplicate item.now (option_copied taken.entry)) }
{
    match taken {
        None => Ok(()),
        Some(taken) => {
            let name = taken.name.copy(alloc)?;
            found.push(Diagnostic {
                file: item.file,
                place: Place::Item(item.item),
                kind: DiagnosticKind::DuplicateDefinition(name),
            })?;
            Ok(())
        }
    }
}

/// Looks at an item, and takes its names.
fn look_at(
    found: &mut Vec<Diagnostic>,
    taken: &mut IndexSet<TakenName>,
    alloc: Global,
    list: &CrateModules,
    files: &FileTable,
    mods: &DeclaredMods,
    item: &DeclaredItem,
) -> Result<(), AllocError>
    ensures found { OnOk result (found.new.items ≡ found.old.items ++
        spec.told list.now files.now mods.now taken.old.keys item.now) }
    ensures taken { OnOk result (taken.new.keys ≡ spec.taken_with list.now files.now mods.now taken.old.keys item.now) }
{
    let names = names_of(alloc, list, files, mods, item)?;
    push_duplicate(found, alloc, item, first_taken(taken, names.as_slice()))?;
    take_all(taken, names)
}

/// The duplicates among items, of a crate with these `mod` items.
fn duplicates_with(
    alloc: Global,
    list: &CrateModules,
    files: &FileTable,
    mods: &DeclaredMods,
    items: &[DeclaredItem],
) -> Result<Vec<Diagnostic>, AllocError>
    ensures { IfOk result (λ found. found.items ≡ spec.duplicates_from list.now files.now mods.now [] items.now) }
{
    let mut found = Vec::new(alloc);
    let mut taken = IndexSet::new(alloc);
    for item in items {
        look_at(&mut found, &mut taken, alloc, list, files, mods, item)?;
    }
    Ok(found)
}

/// What is told of those of some items whose name an earlier item of the same module has in a common namespace, in their
/// order. A macro by `macro_rules!` counts if it is exported, and then as one of the root; a `mod` item does not whose file
/// begins with a `cfg` that does not hold; a procedural macro takes its name among macros, too. Each name is looked up once.
///
/// # Errors
///
/// Fails only where memory runs out.
pub fn duplicates(
    alloc: Global,
    list: &CrateModules,
    files: &FileTable,
    items: &[DeclaredItem],
) -> Result<Vec<Diagnostic>, AllocError>
    ensures { IfOk result (λ found. found.items ≡ spec.duplicates list.now files.now items.now) }
{
    let mods = DeclaredMods::of(alloc, list)?;
    let found = duplicates_with(alloc, list, files, &mods, items)?;
    Ok(found)
}
