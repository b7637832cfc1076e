//! What is told of imports that mean nothing, and of those of ambiguous names.
ghost use Rattle.std.specs.Prelude.{◌≡◌, ◌++◌, [], IfOk, OnOk, option_copied};
ghost use Rattle.std.specs.List.{cons_option, find};
ghost use Rattle.def_diagnostics.specs.UnresolvedImports as spec;

use crate::diagnostic::{Diagnostic, DiagnosticKind, Place};
use crate_tables::item_place::UsePlace;
use dm_base::ids::{UseId, UseTreeIdx};
use dm_imports::meaning::Meaning;
use dm_imports::named_import::NamedImport;
use dm_imports::rules::meanings::ImportMeanings;
use std::alloc::{AllocError, Global};

/// Where a use is written.
fn place_of(uses: &[UsePlace], use_: UseId) -> Option<&UsePlace>
    ensures { option_copied result ≡ find (spec.is_of use_) uses.now }
{
    uses.iter().find(|place| place.use_.0 == use_.0)
}

/// What is told of a use tree, if the use is one of these.
pub(crate) fn told_of(
    kind: DiagnosticKind,
    uses: &[UsePlace],
    use_: UseId,
    tree: UseTreeIdx,
) -> Option<Diagnostic>
    ensures { result ≡ spec.told_of kind uses.now use_ tree }
{
    let place = place_of(uses, use_)?;
    Some(Diagnostic {
        file: place.file,
        place: Place::UseTree(place.item, tree),
        kind,
    })
}

/// Adds a diagnostic, if there is one.
fn push_told(found: &mut Vec<Diagnostic>, told: Option<Diagnostic>) -> Result<(), AllocError>
    ensures { OnOk result (found.new.items ≡ found.old.items ++ cons_option told []) }
{
    match told {
        None => Ok(()),
        Some(diagnostic) => {
            found.push(diagnostic)?;
            Ok(())
        }
    }
}

/// Adds what is told of the import at a place, which means nothing.
fn push_at(
    found: &mut Vec<Diagnostic>,
    imports: &[NamedImport],
    uses: &[UsePlace],
    place: usize,
) -> Result<(), AllocError>
    ensures { OnOk result (found.new.items ≡ found.old.items ++ spec.of_place imports.now uses.now place) }
{
    match imports.get(place) {
        None => Ok(()),
        Some(import) => {
            let kind = DiagnosticKind::UnresolvedImport;
            let told = told_of(kind, uses, import.import.use_, import.import.idx);
            push_told(found, told)
        }
    }
}

/// What is told of the imports at some places, which mean nothing, of those that are written in some uses, as those of a
/// crate: in the order of the places, at their use trees.
///
/// # Errors
///
/// Fails only where memory runs out.
pub fn unresolved_imports(
    alloc: Global,
    imports: &[NamedImport],
    places: &[usize],
    uses: &[UsePlace],
) -> Result<Vec<Diagnostic>, AllocError>
    ensures { IfOk result (λ found. found.items ≡ spec.unresolved_imports imports.now uses.now places.now) }
{
    let mut found = Vec::new(alloc);
    for place in places {
        push_at(&mut found, imports, uses, *place)?;
    }
    Ok(found)
}

fn is_ambiguous(meaning: Option<Meaning>) -> bool
    ensures { result ≡ spec.is_ambiguous meaning }
{
    match meaning {
        None => false,
        Some(meaning) => meaning.is_ambiguous,
    }
}

fn are_ambiguous(meanings: ImportMeanings) -> bool
    ensures { result ≡ spec.are_ambiguous meanings }
{
    is_ambiguous(meanings.types) || is_ambiguous(meanings.values) || is_ambiguous(meanings.macros)
}

/// Adds what is told of an import, if it brings an ambiguous name.
fn push_ambiguous(
    found: &mut Vec<Diagnostic>,
    uses: &[UsePlace],
    meanings: ImportMeanings,
    import: &NamedImport,
) -> Result<(), AllocError>
    ensures { OnOk result (found.new.items ≡ found.old.items ++ spec.if_ambiguous uses.now meanings import.now) }
{
    if !are_ambiguous(meanings) {
        return Ok(());
    }
    let kind = DiagnosticKind::AmbiguousImport;
    let told = told_of(kind, uses, import.import.use_, import.import.idx);
    push_told(found, told)
}

/// What is told of the imports that bring an ambiguous name, of those that are written in some uses: in their order, at their
/// use trees. `meanings` is what each import brings, in their order.
///
/// # Errors
///
/// Fails only where memory runs out.
pub fn ambiguous_imports(
    alloc: Global,
    imports: &[NamedImport],
    meanings: &[ImportMeanings],
    uses: &[UsePlace],
) -> Result<Vec<Diagnostic>, AllocError>
    ensures { IfOk result
        (λ found. found.items ≡ spec.ambiguous_imports uses.now meanings.now imports.now) }
{
    let mut found = Vec::new(alloc);
    for (meant, import) in meanings.iter().zip(imports) {
        push_ambiguous(&mut found, uses, *meant, import)?;
    }
    Ok(found)
}
