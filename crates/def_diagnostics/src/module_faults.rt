//! Modules that are declared and not there.
ghost use Rattle.std.specs.Prelude.{◌≡◌, ◌++◌, ◌∷◌, [], IfOk, OnOk, map};
ghost use Rattle.def_diagnostics.specs.ModuleFaults as spec;

use crate::candidate_paths::CandidatePaths;
use crate::diagnostic::{Diagnostic, DiagnosticKind, Place};
use crate_items::modules::CrateModules;
use crate_items::modules::declared_module::ModuleFault;
use std::alloc::{AllocError, Global};

/// Why the declaration of a module leads to none.
fn kind_of(alloc: Global, fault: &ModuleFault) -> Result<DiagnosticKind, AllocError>
    ensures { IfOk result (λ kind. kind ≡ spec.kind_of fault.now.candidates fault.now.within) }
{
    match fault.within() {
        Some(_file) => Ok(DiagnosticKind::ModuleInItself),
        None => {
            let paths = CandidatePaths::of(alloc, fault.candidates())?;
            Ok(DiagnosticKind::UnresolvedModule(paths))
        }
    }
}

/// Adds what is told of a declaration that leads to no module.
fn push_fault(
    found: &mut Vec<Diagnostic>,
    alloc: Global,
    fault: &ModuleFault,
) -> Result<(), AllocError>
    ensures { OnOk result (found.new.items ≡ found.old.items ++ spec.unresolved_module fault.now ∷ []) }
{
    let kind = kind_of(alloc, fault)?;
    let declaration = fault.declaration();
    found.push(Diagnostic {
        file: declaration.file,
        place: Place::Item(declaration.item),
        kind,
    })?;
    Ok(())
}

/// What is told of the declarations of a crate that lead to no module, in their order.
///
/// # Errors
///
/// Fails only where memory runs out.
pub fn unresolved_modules(alloc: Global, list: &CrateModules) -> Result<Vec<Diagnostic>, AllocError>
    ensures { IfOk result (λ found. found.items ≡ map spec.unresolved_module list.now.faults) }
{
    let mut found = Vec::new(alloc);
    for fault in list.faults() {
        push_fault(&mut found, alloc, fault)?;
    }
    Ok(found)
}
