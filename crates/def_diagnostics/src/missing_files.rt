//! The files that a loader has yet to read.
ghost use Rattle.std.specs.Prelude.{◌≡◌, ◌++◌, IfOk, OnOk, map};
ghost use Rattle.std.specs.List.{list_any};
ghost use Rattle.def_diagnostics.specs.CandidatePaths.{bytes_of};
ghost use Rattle.def_diagnostics.specs.MissingFiles as spec;

use crate::candidate_paths::{CandidatePaths, push_paths};
use crate_items::files::file_table::FileTable;
use crate_items::modules::CrateModules;
use crate_items::modules::declared_module::ModuleFault;
use crate_items::modules::mod_resolution::Candidate;
use std::alloc::{AllocError, Global};

/// Whether a table has one of some candidates.
fn is_any_there(files: &FileTable, candidates: &[Candidate]) -> bool
    ensures { result ≡ list_any (spec.is_there files.now) candidates.now }
{
    for candidate in candidates {
        if files.file_at(candidate.path()).is_some() {
            return true;
        }
    }
    false
}

/// Adds the candidates of a declaration, if a table has none of them.
fn push_missing(
    paths: &mut Vec<Vec<u8>>,
    alloc: Global,
    files: &FileTable,
    fault: &ModuleFault,
) -> Result<(), AllocError>
    ensures { OnOk result (map bytes_of paths.new.items ≡
        map bytes_of paths.old.items ++ spec.missing_of files.now fault.now) }
{
    if is_any_there(files, fault.candidates()) {
        Ok(())
    } else {
        push_paths(paths, alloc, fault.candidates())
    }
}

/// The files that a loader has yet to read: the candidates of those modules that a crate declares and whose file is at none
/// of them, in the order of the declarations. A path may come twice. Two candidates that are both there are no reason to
/// read more, and neither is a file that its declaration stands in.
///
/// A loader reads what there is at these paths, adds it to the table, and lists the modules anew, until there is nothing
/// at any of them.
///
/// # Errors
///
/// Fails only where memory runs out.
pub fn missing_files(
    alloc: Global,
    list: &CrateModules,
    files: &FileTable,
) -> Result<CandidatePaths, AllocError>
    ensures { IfOk result (λ paths. paths ≡ spec.missing_files files.now list.now) }
{
    let mut paths = Vec::new(alloc);
    for fault in list.faults() {
        push_missing(&mut paths, alloc, files, fault)?;
    }
    Ok(CandidatePaths { paths })
}
