//! Diagnostics: what is told, and of which part of which file.
use crate::candidate_paths::CandidatePaths;
use dm_base::ids::{FileId, UseTreeIdx};
use dm_base::mod_path::ModPath;
use dm_base::name::Name;

/// The part of a file that a diagnostic is about.
#[derive(Clone, Copy, PartialEq, Eq, Debug)]
pub enum Place {
    /// The item of a number, in the tree of the file.
    Item(usize),
    /// The use tree of a number, of the `use` item of a number.
    UseTree(usize, UseTreeIdx),
}

/// What is told.
pub enum DiagnosticKind {
    /// A module is declared, and none of the paths has a file, or two have.
    UnresolvedModule(CandidatePaths),
    /// The file of a module is one that its declaration stands in.
    ModuleInItself,
    /// No dependency has the name that an `extern crate` names.
    UnresolvedExternCrate,
    /// The path of a use tree leads nowhere.
    UnresolvedImport,
    /// A use tree imports an ambiguous name: globs bring different definitions of it.
    AmbiguousImport,
    /// The path of a macro call leads nowhere.
    UnresolvedMacroCall(ModPath),
    /// A visibility leads to no module around.
    UnresolvedVisibility,
    /// An earlier item has taken the name.
    DuplicateDefinition(Name),
    /// A `cfg` does not hold.
    UnconfiguredCode,
}

/// Hand-written `Drop`, to keep proofs small: dropping one is then a single call.
impl Drop for DiagnosticKind {
    fn drop(self) {
        match self {
            DiagnosticKind::UnresolvedModule(_paths) => {}
            DiagnosticKind::ModuleInItself => {}
            DiagnosticKind::UnresolvedExternCrate => {}
            DiagnosticKind::UnresolvedImport => {}
            DiagnosticKind::AmbiguousImport => {}
            DiagnosticKind::UnresolvedMacroCall(_path) => {}
            DiagnosticKind::UnresolvedVisibility => {}
            DiagnosticKind::DuplicateDefinition(_name) => {}
            DiagnosticKind::UnconfiguredCode => {}
        }
    }
}

/// What is told of a part of a file.
pub struct Diagnostic {
    pub file: FileId,
    pub place: Place,
    pub kind: DiagnosticKind,
}

/// Hand-written `Drop`, to keep proofs small: dropping one is then a single call.
impl Drop for Diagnostic {
    fn drop(self) {
        let Diagnostic {
            file: _file,
            place: _place,
            kind: _kind,
        } = self;
    }
}
