//! Where a diagnostic of a def map is written.
ghost use Rattle.std.specs.Prelude.{◌≡◌};
ghost use Rattle.def_diagnostics.specs.ToldPlaces as spec;

use crate::diagnostic::Place;
use crate::told_in_maps::CallPlace;
use dm_base::ids::{FileId, MacroCallKind, UseTreeIdx};
use dm_base::source::{AstId, HirFileId};
use dm_scope::diagnostics::{DefDiagnostic, DefDiagnosticKind};

/// A part of a file.
#[derive(Clone, Copy, PartialEq, Eq, Debug)]
pub struct ToldPlace {
    pub file: FileId,
    pub place: Place,
}

/// A part of a file, if that is no expansion.
fn place_in(file: HirFileId, place: Place) -> Option<ToldPlace>
    ensures { result ≡ spec.place_in file place }
{
    match file {
        HirFileId::File(file) => Some(ToldPlace {
            file: file.file_id(),
            place,
        }),
        HirFileId::Macro(_) => None,
    }
}

fn item_place(ast: AstId) -> Option<ToldPlace>
    ensures { result ≡ spec.item_place ast }
{
    place_in(ast.file_id, Place::Item(ast.value.0 as usize))
}

fn tree_place(ast: AstId, tree: UseTreeIdx) -> Option<ToldPlace>
    ensures { result ≡ spec.tree_place ast tree }
{
    place_in(ast.file_id, Place::UseTree(ast.value.0 as usize, tree))
}

fn call_place(calls: &[CallPlace], call: MacroCallKind) -> Option<ToldPlace>
    ensures { result ≡ spec.call_place calls.now call }
{
    let row = calls.get(call.0 as usize)?;
    Some(ToldPlace {
        file: row.file,
        place: Place::Item(row.item),
    })
}

fn kind_place(calls: &[CallPlace], kind: &DefDiagnosticKind) -> Option<ToldPlace>
    ensures { result ≡ spec.place_of calls.now kind.now }
{
    match kind {
        DefDiagnosticKind::UnresolvedImport { id, index } => tree_place(*id, *index),
        DefDiagnosticKind::UnresolvedMacroCall { ast, .. } => call_place(calls, *ast),
        DefDiagnosticKind::UnresolvedModule { ast, .. }
        | DefDiagnosticKind::UnresolvedExternCrate { ast }
        | DefDiagnosticKind::UnconfiguredCode { ast_id: ast, .. }
        | DefDiagnosticKind::UnimplementedBuiltinMacro { ast }
        | DefDiagnosticKind::InvalidDeriveTarget { ast, .. }
        | DefDiagnosticKind::MalformedDerive { ast, .. }
        | DefDiagnosticKind::MacroDefError { ast, .. }
        | DefDiagnosticKind::MacroError { ast, .. } => item_place(*ast),
    }
}

/// Where a diagnostic of a def map is written, by the table of macro calls that `add_diagnostics` answers with; none in an
/// expansion, and where that table does not have the call. So one comes from `DefMap::diagnostics` back to lines. Does not
/// allocate.
pub fn told_place(calls: &[CallPlace], diagnostic: &DefDiagnostic) -> Option<ToldPlace>
    ensures { result ≡ spec.place_of calls.now diagnostic.now.kind }
{
    kind_place(calls, &diagnostic.kind)
}
