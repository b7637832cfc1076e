//! What is told of a crate, as its def map has it: with ids in place of places.
ghost use Rattle.std.specs.Prelude.{◌≡◌, ◌+◌, ◌++◌, ◌∷◌, [], IfOk, OnOk, length, map, option_map, string_bytes};
ghost use Rattle.std.specs.List.{flat_map};
ghost use Rattle.def_diagnostics.specs.ToldInMaps as spec;
ghost use Rattle.def_diagnostics.specs.CandidatePaths.{bytes_of};
ghost use Rattle.def_diagnostics.specs.Texts.{as_text};
ghost use Rattle.dm_scope.specs.declared.diagnostics.DefDiagnosticKind.TheVariants as wrong;

use crate::candidate_paths::CandidatePaths;
use crate::diagnostic::{Diagnostic, DiagnosticKind, Place};
use crate::item_modules::MappedCrate;
use crate::macro_calls::copied_path;
use crate::texts::as_text;
use dm_base::ids::{CfgExpr, CfgOptions, Crate, FileId, MacroCallKind, ModuleId, UseTreeIdx};
use dm_base::mod_path::ModPath;
use dm_base::source::{AstId, Edition, EditionedFileId, HirFileId};
use dm_scope::diagnostics::{DefDiagnostic, DefDiagnosticKind};
use item_tree::ids::file_ast_id;
use std::alloc::{AllocError, Global};

/// Where a macro call is written: its file, and the number of the item there.
#[derive(Clone, Copy, PartialEq, Eq, Debug)]
pub struct CallPlace {
    pub file: FileId,
    pub item: usize,
}

/// What a def map has of diagnostics, with rows for the macro calls among them.
#[derive(Drop)]
pub struct ToldInMap {
    pub diagnostics: Vec<DefDiagnostic>,
    pub calls: Vec<CallPlace>,
}

/// The item that a place is, or is in.
fn item_of(place: Place) -> usize
    ensures { result ≡ spec.item_of place }
{
    match place {
        Place::Item(item) | Place::UseTree(item, _) => item,
    }
}

/// The use tree that a place is; an item itself is its first.
fn tree_of(place: Place) -> UseTreeIdx
    ensures { result ≡ spec.tree_of place }
{
    match place {
        Place::Item(_) => UseTreeIdx(0),
        Place::UseTree(_, tree) => tree,
    }
}

/// The id of an item, if its number has 32 bits.
fn ast_of(edition: Edition, file: FileId, item: usize) -> Option<AstId>
    ensures { result ≡ spec.ast_of edition file item }
{
    let value = file_ast_id(item)?;
    Some(AstId {
        file_id: HirFileId::File(EditionedFileId { file, edition }),
        value,
    })
}

/// What a macro call is known by, if the number of its row has 32 bits.
fn call_of(row: u128) -> Option<MacroCallKind>
    ensures { result ≡ spec.call_of row }
{
    match u32::try_from(row) {
        Ok(number) => Some(MacroCallKind(number)),
        Err(_) => None,
    }
}

/// Adds a path as a text.
fn push_text(texts: &mut Vec<String>, alloc: Global, path: &[u8]) -> Result<(), AllocError>
    ensures { OnOk result
        (map string_bytes texts.new.items ≡ map string_bytes texts.old.items ++ as_text path.now ∷ []) }
{
    let text = String::from_str(alloc, as_text(path))?;
    texts.push(text)?;
    Ok(())
}

/// Paths as texts.
fn texts_of(alloc: Global, paths: &[Vec<u8>]) -> Result<Vec<String>, AllocError>
    ensures { IfOk result
        (λ texts. map string_bytes texts.items ≡ map as_text (map bytes_of paths.now)) }
{
    let mut texts = Vec::new(alloc);
    for path in paths {
        push_text(&mut texts, alloc, path.as_slice())?;
    }
    Ok(texts)
}

/// That a module is not there.
fn missing_kind(
    alloc: Global,
    ast: AstId,
    paths: &CandidatePaths,
) -> Result<DefDiagnosticKind, AllocError>
    ensures { IfOk result (λ kind. spec.said kind ≡ spec.Missing ast (map as_text paths.now)) }
{
    let candidates = texts_of(alloc, paths.paths())?;
    Ok(DefDiagnosticKind::UnresolvedModule { ast, candidates })
}

/// That a macro call leads nowhere.
fn call_kind(
    alloc: Global,
    call: Option<MacroCallKind>,
    path: &ModPath,
) -> Result<Option<DefDiagnosticKind>, AllocError>
    ensures { IfOk result (λ kind. option_map spec.said kind ≡ spec.call_said call path.now) }
{
    match call {
        None => Ok(None),
        Some(ast) => {
            let path = copied_path(alloc, path)?;
            Ok(Some(DefDiagnosticKind::UnresolvedMacroCall { ast, path }))
        }
    }
}

/// That an item is taken away.
fn unconfigured_kind(krate: Crate, ast_id: AstId) -> DefDiagnosticKind
    ensures { spec.said result ≡
        spec.Plain (wrong.UnconfiguredCode ast_id (spec.condition_of ast_id) (spec.options_of krate)) }
{
    DefDiagnosticKind::UnconfiguredCode {
        ast_id,
        cfg: CfgExpr(ast_id.value.0),
        opts: CfgOptions(krate.0),
    }
}

/// The kind that a def map has for a kind of diagnostic, if it has one.
fn def_kind(
    alloc: Global,
    krate: Crate,
    row: u128,
    ast: AstId,
    place: Place,
    kind: &DiagnosticKind,
) -> Result<Option<DefDiagnosticKind>, AllocError>
    ensures { IfOk result
        (λ found. option_map spec.said found ≡ spec.said_of krate row ast place kind.now) }
{
    match kind {
        DiagnosticKind::UnresolvedModule(paths) => {
            let kind = missing_kind(alloc, ast, paths)?;
            Ok(Some(kind))
        }
        DiagnosticKind::UnresolvedExternCrate => {
            Ok(Some(DefDiagnosticKind::UnresolvedExternCrate { ast }))
        }
        DiagnosticKind::UnresolvedImport => Ok(Some(DefDiagnosticKind::UnresolvedImport {
            id: ast,
            index: tree_of(place),
        })),
        DiagnosticKind::UnresolvedMacroCall(path) => {
            let kind = call_kind(alloc, call_of(row), path)?;
            Ok(kind)
        }
        DiagnosticKind::UnconfiguredCode => Ok(Some(unconfigured_kind(krate, ast))),
        DiagnosticKind::ModuleInItself
        | DiagnosticKind::AmbiguousImport
        | DiagnosticKind::UnresolvedVisibility
        | DiagnosticKind::DuplicateDefinition(_) => Ok(None),
    }
}

/// Adds what is told in a module, if a def map has a kind for it.
fn push_kind(
    found: &mut Vec<DefDiagnostic>,
    in_module: ModuleId,
    kind: Option<DefDiagnosticKind>,
) -> Result<(), AllocError>
    ensures { OnOk result (map spec.told_by found.new.items ≡
        map spec.told_by found.old.items ++ spec.told_as in_module (option_map spec.said kind)) }
{
    match kind {
        None => Ok(()),
        Some(kind) => {
            found.push(DefDiagnostic { in_module, kind })?;
            Ok(())
        }
    }
}

/// Adds what a def map has of a diagnostic, by the module and the id of its item.
fn push_at(
    found: &mut Vec<DefDiagnostic>,
    alloc: Global,
    krate: Crate,
    row: u128,
    diagnostic: &Diagnostic,
    home: Option<ModuleId>,
    ast: Option<AstId>,
) -> Result<(), AllocError>
    ensures { OnOk result (map spec.told_by found.new.items ≡
        map spec.told_by found.old.items ++ spec.told_at krate row diagnostic.now home ast) }
{
    match (home, ast) {
        (Some(m), Some(ast)) => {
            let kind = def_kind(alloc, krate, row, ast, diagnostic.place, &diagnostic.kind)?;
            push_kind(found, m, kind)
        }
        _ => Ok(()),
    }
}

/// Adds a row for a macro call.
fn push_call(calls: &mut Vec<CallPlace>, diagnostic: &Diagnostic) -> Result<(), AllocError>
    ensures { OnOk result (calls.new.items ≡ calls.old.items ++ spec.calls_of diagnostic.now) }
{
    match diagnostic.kind {
        DiagnosticKind::UnresolvedMacroCall(_) => {
            calls.push(CallPlace {
                file: diagnostic.file,
                item: item_of(diagnostic.place),
            })?;
            Ok(())
        }
        _ => Ok(()),
    }
}

/// Adds what a def map has of a diagnostic, and a row for a macro call.
fn push_told(
    found: &mut ToldInMap,
    alloc: Global,
    first_row: usize,
    krate: &MappedCrate<'_>,
    diagnostic: &Diagnostic,
) -> Result<(), AllocError>
    ensures diagnostics { OnOk result (map spec.told_by found.new.diagnostics.items ≡
        map spec.told_by found.old.diagnostics.items
        ++ spec.told krate.now (first_row + length found.old.calls.items) diagnostic.now) }
    ensures calls { OnOk result (found.new.calls.items ≡ found.old.calls.items ++ spec.calls_of diagnostic.now) }
{
    let row = first_row as u128 + found.calls.len() as u128;
    let item = item_of(diagnostic.place);
    let home = krate.module_of(diagnostic.file, item);
    let ast = ast_of(krate.edition, diagnostic.file, item);
    push_at(
        &mut found.diagnostics,
        alloc,
        krate.krate,
        row,
        diagnostic,
        home,
        ast,
    )?;
    push_call(&mut found.calls, diagnostic)
}

/// What the def map of a crate has of its diagnostics, in their order: in the module that the item stands in, by the id
/// of the item in its file (`FileAstId`, the item's number there, as in the origins of modules). A macro call goes by the
/// number of a row in a table of calls: each has one, the first of which has the number `first_row`. The condition of an
/// item that `cfg` takes away goes by the number of the item, and the options by that of the crate.
///
/// What a def map has no kind for stays out: a file within itself, a visibility that leads nowhere, a second declaration.
/// So does what stands in no module, as in traits and implementations.
///
/// # Errors
///
/// Fails only where memory runs out.
pub fn told_in_map(
    alloc: Global,
    first_row: usize,
    krate: &MappedCrate<'_>,
    diagnostics: &[Diagnostic],
) -> Result<ToldInMap, AllocError>
    ensures told { IfOk result (λ found. map spec.told_by found.diagnostics.items ≡
        spec.told_from krate.now first_row diagnostics.now) }
    ensures calls { IfOk result (λ found. found.calls.items ≡ flat_map spec.calls_of diagnostics.now) }
{
    let mut found = ToldInMap {
        diagnostics: Vec::new(alloc),
        calls: Vec::new(alloc),
    };
    for diagnostic in diagnostics {
        push_told(&mut found, alloc, first_row, krate, diagnostic)?;
    }
    Ok(found)
}
