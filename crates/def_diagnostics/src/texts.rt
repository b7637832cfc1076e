//! What is told, in words.
ghost use Rattle.std.specs.Prelude.{◌≡◌, ◌++◌, IfOk, OnOk, map, string_bytes};
ghost use Rattle.def_diagnostics.specs.CandidatePaths.{bytes_of};
ghost use Rattle.def_diagnostics.specs.Texts as spec;

use crate::diagnostic::DiagnosticKind;
use dm_base::mod_path::{ModPath, PathKind};
use dm_base::name::Name;
use std::alloc::{AllocError, Global};

/// Bytes as text; what is no UTF-8 is a question mark.
pub fn as_text(bytes: &[u8]) -> &str
    ensures { result.now ≡ spec.as_text bytes.now }
{
    match std::str::from_utf8(bytes) {
        Err(_) => "?",
        Ok(text) => text,
    }
}

/// What stands before the path of a number.
fn before_path(place: usize) -> &'static str
    ensures { result.now ≡ spec.before_path place }
{
    if place == 0 { " " } else { " and " }
}

/// Adds the path of a number.
fn push_tried(text: &mut String, place: usize, path: &[u8]) -> Result<(), AllocError>
    ensures { OnOk result
        (string_bytes text.new ≡ string_bytes text.old ++ spec.before_path place ++ spec.as_text path.now) }
{
    text.push_str(before_path(place))?;
    text.push_str(as_text(path))?;
    Ok(())
}

/// Which paths were tried.
fn tried(alloc: Global, paths: &[Vec<u8>]) -> Result<String, AllocError>
    ensures { IfOk result (λ text. string_bytes text ≡ spec.tried (map bytes_of paths.now)) }
{
    let mut text = String::from_str(alloc, "unresolved module, tried")?;
    for (place, path) in paths.iter().enumerate() {
        push_tried(&mut text, place, path.as_slice())?;
    }
    Ok(text)
}

/// So many steps outwards.
fn outwards(alloc: Global, steps: u8) -> Result<String, AllocError>
    ensures { IfOk result (λ text. string_bytes text ≡ spec.outwards steps) }
{
    let mut text = String::new(alloc);
    for _step in 0..steps {
        text.push_str("super::")?;
    }
    Ok(text)
}

/// How a path begins.
fn start(alloc: Global, kind: PathKind) -> Result<String, AllocError>
    ensures { IfOk result (λ text. string_bytes text ≡ spec.start kind) }
{
    match kind {
        PathKind::Plain => Ok(String::new(alloc)),
        PathKind::Abs => copied(alloc, "::"),
        PathKind::Crate => copied(alloc, "crate::"),
        PathKind::DollarCrate(_) => copied(alloc, "$crate::"),
        PathKind::Super(steps) => {
            if steps == 0 {
                copied(alloc, "self::")
            } else {
                outwards(alloc, steps)
            }
        }
    }
}

/// A text of its own.
fn copied(alloc: Global, text: &str) -> Result<String, AllocError>
    ensures { IfOk result (λ copy. string_bytes copy ≡ text.now) }
{
    let copy = String::from_str(alloc, text)?;
    Ok(copy)
}

/// What stands before the segment of a number.
fn before_segment(place: usize) -> &'static str
    ensures { result.now ≡ spec.before_segment place }
{
    if place == 0 { "" } else { "::" }
}

/// Adds the segment of a number.
fn push_segment(text: &mut String, place: usize, segment: &Name) -> Result<(), AllocError>
    ensures { OnOk result
        (string_bytes text.new ≡ string_bytes text.old ++ spec.before_segment place ++ segment.now) }
{
    text.push_str(before_segment(place))?;
    text.push_str(segment.as_str())?;
    Ok(())
}

/// A path as it is written.
///
/// # Errors
///
/// Fails only where memory runs out.
pub fn path_text(alloc: Global, path: &ModPath) -> Result<String, AllocError>
    ensures { IfOk result (λ text. string_bytes text ≡ spec.path_text path.now) }
{
    let mut text = start(alloc, path.kind())?;
    for (place, segment) in path.segments().iter().enumerate() {
        push_segment(&mut text, place, segment)?;
    }
    Ok(text)
}

/// That the path of a macro call leads nowhere.
fn no_macro(alloc: Global, path: &ModPath) -> Result<String, AllocError>
    ensures { IfOk result (λ text. string_bytes text ≡ spec.no_macro path.now) }
{
    let path = path_text(alloc, path)?;
    let text = format!(in alloc; "unresolved macro `{path}`")?;
    Ok(text)
}

/// That a name is taken.
fn taken(alloc: Global, name: &Name) -> Result<String, AllocError>
    ensures { IfOk result (λ text. string_bytes text ≡ spec.taken name.now) }
{
    let text = format!(in alloc; "the name `{name}` is defined multiple times")?;
    Ok(text)
}

/// What is told, in words.
///
/// # Errors
///
/// Fails only where memory runs out.
pub fn kind_text(alloc: Global, kind: &DiagnosticKind) -> Result<String, AllocError>
    ensures { IfOk result (λ text. string_bytes text ≡ spec.kind_text kind.now) }
{
    match kind {
        DiagnosticKind::UnresolvedModule(paths) => tried(alloc, paths.paths()),
        DiagnosticKind::ModuleInItself => copied(alloc, "a file within itself"),
        DiagnosticKind::UnresolvedExternCrate => copied(alloc, "unresolved extern crate"),
        DiagnosticKind::UnresolvedImport => copied(alloc, "unresolved import"),
        DiagnosticKind::AmbiguousImport => copied(alloc, "ambiguous import"),
        DiagnosticKind::UnresolvedMacroCall(path) => no_macro(alloc, path),
        DiagnosticKind::UnresolvedVisibility => copied(alloc, "unresolved visibility"),
        DiagnosticKind::DuplicateDefinition(name) => taken(alloc, name),
        DiagnosticKind::UnconfiguredCode => copied(alloc, "inactive code"),
    }
}
