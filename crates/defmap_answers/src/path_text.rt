//! Paths of imports, as they are written.
use dm_base::mod_path::{ModPath, PathKind};
use std::alloc::{AllocError, Global};

/// Adds what a path begins with: its kind.
fn push_kind(text: &mut String, kind: PathKind) -> Result<(), AllocError> {
    let (begun, more) = match kind {
        PathKind::Plain => ("", 0),
        PathKind::Abs => ("::", 0),
        PathKind::Crate | PathKind::DollarCrate(_) => ("crate", 0),
        PathKind::Super(0) => ("self", 0),
        PathKind::Super(count) => ("super", count.saturating_sub(1)),
    };
    text.push_str(begun)?;
    for _super in 0..more {
        text.push_str("::super")?;
    }
    Ok(())
}

/// Adds the names of a path.
fn push_names(text: &mut String, path: &ModPath) -> Result<(), AllocError> {
    let mut between = match path.kind() {
        PathKind::Plain | PathKind::Abs => "",
        _ => "::",
    };
    for name in path.segments() {
        text.push_str(between)?;
        text.push_str(name.as_str())?;
        between = "::";
    }
    Ok(())
}

/// A path, as it is written.
pub(crate) fn path_text(alloc: Global, path: &ModPath) -> Result<String, AllocError> {
    let mut text = String::new(alloc);
    push_kind(&mut text, path.kind())?;
    push_names(&mut text, path)?;
    Ok(text)
}
