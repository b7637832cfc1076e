//! The targets of Cargo's packages, and when a dependency counts for one.
use crate::arguments::edition_of;
use crate::cfg_file::options_of;
use crate_items::files::source::Source;
use dm_base::source::Edition;
use serde_json::Value;
use std::alloc::{AllocError, Global};

/// The platform whose options are taken where none are given.
const PLATFORM: &'static str = "x86_64-unknown-linux-gnu";

/// What a target is.
#[derive(Clone, Copy, PartialEq, Eq, Debug)]
pub(crate) enum TargetKind {
    Library,
    ProcMacro,
    Program,
    Example,
    /// A test or a benchmark.
    Test,
    BuildScript,
}

/// A target of a package.
#[derive(Clone, Copy)]
pub(crate) struct CargoTarget<'a> {
    pub(crate) name: &'a str,
    pub(crate) root: &'a str,
    pub(crate) edition: Edition,
    pub(crate) kind: TargetKind,
}

impl<'a> CargoTarget<'a> {
    pub(crate) fn is_proc_macro(self) -> bool {
        self.kind == TargetKind::ProcMacro
    }

    pub(crate) fn is_library(self) -> bool {
        matches!(self.kind, TargetKind::Library | TargetKind::ProcMacro)
    }

    /// Whether it knows the library of its own package.
    pub(crate) fn knows_library(self) -> bool {
        matches!(
            self.kind,
            TargetKind::Program | TargetKind::Example | TargetKind::Test
        )
    }

    /// Whether it is built as a test.
    pub(crate) fn is_test(self) -> bool {
        self.kind == TargetKind::Test
    }
}

/// Whether a list has a text.
fn has(words: &[Value], wanted: &str) -> bool {
    for word in words {
        if word.as_str() == Some(wanted) {
            return true;
        }
    }
    false
}

/// What the words of a target's kind say.
fn kind_of(words: &[Value]) -> TargetKind {
    if has(words, "proc-macro") {
        TargetKind::ProcMacro
    } else if has(words, "bin") {
        TargetKind::Program
    } else if has(words, "custom-build") {
        TargetKind::BuildScript
    } else if has(words, "test") || has(words, "bench") {
        TargetKind::Test
    } else if has(words, "example") {
        TargetKind::Example
    } else {
        TargetKind::Library
    }
}

/// The text of a member; empty where there is none.
pub(crate) fn text_of<'a>(value: &'a Value, key: &str) -> &'a str {
    match value.get(key) {
        None => "",
        Some(member) => member.as_str().unwrap_or(""),
    }
}

/// The values of a member that is a list.
pub(crate) fn list_of<'a>(value: &'a Value, key: &str) -> &'a [Value] {
    match value.get(key).and_then(Value::as_array) {
        None => &[],
        Some(values) => values.as_slice(),
    }
}

fn target_of(value: &Value) -> CargoTarget<'_> {
    CargoTarget {
        name: text_of(value, "name"),
        root: text_of(value, "src_path"),
        edition: edition_of(text_of(value, "edition")).unwrap_or(Edition::Edition2015),
        kind: kind_of(list_of(value, "kind")),
    }
}

/// The target of a package whose root is at a path.
pub(crate) fn target_at<'a>(package: &'a Value, path: &str) -> Option<CargoTarget<'a>> {
    for value in list_of(package, "targets") {
        let target = target_of(value);
        if target.root == path {
            return Some(target);
        }
    }
    None
}

/// Whether a target has a name, or a kind, a colon and a name: a package may have a library and a program of one name.
fn is_named(value: &Value, word: &str) -> bool {
    match word.split_once(':') {
        None => text_of(value, "name") == word,
        Some((kind, name)) => has(list_of(value, "kind"), kind) && text_of(value, "name") == name,
    }
}

/// The target of a name that a package has.
pub(crate) fn target_named<'a>(package: &'a Value, word: &str) -> Option<CargoTarget<'a>> {
    for value in list_of(package, "targets") {
        if is_named(value, word) {
            return Some(target_of(value));
        }
    }
    None
}

/// The roots of all targets of a package.
pub(crate) fn target_roots(alloc: Global, package: &Value) -> Result<Vec<String>, AllocError> {
    let mut roots = Vec::new(alloc);
    for value in list_of(package, "targets") {
        roots.push(String::from_str(alloc, text_of(value, "src_path"))?)?;
    }
    Ok(roots)
}

/// The library of a package, or else its first target.
pub(crate) fn first_target(package: &Value) -> Option<CargoTarget<'_>> {
    match library_of(package) {
        Some(library) => Some(library),
        None => Some(target_of(list_of(package, "targets").first()?)),
    }
}

/// Whether a package has a build script.
pub(crate) fn has_build_script(package: &Value) -> bool {
    for value in list_of(package, "targets") {
        if has(list_of(value, "kind"), "custom-build") {
            return true;
        }
    }
    false
}

/// The library of a package.
pub(crate) fn library_of(package: &Value) -> Option<CargoTarget<'_>> {
    for value in list_of(package, "targets") {
        let target = target_of(value);
        if target.is_library() {
            return Some(target);
        }
    }
    None
}

/// Whether a dependency of a kind counts for a target.
pub(crate) fn is_asked(target: CargoTarget<'_>, kind: Option<&str>) -> bool {
    match kind {
        None => target.kind != TargetKind::BuildScript,
        Some("dev") => matches!(target.kind, TargetKind::Test | TargetKind::Example),
        Some("build") => target.kind == TargetKind::BuildScript,
        Some(_other) => false,
    }
}

/// Whether a predicate in parentheses may hold by some options: that of an item with it is asked.
fn predicate_holds(alloc: Global, cfgs: &str, predicate: &str) -> Result<bool, AllocError> {
    let text = format!(in alloc; "#[{predicate}] mod a {{}}")?;
    let options = options_of(alloc, cfgs, "")?;
    let read = Source::read(
        alloc,
        Edition::Edition2021,
        &options,
        text.as_str().as_bytes(),
    )?;
    match read.standings().first() {
        None => Ok(true),
        Some(standing) => Ok(standing.is_configured),
    }
}

/// Whether the options are those of a platform, which is none, `cfg(..)` or the name of one.
pub(crate) fn holds(alloc: Global, cfgs: &str, platform: Option<&str>) -> Result<bool, AllocError> {
    match platform {
        None => Ok(true),
        Some(predicate) if predicate.starts_with("cfg(") => predicate_holds(alloc, cfgs, predicate),
        Some(name) => Ok(name == PLATFORM),
    }
}
