//! The options that crates are compiled with, as `rustc --print cfg` prints them.
use dm_base::symbol::Symbol;
use item_tree::cfg::CfgOptions;
use std::alloc::{AllocError, Global};

/// What `rustc --print cfg` prints for Linux on x86-64.
pub(crate) const LINUX: &'static str =
    "debug_assertions\npanic=\"unwind\"\ntarget_abi=\"\"\ntarget_arch=\"x86_64\"\n\
target_endian=\"little\"\ntarget_env=\"gnu\"\ntarget_family=\"unix\"\ntarget_feature=\"fxsr\"\ntarget_feature=\"sse\"\n\
target_feature=\"sse2\"\ntarget_has_atomic=\"16\"\ntarget_has_atomic=\"32\"\ntarget_has_atomic=\"64\"\n\
target_has_atomic=\"8\"\ntarget_has_atomic=\"ptr\"\ntarget_os=\"linux\"\ntarget_pointer_width=\"64\"\n\
target_vendor=\"unknown\"\nunix\n";

/// An option: a name, with a value or alone.
#[derive(Clone, Copy)]
pub(crate) struct CfgLine<'a> {
    pub(crate) name: &'a str,
    pub(crate) value: Option<&'a str>,
}

fn is_name_char(c: char) -> bool {
    c.is_ascii_alphanumeric() || c == '_' || c == '-'
}

fn is_name(text: &str) -> bool {
    !text.is_empty() && text.chars().all(is_name_char)
}

/// The text between two quotation marks.
fn unquoted(text: &str) -> Option<&str> {
    text.strip_prefix('"')?.strip_suffix('"')
}

/// What a line says: `NAME` or `NAME="VALUE"`. None where it is neither.
pub(crate) fn cfg_line(line: &str) -> Option<CfgLine<'_>> {
    let (name, value) = match line.split_once('=') {
        None => (line.trim(), None),
        Some((name, value)) => (name.trim(), Some(unquoted(value.trim())?)),
    };
    if is_name(name) {
        Some(CfgLine { name, value })
    } else {
        None
    }
}

/// The first line of a text that is no option, with its number from 1 on.
pub(crate) fn first_fault(text: &str) -> Option<(usize, &str)> {
    for (before, line) in text.lines().enumerate() {
        if !line.trim().is_empty() && cfg_line(line).is_none() {
            return Some((before.saturating_add(1), line));
        }
    }
    None
}

/// Adds an option.
pub(crate) fn add_option(
    options: &mut CfgOptions,
    alloc: Global,
    option: CfgLine<'_>,
) -> Result<(), AllocError> {
    let name = Symbol::new(alloc, option.name)?;
    match option.value {
        None => options.insert_atom(name),
        Some(value) => options.insert_key_value(name, Symbol::new(alloc, value)?),
    }
}

/// Adds the options of the lines of a text.
pub(crate) fn add_lines(
    options: &mut CfgOptions,
    alloc: Global,
    text: &str,
) -> Result<(), AllocError> {
    for line in text.lines() {
        if let Some(option) = cfg_line(line) {
            add_option(options, alloc, option)?;
        }
    }
    Ok(())
}

/// The options of the lines of two texts.
pub(crate) fn options_of(alloc: Global, shared: &str, own: &str) -> Result<CfgOptions, AllocError> {
    let mut options = CfgOptions::new(alloc);
    add_lines(&mut options, alloc, shared)?;
    add_lines(&mut options, alloc, own)?;
    Ok(options)
}
