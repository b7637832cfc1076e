//! The attributes of a text: what each says, with its string, or the words that the items of its
//! list begin with; whether it is an inner one, and whether its condition leaves it out.
use crate::items::Manner;
use item_tree::attributes::attribute_kind::{AttributeKind, lexemes_in};
use item_tree::attributes::attribute_lists::{helper_list, list_items};
use item_tree::attributes::{
    Attribute, Attributes, is_active, may_hold, nodes_in, read_attributes,
};
use item_tree::cfg::CfgOptions;
use item_tree::items::Range;
use item_tree::lexer::lexeme::{Lexeme, read_lexemes};
use item_tree::lexer::span::{Span, name_text, string_text};
use std::alloc::{AllocError, Global};
use std::fmt::Write;

/// A word for what an attribute says.
fn word_for(kind: AttributeKind, holds: bool) -> &'static str {
    match kind {
        AttributeKind::Cfg(_) if holds => "cfg yes",
        AttributeKind::Cfg(_) => "cfg no",
        AttributeKind::Path(_) => "path",
        AttributeKind::MacroUse => "macro_use",
        AttributeKind::MacroUseOf(_) => "macro_use of",
        AttributeKind::MacroExport => "macro_export",
        AttributeKind::Derive(_) => "derive",
        AttributeKind::NoStd => "no_std",
        AttributeKind::NoCore => "no_core",
        AttributeKind::NoImplicitPrelude => "no_implicit_prelude",
        AttributeKind::PreludeImport => "prelude_import",
        AttributeKind::RecursionLimit(_) => "recursion_limit",
        AttributeKind::Feature(_) => "feature",
        AttributeKind::RustcCoherenceIsCore => "rustc_coherence_is_core",
        AttributeKind::ProcMacro => "proc_macro",
        AttributeKind::ProcMacroDerive(_) => "proc_macro_derive",
        AttributeKind::ProcMacroAttribute => "proc_macro_attribute",
        AttributeKind::RustcBuiltinMacro => "rustc_builtin_macro",
        AttributeKind::RustcBuiltinMacroOf(_) => "rustc_builtin_macro of",
        AttributeKind::NonExhaustive => "non_exhaustive",
        AttributeKind::Test => "test",
        AttributeKind::Bench => "bench",
        AttributeKind::Malformed => "malformed",
        AttributeKind::Unknown => "unknown",
    }
}

/// Whether an attribute is a `cfg` that may hold.
fn may_be(options: &CfgOptions, text: &[u8], table: &Attributes, kind: AttributeKind) -> bool {
    match kind {
        AttributeKind::Cfg(range) => may_hold(options.check(text, nodes_in(table.nodes(), range))),
        _ => false,
    }
}

/// Adds the name that an item of a list begins with, and a word for each helper of a
/// `proc_macro_derive`.
fn push_list_item(
    out: &mut String,
    alloc: Global,
    text: &[u8],
    lexemes: &[Lexeme],
    item: Range,
) -> Result<(), AllocError> {
    if let Some(first) = lexemes_in(lexemes, item).first() {
        let (start, len) = (first.start, first.len);
        let name = name_text(text, Span { start, len });
        write!(out, " {}", std::str::from_utf8(name).unwrap_or("?"))?;
    }
    if let Some(helpers) = helper_list(text, lexemes, item) {
        for helper in &list_items(alloc, lexemes, helpers)? {
            let is_name = lexemes_in(lexemes, *helper).len() == 1;
            out.push_str(if is_name { " helper" } else { " ?" })?;
        }
    }
    Ok(())
}

/// Adds what an attribute has behind its name: a string, or a list.
fn push_input(
    out: &mut String,
    alloc: Global,
    text: &[u8],
    lexemes: &[Lexeme],
    kind: AttributeKind,
) -> Result<(), AllocError> {
    match kind {
        AttributeKind::Feature(list)
        | AttributeKind::MacroUseOf(list)
        | AttributeKind::Derive(list)
        | AttributeKind::ProcMacroDerive(list) => {
            for item in &list_items(alloc, lexemes, list)? {
                push_list_item(out, alloc, text, lexemes, *item)?;
            }
            Ok(())
        }
        AttributeKind::Path(value) | AttributeKind::RecursionLimit(value) => {
            let string = string_text(text, value);
            write!(out, " {}", std::str::from_utf8(string).unwrap_or("?"))
        }
        _ => Ok(()),
    }
}

/// Adds an attribute.
fn push_attribute(
    out: &mut String,
    alloc: Global,
    text: &[u8],
    lexemes: &[Lexeme],
    attribute: Attribute,
    holds: bool,
) -> Result<(), AllocError> {
    out.push_str(word_for(attribute.kind, holds))?;
    push_input(out, alloc, text, lexemes, attribute.kind)?;
    out.push_str(if attribute.inner { ", inner" } else { "" })
}

/// Adds a line for each attribute of a table.
fn push_lines(
    out: &mut String,
    alloc: Global,
    options: &CfgOptions,
    text: &[u8],
    lexemes: &[Lexeme],
    table: &Attributes,
    active: &[bool],
) -> Result<(), AllocError> {
    for attribute in table.attributes() {
        let holds = may_be(options, text, table, attribute.kind);
        push_attribute(out, alloc, text, lexemes, *attribute, holds)?;
        let is_there = is_active(active, attribute.condition);
        out.push_str(if is_there { "\n" } else { ", left out\n" })?;
    }
    Ok(())
}

/// Adds each attribute, and how many errors and conditions there are.
pub(crate) fn push_attributes(
    out: &mut String,
    alloc: Global,
    manner: Manner<'_>,
    text: &str,
) -> Result<(), AllocError> {
    let text = text.as_bytes();
    let lexemes = read_lexemes(alloc, text, manner.edition)?;
    let table = read_attributes(alloc, text, lexemes.as_slice())?;
    let options = manner.options;
    let active = table.active_conditions(alloc, options, text)?;
    push_lines(
        out,
        alloc,
        options,
        text,
        lexemes.as_slice(),
        &table,
        active.as_slice(),
    )?;
    let (errors, conditions) = (table.errors().len(), table.conditions().len());
    write!(out, "{errors} errors, {conditions} conditions\n")
}
