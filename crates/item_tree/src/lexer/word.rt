//! The words that items and attributes are read by.
ghost use Rattle.std.specs.Prelude.{◌≡◌, codes};
ghost use Rattle.item_tree.specs.Words as spec;

use crate::items::openings::{since_2018, since_2024};
use dm_base::edition::Edition;

/// A word of the grammar of items, or of the attributes that matter to names. Whether it is one is told by the place
/// where it stands: `union`, `auto` and most of these are names elsewhere.
#[derive(Clone, Copy, PartialEq, Eq, Debug)]
pub enum Word {
    Mod,
    Use,
    Struct,
    Union,
    Enum,
    Fn,
    Const,
    Static,
    Type,
    Trait,
    Impl,
    Extern,
    Crate,
    MacroRules,
    Macro,
    Pub,
    In,
    /// `self`
    SelfValue,
    /// `Self`
    SelfType,
    Super,
    As,
    Unsafe,
    /// `async`, a name in the edition 2015.
    Async,
    /// `gen`, a name before the edition 2024.
    Gen,
    Default,
    Auto,
    Safe,
    Final,
    For,
    Where,
    Dyn,
    Mut,
    Ref,
    Move,
    Let,
    If,
    Else,
    Match,
    While,
    Return,
    Break,
    /// `_`
    Underscore,
    True,
    False,
    Not,
    All,
    Any,
    Cfg,
    CfgAttr,
    CfgIf,
    CfgSelect,
    Path,
    MacroUse,
    MacroExport,
    Derive,
    NoStd,
    NoCore,
    NoImplicitPrelude,
    PreludeImport,
    RecursionLimit,
    Feature,
    RustcCoherenceIsCore,
    ProcMacro,
    ProcMacroDerive,
    ProcMacroAttribute,
    RustcBuiltinMacro,
    NonExhaustive,
    Test,
    Bench,
    /// Any other identifier, and each raw one.
    Other,
}

/// The names of attributes that macros are, or make macros of functions.
#[tactic(auto, unfolding(crate::specs::Words::builtin_word))]
fn builtin_word(text: &[u8]) -> Word
    ensures { result ≡ spec.builtin_word text.now }
{
    if text == b"proc_macro".as_slice() {
        Word::ProcMacro
    } else if text == b"proc_macro_derive".as_slice() {
        Word::ProcMacroDerive
    } else if text == b"proc_macro_attribute".as_slice() {
        Word::ProcMacroAttribute
    } else if text == b"rustc_builtin_macro".as_slice() {
        Word::RustcBuiltinMacro
    } else if text == b"test".as_slice() {
        Word::Test
    } else if text == b"bench".as_slice() {
        Word::Bench
    } else {
        Word::Other
    }
}

/// The names of attributes.
#[tactic(auto, unfolding(crate::specs::Words::attribute_word))]
fn attribute_word(text: &[u8]) -> Word
    ensures { result ≡ spec.attribute_word text.now }
{
    if text == b"path".as_slice() {
        Word::Path
    } else if text == b"macro_use".as_slice() {
        Word::MacroUse
    } else if text == b"macro_export".as_slice() {
        Word::MacroExport
    } else if text == b"derive".as_slice() {
        Word::Derive
    } else if text == b"no_std".as_slice() {
        Word::NoStd
    } else if text == b"no_core".as_slice() {
        Word::NoCore
    } else if text == b"no_implicit_prelude".as_slice() {
        Word::NoImplicitPrelude
    } else if text == b"prelude_import".as_slice() {
        Word::PreludeImport
    } else if text == b"recursion_limit".as_slice() {
        Word::RecursionLimit
    } else if text == b"feature".as_slice() {
        Word::Feature
    } else if text == b"rustc_coherence_is_core".as_slice() {
        Word::RustcCoherenceIsCore
    } else if text == b"non_exhaustive".as_slice() {
        Word::NonExhaustive
    } else {
        builtin_word(text)
    }
}

/// The words of `cfg`.
#[tactic(auto, unfolding(crate::specs::Words::predicate_word))]
fn predicate_word(text: &[u8]) -> Word
    ensures { result ≡ spec.predicate_word text.now }
{
    if text == b"true".as_slice() {
        Word::True
    } else if text == b"false".as_slice() {
        Word::False
    } else if text == b"not".as_slice() {
        Word::Not
    } else if text == b"all".as_slice() {
        Word::All
    } else if text == b"any".as_slice() {
        Word::Any
    } else if text == b"cfg".as_slice() {
        Word::Cfg
    } else if text == b"cfg_attr".as_slice() {
        Word::CfgAttr
    } else if text == b"cfg_if".as_slice() {
        Word::CfgIf
    } else if text == b"cfg_select".as_slice() {
        Word::CfgSelect
    } else {
        attribute_word(text)
    }
}

/// The words of types, patterns and expressions.
#[tactic(auto, unfolding(crate::specs::Words::type_word))]
fn type_word(text: &[u8]) -> Word
    ensures { result ≡ spec.type_word text.now }
{
    if text == b"for".as_slice() {
        Word::For
    } else if text == b"where".as_slice() {
        Word::Where
    } else if text == b"dyn".as_slice() {
        Word::Dyn
    } else if text == b"mut".as_slice() {
        Word::Mut
    } else if text == b"ref".as_slice() {
        Word::Ref
    } else if text == b"move".as_slice() {
        Word::Move
    } else if text == b"let".as_slice() {
        Word::Let
    } else if text == b"if".as_slice() {
        Word::If
    } else if text == b"else".as_slice() {
        Word::Else
    } else if text == b"match".as_slice() {
        Word::Match
    } else if text == b"while".as_slice() {
        Word::While
    } else if text == b"return".as_slice() {
        Word::Return
    } else if text == b"break".as_slice() {
        Word::Break
    } else {
        predicate_word(text)
    }
}

/// The words that stand before those of items.
#[tactic(auto, unfolding(crate::specs::Words::qualifier_word))]
fn qualifier_word(text: &[u8], edition: Edition) -> Word
    ensures { result ≡ spec.qualifier_word edition text.now }
{
    if text == b"unsafe".as_slice() {
        Word::Unsafe
    } else if since_2018(edition) && text == b"async".as_slice() {
        Word::Async
    } else if since_2024(edition) && text == b"gen".as_slice() {
        Word::Gen
    } else if text == b"default".as_slice() {
        Word::Default
    } else if text == b"auto".as_slice() {
        Word::Auto
    } else if text == b"safe".as_slice() {
        Word::Safe
    } else if text == b"final".as_slice() {
        Word::Final
    } else {
        type_word(text)
    }
}

/// The words of visibilities and paths.
#[tactic(auto, unfolding(crate::specs::Words::path_word))]
fn path_word(text: &[u8], edition: Edition) -> Word
    ensures { result ≡ spec.path_word edition text.now }
{
    if text == b"pub".as_slice() {
        Word::Pub
    } else if text == b"in".as_slice() {
        Word::In
    } else if text == b"self".as_slice() {
        Word::SelfValue
    } else if text == b"Self".as_slice() {
        Word::SelfType
    } else if text == b"super".as_slice() {
        Word::Super
    } else if text == b"as".as_slice() {
        Word::As
    } else if text == b"_".as_slice() {
        Word::Underscore
    } else {
        qualifier_word(text, edition)
    }
}

/// The word that a name is.
#[tactic(auto, unfolding(crate::specs::Words::word_of))]
pub fn word_of(text: &[u8], edition: Edition) -> Word
    ensures { result ≡ spec.word_of edition text.now }
{
    if text == b"mod".as_slice() {
        Word::Mod
    } else if text == b"use".as_slice() {
        Word::Use
    } else if text == b"struct".as_slice() {
        Word::Struct
    } else if text == b"union".as_slice() {
        Word::Union
    } else if text == b"enum".as_slice() {
        Word::Enum
    } else if text == b"fn".as_slice() {
        Word::Fn
    } else if text == b"const".as_slice() {
        Word::Const
    } else if text == b"static".as_slice() {
        Word::Static
    } else if text == b"type".as_slice() {
        Word::Type
    } else if text == b"trait".as_slice() {
        Word::Trait
    } else if text == b"impl".as_slice() {
        Word::Impl
    } else if text == b"extern".as_slice() {
        Word::Extern
    } else if text == b"crate".as_slice() {
        Word::Crate
    } else if text == b"macro_rules".as_slice() {
        Word::MacroRules
    } else if text == b"macro".as_slice() {
        Word::Macro
    } else {
        path_word(text, edition)
    }
}
