//! Parses the words of the lines that build.
ghost use Rattle.std.specs.Prelude.{◌≡◌};
ghost use Rattle.std.specs.Option.{option_map};
ghost use Rattle.dm_base.specs.Names.{find_name};
ghost use Rattle.defmap_script.specs.Words.{by_form};
ghost use Rattle.defmap_script.specs.BuildWords.{behind, expander, expander_forms, extern_crate, macro_id, macro_loc, map_name, proc_kinds, shapes, versions};

use crate::words::{cut_at_colon, number};
use dm_base::fields_shape::FieldsShape;
use dm_base::ids::{BlockId, Crate, ExternCrateId, Macro2Id, MacroRulesId, ProcMacroId};
use dm_base::item_ids::MacroId;
use dm_base::macros::{MacroCallStyles, MacroExpander, MacroLoc, ProcMacroKind};
use dm_maps::rules::Rules;

/// A map, by the number of its crate or of its block.
#[derive(Clone, Copy)]
pub(crate) enum MapName {
    Crate(Crate),
    Block(BlockId),
}

/// `c` and the number of a crate, or `b` and that of a block.
pub(crate) fn map_name(word: &str) -> Option<MapName>
    ensures { result ≡ map_name word.now }
{
    match behind_c(word) {
        Some(digits) => Some(MapName::Crate(Crate(number(digits)?))),
        None => Some(MapName::Block(BlockId(number(behind_b(word)?)?))),
    }
}

/// What is behind a first `c`.
fn behind_c(word: &str) -> Option<&str>
    ensures { option_map (λ rest. rest.now) result ≡ behind 99 word.now }
{
    word.strip_prefix('c')
}

/// What is behind a first `b`.
fn behind_b(word: &str) -> Option<&str>
    ensures { option_map (λ rest. rest.now) result ≡ behind 98 word.now }
{
    word.strip_prefix('b')
}

pub(crate) fn shape(word: &str) -> Option<FieldsShape>
    ensures { result ≡ find_name word.now shapes }
{
    match word {
        "record" => Some(FieldsShape::Record),
        "tuple" => Some(FieldsShape::Tuple),
        "unit" => Some(FieldsShape::Unit),
        _ => None,
    }
}

/// `1` or `2`, as they are written here.
pub(crate) fn version(word: &str) -> Option<Rules>
    ensures { result ≡ find_name word.now versions }
{
    match word {
        "1" => Some(Rules::V1),
        "2" => Some(Rules::V2),
        _ => None,
    }
}

/// `macro2:N`, `rules:N` or `proc:N`.
pub(crate) fn macro_id(word: &str) -> Option<MacroId>
    ensures { result ≡ macro_id word.now }
{
    let (kind, digits) = cut_at_colon(word)?;
    match kind {
        "macro2" => Some(MacroId::Macro2Id(Macro2Id(number(digits)?))),
        "rules" => Some(MacroId::MacroRulesId(MacroRulesId(number(digits)?))),
        "proc" => Some(MacroId::ProcMacroId(ProcMacroId(number(digits)?))),
        _ => None,
    }
}

/// What a macro is, by the words of its kind and its style.
pub(crate) fn macro_loc(kind: &str, style: &str) -> Option<MacroLoc>
    ensures { result ≡ macro_loc kind.now style.now }
{
    match kind {
        "macro2" => Some(MacroLoc::Macro2(expander(style)?)),
        "rules" => Some(MacroLoc::MacroRules(expander(style)?)),
        "proc" => Some(MacroLoc::Proc(proc_kind(style)?)),
        _ => None,
    }
}

/// `builtin`, `eager`, `attr`, `derive`, `unimplemented`, or `declarative:B` with B, the bits of its styles, at most 7.
fn expander(word: &str) -> Option<MacroExpander>
    ensures { result ≡ expander word.now }
{
    match word {
        "builtin" => Some(MacroExpander::BuiltIn),
        "eager" => Some(MacroExpander::BuiltInEager),
        "attr" => Some(MacroExpander::BuiltInAttr),
        "derive" => Some(MacroExpander::BuiltInDerive),
        "unimplemented" => Some(MacroExpander::UnimplementedBuiltIn),
        _ => declarative(word),
    }
}

/// `declarative:B` with B at most 7.
fn declarative(word: &str) -> Option<MacroExpander>
    ensures { result ≡ by_form expander_forms word.now }
{
    let (kind, digits) = cut_at_colon(word)?;
    if kind != "declarative" {
        return None;
    }
    let bits = u8::try_from(number(digits)?).ok()?;
    if bits > 7 {
        return None;
    }
    Some(MacroExpander::Declarative {
        styles: MacroCallStyles(bits),
    })
}

fn proc_kind(word: &str) -> Option<ProcMacroKind>
    ensures { result ≡ find_name word.now proc_kinds }
{
    match word {
        "custom_derive" => Some(ProcMacroKind::CustomDerive),
        "bang" => Some(ProcMacroKind::Bang),
        "attr" => Some(ProcMacroKind::Attr),
        _ => None,
    }
}

/// `none`, or the number of an extern crate.
pub(crate) fn extern_crate(word: &str) -> Option<Option<ExternCrateId>>
    ensures { result ≡ extern_crate word.now }
{
    if word == "none" {
        return Some(None);
    }
    Some(Some(ExternCrateId(number(word)?)))
}
