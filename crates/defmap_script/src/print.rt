//! Prints answers.
ghost use Rattle.std.specs.Prelude.{◌≡◌, Some, IfOk, string_bytes};
ghost use Rattle.std.specs.Option.{option_map};
ghost use Rattle.defmap_script.specs.Texts.{macro_text, adt_text, def_text, visibility_text, import_text, item_text, items_text, widened_value, widened_macro, status_text, index_text, flags_text, answer_text};

use dm_base::imports::ImportOrExternCrate;
use dm_base::item_ids::{AdtId, MacroId, ModuleDefId};
use dm_base::per_ns::{Item, MacrosItem, PerNs, TypesItem, ValuesItem};
use dm_base::visibility::{Visibility, VisibilityExplicitness};
use hir_def_map::result::{ReachedFixedPoint, ResolvePathResult, ResolvePathResultPrefixInfo};
use std::alloc::{AllocError, Global};
use std::fmt;

/// The line of an answer, without its line feed: what it found among types, values and macros, its status, the index
/// of the first segment that it leaves unresolved, and its flags.
///
/// Fails where an allocation fails.
pub fn answer_text(alloc: Global, answer: &ResolvePathResult) -> Result<String, AllocError>
    ensures { IfOk result (λ text. string_bytes text ≡ answer_text answer.now) }
{
    let text = format!(in alloc; "{}", AnswerWords(*answer))?;
    Ok(text)
}

/// The words of an answer.
#[derive(Clone, Copy)]
pub struct AnswerWords(pub ResolvePathResult);

impl fmt::Display for AnswerWords {
    ghost output = { λ w. Some (answer_text w.0) };

    fn fmt<W: fmt::Write>(&self, f: &mut fmt::Formatter<W>) -> fmt::Result {
        write!(
            f,
            "{} {} {} {}",
            ItemWords(self.0.resolved_def),
            StatusWord(self.0.reached_fixedpoint),
            IndexWord(self.0.segment_index),
            FlagsWord(self.0.prefix_info)
        )
    }
}

/// The words of a type, a value and a macro.
#[derive(Clone, Copy)]
pub struct ItemWords(pub PerNs);

impl fmt::Display for ItemWords {
    ghost output = { λ w. Some (items_text w.0) };

    fn fmt<W: fmt::Write>(&self, f: &mut fmt::Formatter<W>) -> fmt::Result {
        write!(
            f,
            "{} {} {}",
            ItemWord(self.0.types),
            ValueWord(self.0.values),
            MacroItemWord(self.0.macros)
        )
    }
}

/// The word of a macro.
#[derive(Clone, Copy)]
pub struct MacroWord(pub MacroId);

impl fmt::Display for MacroWord {
    ghost output = { λ w. Some (macro_text w.0) };

    fn fmt<W: fmt::Write>(&self, f: &mut fmt::Formatter<W>) -> fmt::Result {
        match self.0 {
            MacroId::Macro2Id(id) => write!(f, "macro2:{}", id.0),
            MacroId::MacroRulesId(id) => write!(f, "rules:{}", id.0),
            MacroId::ProcMacroId(id) => write!(f, "proc:{}", id.0),
        }
    }
}

/// The word of a struct, a union or an enum.
#[derive(Clone, Copy)]
pub struct AdtWord(pub AdtId);

impl fmt::Display for AdtWord {
    ghost output = { λ w. Some (adt_text w.0) };

    fn fmt<W: fmt::Write>(&self, f: &mut fmt::Formatter<W>) -> fmt::Result {
        match self.0 {
            AdtId::StructId(id) => write!(f, "struct:{}", id.0),
            AdtId::UnionId(id) => write!(f, "union:{}", id.0),
            AdtId::EnumId(id) => write!(f, "enum:{}", id.0),
        }
    }
}

/// The word of a definition.
#[derive(Clone, Copy)]
pub struct DefWord(pub ModuleDefId);

impl fmt::Display for DefWord {
    ghost output = { λ w. Some (def_text w.0) };

    fn fmt<W: fmt::Write>(&self, f: &mut fmt::Formatter<W>) -> fmt::Result {
        match self.0 {
            ModuleDefId::ModuleId(id) => write!(f, "mod:{}", id.0),
            ModuleDefId::FunctionId(id) => write!(f, "fn:{}", id.0),
            ModuleDefId::AdtId(id) => write!(f, "{}", AdtWord(id)),
            ModuleDefId::EnumVariantId(id) => write!(f, "variant:{}", id.0),
            ModuleDefId::ConstId(id) => write!(f, "const:{}", id.0),
            ModuleDefId::StaticId(id) => write!(f, "static:{}", id.0),
            ModuleDefId::TraitId(id) => write!(f, "trait:{}", id.0),
            ModuleDefId::TypeAliasId(id) => write!(f, "type:{}", id.0),
            ModuleDefId::BuiltinType(builtin) => write!(f, "builtin:{builtin}"),
            ModuleDefId::MacroId(id) => write!(f, "{}", MacroWord(id)),
        }
    }
}

/// The word of a visibility.
#[derive(Clone, Copy)]
pub struct VisibilityWord(pub Visibility);

impl fmt::Display for VisibilityWord {
    ghost output = { λ w. Some (visibility_text w.0) };

    fn fmt<W: fmt::Write>(&self, f: &mut fmt::Formatter<W>) -> fmt::Result {
        match self.0 {
            Visibility::Module(id, VisibilityExplicitness::Explicit) => write!(
                f,
                "in:{}:explicit",
                id.0
            ),
            Visibility::Module(id, VisibilityExplicitness::Implicit) => write!(
                f,
                "in:{}:implicit",
                id.0
            ),
            Visibility::PubCrate(id) => write!(f, "crate:{}", id.0),
            Visibility::Public => f.write_str("pub"),
        }
    }
}

/// The word of an import.
#[derive(Clone, Copy)]
pub struct ImportWord(pub Option<ImportOrExternCrate>);

impl fmt::Display for ImportWord {
    ghost output = { λ w. Some (import_text w.0) };

    fn fmt<W: fmt::Write>(&self, f: &mut fmt::Formatter<W>) -> fmt::Result {
        match self.0 {
            None => f.write_str("none"),
            Some(ImportOrExternCrate::Import(id)) => write!(f, "import:{}:{}", id.use_.0, id.idx.0),
            Some(ImportOrExternCrate::Glob(id)) => write!(f, "glob:{}:{}", id.use_.0, id.idx.0),
            Some(ImportOrExternCrate::ExternCrate(id)) => write!(f, "extern:{}", id.0),
        }
    }
}

/// The word of an item, or `-` where there is none.
#[derive(Clone, Copy)]
pub struct ItemWord(pub Option<TypesItem>);

impl fmt::Display for ItemWord {
    ghost output = { λ w. Some (item_text w.0) };

    fn fmt<W: fmt::Write>(&self, f: &mut fmt::Formatter<W>) -> fmt::Result {
        match self.0 {
            None => f.write_str("-"),
            Some(item) => write!(
                f,
                "{}/{}/{}",
                DefWord(item.def),
                VisibilityWord(item.vis),
                ImportWord(item.import)
            ),
        }
    }
}

/// The word of a value, or `-` where there is none.
#[derive(Clone, Copy)]
pub struct ValueWord(pub Option<ValuesItem>);

impl fmt::Display for ValueWord {
    ghost output = { λ w. Some (item_text (option_map widened_value w.0)) };

    fn fmt<W: fmt::Write>(&self, f: &mut fmt::Formatter<W>) -> fmt::Result {
        fmt::Display::fmt(&ItemWord(as_types(self.0)), f)
    }
}

/// The word of a macro's item, or `-` where there is none.
#[derive(Clone, Copy)]
pub struct MacroItemWord(pub Option<MacrosItem>);

impl fmt::Display for MacroItemWord {
    ghost output = { λ w. Some (item_text (option_map widened_macro w.0)) };

    fn fmt<W: fmt::Write>(&self, f: &mut fmt::Formatter<W>) -> fmt::Result {
        fmt::Display::fmt(&ItemWord(macros_as_types(self.0)), f)
    }
}

/// A value, its import among those of types.
fn as_types(item: Option<ValuesItem>) -> Option<TypesItem>
    ensures { result ≡ option_map widened_value item }
{
    match item {
        None => None,
        Some(Item { def, vis, import }) => Some(Item {
            def,
            vis,
            import: import.map(ImportOrExternCrate::from),
        }),
    }
}

/// A macro among the definitions of types.
fn macros_as_types(item: Option<MacrosItem>) -> Option<TypesItem>
    ensures { result ≡ option_map widened_macro item }
{
    match item {
        None => None,
        Some(Item { def, vis, import }) => Some(Item {
            def: ModuleDefId::MacroId(def),
            vis,
            import,
        }),
    }
}

/// The word of a status.
#[derive(Clone, Copy)]
struct StatusWord(ReachedFixedPoint);

impl fmt::Display for StatusWord {
    ghost output = { λ w. Some (status_text w.0) };

    fn fmt<W: fmt::Write>(&self, f: &mut fmt::Formatter<W>) -> fmt::Result {
        match self.0 {
            ReachedFixedPoint::Yes => f.write_str("yes"),
            ReachedFixedPoint::No => f.write_str("no"),
        }
    }
}

/// The word of an index, or `-`.
#[derive(Clone, Copy)]
struct IndexWord(Option<usize>);

impl fmt::Display for IndexWord {
    ghost output = { λ w. Some (index_text w.0) };

    fn fmt<W: fmt::Write>(&self, f: &mut fmt::Formatter<W>) -> fmt::Result {
        match self.0 {
            None => f.write_str("-"),
            Some(index) => write!(f, "{index}"),
        }
    }
}

/// The word of an answer's flags.
#[derive(Clone, Copy)]
struct FlagsWord(ResolvePathResultPrefixInfo);

impl fmt::Display for FlagsWord {
    ghost output = { λ w. Some (flags_text w.0) };

    fn fmt<W: fmt::Write>(&self, f: &mut fmt::Formatter<W>) -> fmt::Result {
        match (self.0.differing_crate, self.0.enum_variant) {
            (true, true) => f.write_str("de"),
            (true, false) => f.write_str("d"),
            (false, true) => f.write_str("e"),
            (false, false) => f.write_str("-"),
        }
    }
}
