//! Parses one word of a script; none where it has another form.
ghost use Rattle.std.specs.Prelude.{◌≡◌, ◌==◌, drop, slice_index};
ghost use Rattle.std.specs.Option.{option_map};
ghost use Rattle.dm_base.specs.Builtins.{builtin_words};
ghost use Rattle.dm_base.specs.Names.{find_name};
ghost use Rattle.defmap_script.specs.Words.{number, at_colon, at_slash, definition, editions, expectations, explicitness_words, import_word, item_kinds, macros_word, modes, path_kind, shadow_modes, types_word, use_leaf, value_import, values_word, visibility};

use dm_base::builtin_type::{BuiltinFloat, BuiltinInt, BuiltinType, BuiltinUint};
use dm_base::ids::{
    ConstId, Crate, EnumId, EnumVariantId, ExternCrateId, FunctionId, Macro2Id, MacroRulesId,
    ModuleId, ProcMacroId, StaticId, StructId, TraitId, TypeAliasId, UnionId, UseId, UseTreeIdx,
};
use dm_base::imports::{GlobId, ImportId, ImportOrExternCrate, ImportOrGlob};
use dm_base::item_ids::{AdtId, ItemKind, MacroId, ModuleDefId};
use dm_base::mod_path::PathKind;
use dm_base::per_ns::{Item, MacrosItem, TypesItem, ValuesItem};
use dm_base::source::Edition;
use dm_base::visibility::{Visibility, VisibilityExplicitness};
use dm_maps::modes::{BuiltinShadowMode, MacroSubNs};
use hir_def_map::result::ResolveMode;

/// Decimal digits of a value up to 4,294,967,295. Zeros may lead, a sign may not.
pub(crate) fn number(word: &str) -> Option<u32>
    ensures { result ≡ number word.now }
{
    if has_plus(word) {
        return None;
    }
    word.parse().ok()
}

/// Whether a plus stands first, the one sign that `parse` takes.
fn has_plus(word: &str) -> bool
    ensures { result ≡ (slice_index word.now 0 == 43) }
{
    match word.as_bytes().first() {
        None => false,
        Some(byte) => *byte == b'+',
    }
}

/// The parts before and behind the first `:`.
pub(crate) fn cut_at_colon(word: &str) -> Option<(&str, &str)>
    ensures { option_map (λ p. (p.0.now, p.1.now)) result ≡ at_colon word.now }
{
    word.split_once(':')
}

/// The parts before and behind the first `/`.
fn cut_at_slash(word: &str) -> Option<(&str, &str)>
    ensures { option_map (λ p. (p.0.now, p.1.now)) result ≡ at_slash word.now }
{
    word.split_once('/')
}

pub(crate) fn edition(word: &str) -> Option<Edition>
    ensures { result ≡ find_name word.now editions }
{
    match word {
        "2015" => Some(Edition::Edition2015),
        "2018" => Some(Edition::Edition2018),
        "2021" => Some(Edition::Edition2021),
        "2024" => Some(Edition::Edition2024),
        _ => None,
    }
}

pub(crate) fn item_kind(word: &str) -> Option<ItemKind>
    ensures { result ≡ find_name word.now item_kinds }
{
    match word {
        "fn" => Some(ItemKind::Function),
        "struct" => Some(ItemKind::Struct),
        "union" => Some(ItemKind::Union),
        "enum" => Some(ItemKind::Enum),
        "const" => Some(ItemKind::Const),
        "static" => Some(ItemKind::Static),
        "trait" => Some(ItemKind::Trait),
        "type" => Some(ItemKind::TypeAlias),
        _ => None,
    }
}

/// `mod:N`, an item kind and its number, `variant:N`, `builtin:` and a builtin type, or a macro: `macro2:N`, `rules:N`
/// or `proc:N`.
fn definition(word: &str) -> Option<ModuleDefId>
    ensures { result ≡ definition word.now }
{
    let (kind, rest) = cut_at_colon(word)?;
    if kind == "builtin" {
        return builtin_type(rest).map(ModuleDefId::BuiltinType);
    }
    let number = number(rest)?;
    match kind {
        "mod" => Some(ModuleDefId::ModuleId(ModuleId(number))),
        "fn" => Some(ModuleDefId::FunctionId(FunctionId(number))),
        "struct" => Some(ModuleDefId::AdtId(AdtId::StructId(StructId(number)))),
        "union" => Some(ModuleDefId::AdtId(AdtId::UnionId(UnionId(number)))),
        "enum" => Some(ModuleDefId::AdtId(AdtId::EnumId(EnumId(number)))),
        "const" => Some(ModuleDefId::ConstId(ConstId(number))),
        "static" => Some(ModuleDefId::StaticId(StaticId(number))),
        "trait" => Some(ModuleDefId::TraitId(TraitId(number))),
        "type" => Some(ModuleDefId::TypeAliasId(TypeAliasId(number))),
        "variant" => Some(ModuleDefId::EnumVariantId(EnumVariantId(number))),
        "macro2" => Some(ModuleDefId::MacroId(MacroId::Macro2Id(Macro2Id(number)))),
        "rules" => Some(ModuleDefId::MacroId(MacroId::MacroRulesId(MacroRulesId(number)))),
        "proc" => Some(ModuleDefId::MacroId(MacroId::ProcMacroId(ProcMacroId(number)))),
        _ => None,
    }
}

fn builtin_type(word: &str) -> Option<BuiltinType>
    ensures { result ≡ find_name word.now builtin_words }
{
    match word {
        "char" => Some(BuiltinType::Char),
        "bool" => Some(BuiltinType::Bool),
        "str" => Some(BuiltinType::Str),
        _ => number_type(word),
    }
}

/// A builtin type of numbers.
fn number_type(word: &str) -> Option<BuiltinType>
    ensures { result ≡ find_name word.now (drop 3 builtin_words) }
{
    if let Some(int) = BuiltinInt::from_suffix(word) {
        return Some(BuiltinType::Int(int));
    }
    if let Some(uint) = BuiltinUint::from_suffix(word) {
        return Some(BuiltinType::Uint(uint));
    }
    match BuiltinFloat::from_suffix(word) {
        Some(float) => Some(BuiltinType::Float(float)),
        None => None,
    }
}

/// `pub`, `crate:N`, `in:N:explicit` or `in:N:implicit`.
pub(crate) fn visibility(word: &str) -> Option<Visibility>
    ensures { result ≡ visibility word.now }
{
    if word == "pub" {
        return Some(Visibility::Public);
    }
    let (kind, rest) = cut_at_colon(word)?;
    match kind {
        "crate" => Some(Visibility::PubCrate(Crate(number(rest)?))),
        "in" => {
            let (module, how) = cut_at_colon(rest)?;
            Some(Visibility::Module(ModuleId(number(module)?), explicitness(how)?))
        }
        _ => None,
    }
}

fn explicitness(word: &str) -> Option<VisibilityExplicitness>
    ensures { result ≡ find_name word.now explicitness_words }
{
    match word {
        "explicit" => Some(VisibilityExplicitness::Explicit),
        "implicit" => Some(VisibilityExplicitness::Implicit),
        _ => None,
    }
}

/// `none`, `import:U:I`, `glob:U:I` or `extern:N`.
pub(crate) fn import(word: &str) -> Option<Option<ImportOrExternCrate>>
    ensures { result ≡ import_word word.now }
{
    if word == "none" {
        return Some(None);
    }
    let (kind, rest) = cut_at_colon(word)?;
    match kind {
        "extern" => Some(Some(ImportOrExternCrate::ExternCrate(ExternCrateId(number(rest)?)))),
        "import" => {
            let (use_, idx) = use_leaf(rest)?;
            Some(Some(ImportOrExternCrate::Import(ImportId { use_, idx })))
        }
        "glob" => {
            let (use_, idx) = use_leaf(rest)?;
            Some(Some(ImportOrExternCrate::Glob(GlobId { use_, idx })))
        }
        _ => None,
    }
}

/// `U:I`, a use and a place in its tree.
fn use_leaf(word: &str) -> Option<(UseId, UseTreeIdx)>
    ensures { result ≡ use_leaf word.now }
{
    let (use_, idx) = cut_at_colon(word)?;
    Some((UseId(number(use_)?), UseTreeIdx(number(idx)?)))
}

/// `-`, or a definition, a visibility and an import.
pub(crate) fn types_item(word: &str) -> Option<Option<TypesItem>>
    ensures { result ≡ types_word word.now }
{
    if word == "-" {
        return Some(None);
    }
    let (def, rest) = cut_at_slash(word)?;
    let (vis, how) = cut_at_slash(rest)?;
    Some(Some(Item {
        def: definition(def)?,
        vis: visibility(vis)?,
        import: import(how)?,
    }))
}

/// As a types item, but no `extern crate` item imports a value.
pub(crate) fn values_item(word: &str) -> Option<Option<ValuesItem>>
    ensures { result ≡ values_word word.now }
{
    match types_item(word)? {
        None => Some(None),
        Some(Item { def, vis, import }) => Some(Some(Item {
            def,
            vis,
            import: value_import(import)?,
        })),
    }
}

fn value_import(import: Option<ImportOrExternCrate>) -> Option<Option<ImportOrGlob>>
    ensures { result ≡ value_import import }
{
    match import {
        None => Some(None),
        Some(import) => Some(Some(import.import_or_glob()?)),
    }
}

/// As a types item, but the definition has to be a macro.
pub(crate) fn macros_item(word: &str) -> Option<Option<MacrosItem>>
    ensures { result ≡ macros_word word.now }
{
    match types_item(word)? {
        None => Some(None),
        Some(
            Item {
                def: ModuleDefId::MacroId(def),
                vis,
                import,
            },
        ) => Some(Some(Item { def, vis, import })),
        Some(_) => None,
    }
}

/// `plain`, `abs`, `crate`, `dollar:N`, or `super:K` with K at most 255.
pub(crate) fn path_kind(word: &str) -> Option<PathKind>
    ensures { result ≡ path_kind word.now }
{
    match word {
        "plain" => Some(PathKind::Plain),
        "abs" => Some(PathKind::Abs),
        "crate" => Some(PathKind::Crate),
        _ => {
            let (kind, digits) = cut_at_colon(word)?;
            match kind {
                "dollar" => Some(PathKind::DollarCrate(Crate(number(digits)?))),
                "super" => Some(PathKind::Super(u8::try_from(number(digits)?).ok()?)),
                _ => None,
            }
        }
    }
}

pub(crate) fn resolve_mode(word: &str) -> Option<ResolveMode>
    ensures { result ≡ find_name word.now modes }
{
    match word {
        "import" => Some(ResolveMode::Import),
        "other" => Some(ResolveMode::Other),
        _ => None,
    }
}

pub(crate) fn shadow_mode(word: &str) -> Option<BuiltinShadowMode>
    ensures { result ≡ find_name word.now shadow_modes }
{
    match word {
        "module" => Some(BuiltinShadowMode::Module),
        "other" => Some(BuiltinShadowMode::Other),
        _ => None,
    }
}

/// `any` where no kind of macro is expected, `bang` or `attr`.
pub(crate) fn expected_macro(word: &str) -> Option<Option<MacroSubNs>>
    ensures { result ≡ find_name word.now expectations }
{
    match word {
        "any" => Some(None),
        "bang" => Some(Some(MacroSubNs::Bang)),
        "attr" => Some(Some(MacroSubNs::Attr)),
        _ => None,
    }
}
