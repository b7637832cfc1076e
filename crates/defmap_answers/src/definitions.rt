//! Definitions, as they are written: what kind of thing, and its path.
use crate::crates::Crates;
use crate::shown::module_path;
use dm_base::ids::{EnumId, EnumVariantId, ModuleId};
use dm_base::item_ids::{AdtId, ModuleDefId};
use std::alloc::{AllocError, Global};

/// How a kind of definition is called.
pub(crate) fn kind_word(def: ModuleDefId) -> &'static str {
    match def {
        ModuleDefId::ModuleId(_) => "mod",
        ModuleDefId::FunctionId(_) => "fn",
        ModuleDefId::AdtId(AdtId::StructId(_)) => "struct",
        ModuleDefId::AdtId(AdtId::UnionId(_)) => "union",
        ModuleDefId::AdtId(AdtId::EnumId(_)) => "enum",
        ModuleDefId::EnumVariantId(_) => "variant",
        ModuleDefId::ConstId(_) => "const",
        ModuleDefId::StaticId(_) => "static",
        ModuleDefId::TraitId(_) => "trait",
        ModuleDefId::TypeAliasId(_) => "type",
        ModuleDefId::BuiltinType(_) => "builtin type",
        ModuleDefId::MacroId(_) => "macro",
    }
}

/// The same of what a name is as a value: a struct and a variant are their constructors there.
pub(crate) fn value_word(def: ModuleDefId) -> &'static str {
    match def {
        ModuleDefId::AdtId(_) | ModuleDefId::EnumVariantId(_) => "constructor",
        _ => kind_word(def),
    }
}

/// The path of what a module declares.
fn path_in<C: Crates>(
    alloc: Global,
    crates: &C,
    home: ModuleId,
    def: ModuleDefId,
) -> Result<String, AllocError> {
    let path = module_path(alloc, crates, home)?;
    match crates.declared_name(home, def) {
        None => Ok(path),
        Some(name) => format!(in alloc; "{path}::{}", name.as_str()),
    }
}

/// The path of a variant.
fn variant_path<C: Crates>(
    alloc: Global,
    crates: &C,
    variant: EnumVariantId,
) -> Result<String, AllocError> {
    let Some(e) = crates.enum_of(variant) else {
        return String::from_str(alloc, "?");
    };
    let def = ModuleDefId::AdtId(AdtId::EnumId(e));
    let path = match crates.item_home(def) {
        None => String::from_str(alloc, "?")?,
        Some(home) => path_in(alloc, crates, home, def)?,
    };
    match crates.variant_name(e, variant) {
        None => Ok(path),
        Some(name) => format!(in alloc; "{path}::{}", name.as_str()),
    }
}

/// The path of a definition.
pub(crate) fn definition_path<C: Crates>(
    alloc: Global,
    crates: &C,
    def: ModuleDefId,
) -> Result<String, AllocError> {
    let home = match def {
        ModuleDefId::ModuleId(m) => return module_path(alloc, crates, m),
        ModuleDefId::BuiltinType(builtin) => return String::from_str(alloc, builtin.as_str()),
        ModuleDefId::EnumVariantId(variant) => return variant_path(alloc, crates, variant),
        _ => crates.item_home(def),
    };
    match home {
        None => String::from_str(alloc, "?"),
        Some(home) => path_in(alloc, crates, home, def),
    }
}

/// A definition, as its kind and its path.
pub(crate) fn definition_text<C: Crates>(
    alloc: Global,
    crates: &C,
    def: ModuleDefId,
) -> Result<String, AllocError> {
    let path = definition_path(alloc, crates, def)?;
    format!(in alloc; "{} {path}", kind_word(def))
}
