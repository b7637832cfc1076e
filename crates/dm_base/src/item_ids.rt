//! Ids that stand for one of several kinds of definition, such as `ModuleDefId`.
ghost use Rattle.std.specs.Prelude.{◌≡◌};
ghost use Rattle.dm_base.specs.declared.item_ids.AdtId.TheVariants as adts;
ghost use Rattle.dm_base.specs.declared.item_ids.MacroId.TheVariants as macros;
ghost use Rattle.dm_base.specs.declared.item_ids.ModuleDefId.TheVariants as defs;
ghost use Rattle.dm_base.specs.declared.item_ids.VariantId.TheVariants as variants;
ghost use Rattle.dm_base.specs.declared.item_ids.AssocItemId.TheVariants as assoc_items;
ghost use Rattle.dm_base.specs.declared.item_ids.ItemContainerId.TheVariants as containers;

use crate::builtin_type::BuiltinType;
use crate::ids::{
    ConstId, EnumId, EnumVariantId, ExternBlockId, FunctionId, ImplId, Macro2Id, MacroRulesId,
    ModuleId, ProcMacroId, StaticId, StructId, TraitId, TypeAliasId, UnionId,
};
use std::alloc::Global;
use std::default::MadeWith;

/// A struct, a union or an enum.
#[derive(Clone, Copy, PartialEq, Eq, PartialOrd, Ord, Hash, Debug)]
pub enum AdtId {
    StructId(StructId),
    UnionId(UnionId),
    EnumId(EnumId),
}

impl From<StructId> for AdtId {
    ghost from_gives = { λ id result. result ≡ adts.StructId id };

    fn from(id: StructId) -> AdtId {
        AdtId::StructId(id)
    }
}

impl From<UnionId> for AdtId {
    ghost from_gives = { λ id result. result ≡ adts.UnionId id };

    fn from(id: UnionId) -> AdtId {
        AdtId::UnionId(id)
    }
}

impl From<EnumId> for AdtId {
    ghost from_gives = { λ id result. result ≡ adts.EnumId id };

    fn from(id: EnumId) -> AdtId {
        AdtId::EnumId(id)
    }
}

/// A macro.
#[derive(Clone, Copy, PartialEq, Eq, PartialOrd, Ord, Hash, Debug)]
pub enum MacroId {
    Macro2Id(Macro2Id),
    MacroRulesId(MacroRulesId),
    ProcMacroId(ProcMacroId),
}

/// The filler of the unused inline slots of a `SmallVec` of macros.
impl MadeWith<Global> for MacroId {
    fn made_with(_alloc: Global) -> MacroId {
        MacroId::Macro2Id(Macro2Id(0))
    }
}

impl From<Macro2Id> for MacroId {
    ghost from_gives = { λ id result. result ≡ macros.Macro2Id id };

    fn from(id: Macro2Id) -> MacroId {
        MacroId::Macro2Id(id)
    }
}

impl From<MacroRulesId> for MacroId {
    ghost from_gives = { λ id result. result ≡ macros.MacroRulesId id };

    fn from(id: MacroRulesId) -> MacroId {
        MacroId::MacroRulesId(id)
    }
}

impl From<ProcMacroId> for MacroId {
    ghost from_gives = { λ id result. result ≡ macros.ProcMacroId id };

    fn from(id: ProcMacroId) -> MacroId {
        MacroId::ProcMacroId(id)
    }
}

/// A definition that a name in a module can resolve to.
#[derive(Clone, Copy, PartialEq, Eq, Hash, Debug)]
pub enum ModuleDefId {
    ModuleId(ModuleId),
    FunctionId(FunctionId),
    AdtId(AdtId),
    EnumVariantId(EnumVariantId),
    ConstId(ConstId),
    StaticId(StaticId),
    TraitId(TraitId),
    TypeAliasId(TypeAliasId),
    BuiltinType(BuiltinType),
    MacroId(MacroId),
}

impl From<ModuleId> for ModuleDefId {
    ghost from_gives = { λ id result. result ≡ defs.ModuleId id };

    fn from(id: ModuleId) -> ModuleDefId {
        ModuleDefId::ModuleId(id)
    }
}

impl From<FunctionId> for ModuleDefId {
    ghost from_gives = { λ id result. result ≡ defs.FunctionId id };

    fn from(id: FunctionId) -> ModuleDefId {
        ModuleDefId::FunctionId(id)
    }
}

impl From<AdtId> for ModuleDefId {
    ghost from_gives = { λ id result. result ≡ defs.AdtId id };

    fn from(id: AdtId) -> ModuleDefId {
        ModuleDefId::AdtId(id)
    }
}

impl From<EnumVariantId> for ModuleDefId {
    ghost from_gives = { λ id result. result ≡ defs.EnumVariantId id };

    fn from(id: EnumVariantId) -> ModuleDefId {
        ModuleDefId::EnumVariantId(id)
    }
}

impl From<ConstId> for ModuleDefId {
    ghost from_gives = { λ id result. result ≡ defs.ConstId id };

    fn from(id: ConstId) -> ModuleDefId {
        ModuleDefId::ConstId(id)
    }
}

impl From<StaticId> for ModuleDefId {
    ghost from_gives = { λ id result. result ≡ defs.StaticId id };

    fn from(id: StaticId) -> ModuleDefId {
        ModuleDefId::StaticId(id)
    }
}

impl From<TraitId> for ModuleDefId {
    ghost from_gives = { λ id result. result ≡ defs.TraitId id };

    fn from(id: TraitId) -> ModuleDefId {
        ModuleDefId::TraitId(id)
    }
}

impl From<TypeAliasId> for ModuleDefId {
    ghost from_gives = { λ id result. result ≡ defs.TypeAliasId id };

    fn from(id: TypeAliasId) -> ModuleDefId {
        ModuleDefId::TypeAliasId(id)
    }
}

impl From<BuiltinType> for ModuleDefId {
    ghost from_gives = { λ id result. result ≡ defs.BuiltinType id };

    fn from(id: BuiltinType) -> ModuleDefId {
        ModuleDefId::BuiltinType(id)
    }
}

impl From<MacroId> for ModuleDefId {
    ghost from_gives = { λ id result. result ≡ defs.MacroId id };

    fn from(id: MacroId) -> ModuleDefId {
        ModuleDefId::MacroId(id)
    }
}

/// What has fields: a variant, a struct or a union.
#[derive(Clone, Copy, PartialEq, Eq, PartialOrd, Ord, Hash, Debug)]
pub enum VariantId {
    EnumVariantId(EnumVariantId),
    StructId(StructId),
    UnionId(UnionId),
}

impl From<EnumVariantId> for VariantId {
    ghost from_gives = { λ id result. result ≡ variants.EnumVariantId id };

    fn from(id: EnumVariantId) -> VariantId {
        VariantId::EnumVariantId(id)
    }
}

impl From<StructId> for VariantId {
    ghost from_gives = { λ id result. result ≡ variants.StructId id };

    fn from(id: StructId) -> VariantId {
        VariantId::StructId(id)
    }
}

impl From<UnionId> for VariantId {
    ghost from_gives = { λ id result. result ≡ variants.UnionId id };

    fn from(id: UnionId) -> VariantId {
        VariantId::UnionId(id)
    }
}

/// An item of a trait, an `impl` or an `extern` block.
#[derive(Clone, Copy, PartialEq, Eq, PartialOrd, Ord, Hash, Debug)]
pub enum AssocItemId {
    FunctionId(FunctionId),
    ConstId(ConstId),
    TypeAliasId(TypeAliasId),
}

impl From<FunctionId> for AssocItemId {
    ghost from_gives = { λ id result. result ≡ assoc_items.FunctionId id };

    fn from(id: FunctionId) -> AssocItemId {
        AssocItemId::FunctionId(id)
    }
}

impl From<ConstId> for AssocItemId {
    ghost from_gives = { λ id result. result ≡ assoc_items.ConstId id };

    fn from(id: ConstId) -> AssocItemId {
        AssocItemId::ConstId(id)
    }
}

impl From<TypeAliasId> for AssocItemId {
    ghost from_gives = { λ id result. result ≡ assoc_items.TypeAliasId id };

    fn from(id: TypeAliasId) -> AssocItemId {
        AssocItemId::TypeAliasId(id)
    }
}

/// What an associated item lies in.
#[derive(Clone, Copy, PartialEq, Eq, PartialOrd, Ord, Hash, Debug)]
pub enum ItemContainerId {
    ExternBlockId(ExternBlockId),
    ModuleId(ModuleId),
    ImplId(ImplId),
    TraitId(TraitId),
}

impl From<ExternBlockId> for ItemContainerId {
    ghost from_gives = { λ id result. result ≡ containers.ExternBlockId id };

    fn from(id: ExternBlockId) -> ItemContainerId {
        ItemContainerId::ExternBlockId(id)
    }
}

impl From<ModuleId> for ItemContainerId {
    ghost from_gives = { λ id result. result ≡ containers.ModuleId id };

    fn from(id: ModuleId) -> ItemContainerId {
        ItemContainerId::ModuleId(id)
    }
}

impl From<ImplId> for ItemContainerId {
    ghost from_gives = { λ id result. result ≡ containers.ImplId id };

    fn from(id: ImplId) -> ItemContainerId {
        ItemContainerId::ImplId(id)
    }
}

impl From<TraitId> for ItemContainerId {
    ghost from_gives = { λ id result. result ≡ containers.TraitId id };

    fn from(id: TraitId) -> ItemContainerId {
        ItemContainerId::TraitId(id)
    }
}

/// The kinds of items that a module declares.
#[derive(Clone, Copy, PartialEq, Eq, Hash, Debug)]
pub enum ItemKind {
    Function,
    Struct,
    Union,
    Enum,
    Const,
    Static,
    Trait,
    TypeAlias,
}
