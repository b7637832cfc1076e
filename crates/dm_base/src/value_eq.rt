//! `ValueEq`: types whose `==` is structural, so that equal values are the same value.
ghost use Rattle.std.specs.Prelude.{◌≡◌, true};
ghost use Rattle.std.proofs.Common.{rules};

use crate::builtin_type::{BuiltinFloat, BuiltinInt, BuiltinType, BuiltinUint};
use crate::fields_shape::FieldsShape;
use crate::ids::{
    AttrId, BlockId, BuiltinDeriveImplId, CfgExpr, CfgOptions, ConstId, Crate, EnumId,
    EnumVariantId, ExpandErrorKind, ExternBlockId, ExternCrateId, FileAstId, FileId, FunctionId,
    ImplId, Macro2Id, MacroCallId, MacroCallKind, MacroRulesId, MapId, ModuleId, ProcMacroId,
    StaticId, StructId, TraitId, TypeAliasId, UnionId, UseId, UseTreeIdx,
};
use crate::imports::{GlobId, ImportId, ImportOrDef, ImportOrExternCrate, ImportOrGlob};
use crate::item_ids::{AdtId, AssocItemId, ItemContainerId, MacroId, ModuleDefId, VariantId};
use crate::item_in_ns::ItemInNs;
use crate::mod_path::{ModPath, PathKind};
use crate::per_ns::{Item, Namespace, NsAvailability, PerNs};
use crate::source::{AstId, Edition, EditionedFileId, HirFileId, TreeId};
use crate::visibility::{Visibility, VisibilityExplicitness};

/// Values that are equal only where they are the same value: `==` forgets no part of them.
pub trait ValueEq: Eq {
    ghost same: { (x y : Self) → Self.eq x y ≡ true → x ≡ y };
}

impl ValueEq for BuiltinInt {
    ghost same = { Prim.search rules };
}

impl ValueEq for BuiltinUint {
    ghost same = { Prim.search rules };
}

impl ValueEq for BuiltinFloat {
    ghost same = { Prim.search rules };
}

impl ValueEq for BuiltinType {
    ghost same = { Prim.search rules };
}

impl ValueEq for FieldsShape {
    ghost same = { Prim.search rules };
}

impl ValueEq for Crate {
    ghost same = { Prim.search rules };
}

impl ValueEq for ModuleId {
    ghost same = { Prim.search rules };
}

impl ValueEq for BlockId {
    ghost same = { Prim.search rules };
}

impl ValueEq for UseId {
    ghost same = { Prim.search rules };
}

impl ValueEq for ExternCrateId {
    ghost same = { Prim.search rules };
}

impl ValueEq for FunctionId {
    ghost same = { Prim.search rules };
}

impl ValueEq for StructId {
    ghost same = { Prim.search rules };
}

impl ValueEq for UnionId {
    ghost same = { Prim.search rules };
}

impl ValueEq for EnumId {
    ghost same = { Prim.search rules };
}

impl ValueEq for EnumVariantId {
    ghost same = { Prim.search rules };
}

impl ValueEq for ConstId {
    ghost same = { Prim.search rules };
}

impl ValueEq for StaticId {
    ghost same = { Prim.search rules };
}

impl ValueEq for TraitId {
    ghost same = { Prim.search rules };
}

impl ValueEq for TypeAliasId {
    ghost same = { Prim.search rules };
}

impl ValueEq for ImplId {
    ghost same = { Prim.search rules };
}

impl ValueEq for ExternBlockId {
    ghost same = { Prim.search rules };
}

impl ValueEq for BuiltinDeriveImplId {
    ghost same = { Prim.search rules };
}

impl ValueEq for Macro2Id {
    ghost same = { Prim.search rules };
}

impl ValueEq for MacroRulesId {
    ghost same = { Prim.search rules };
}

impl ValueEq for ProcMacroId {
    ghost same = { Prim.search rules };
}

impl ValueEq for MacroCallId {
    ghost same = { Prim.search rules };
}

impl ValueEq for AttrId {
    ghost same = { Prim.search rules };
}

impl ValueEq for FileId {
    ghost same = { Prim.search rules };
}

impl ValueEq for FileAstId {
    ghost same = { Prim.search rules };
}

impl ValueEq for UseTreeIdx {
    ghost same = { Prim.search rules };
}

impl ValueEq for CfgExpr {
    ghost same = { Prim.search rules };
}

impl ValueEq for CfgOptions {
    ghost same = { Prim.search rules };
}

impl ValueEq for MacroCallKind {
    ghost same = { Prim.search rules };
}

impl ValueEq for ExpandErrorKind {
    ghost same = { Prim.search rules };
}

impl ValueEq for MapId {
    ghost same = { Prim.search rules };
}

impl ValueEq for ImportId {
    ghost same = { Prim.search rules };
}

impl ValueEq for GlobId {
    ghost same = { Prim.search rules };
}

impl ValueEq for ImportOrExternCrate {
    ghost same = { Prim.search rules };
}

impl ValueEq for ImportOrGlob {
    ghost same = { Prim.search rules };
}

impl ValueEq for ImportOrDef {
    ghost same = { Prim.search rules };
}

impl ValueEq for AdtId {
    ghost same = { Prim.search rules };
}

impl ValueEq for MacroId {
    ghost same = { Prim.search rules };
}

impl ValueEq for ModuleDefId {
    ghost same = { Prim.search rules };
}

impl ValueEq for VariantId {
    ghost same = { Prim.search rules };
}

impl ValueEq for AssocItemId {
    ghost same = { Prim.search rules };
}

impl ValueEq for ItemContainerId {
    ghost same = { Prim.search rules };
}

impl ValueEq for Edition {
    ghost same = { Prim.search rules };
}

impl ValueEq for EditionedFileId {
    ghost same = { Prim.search rules };
}

impl ValueEq for HirFileId {
    ghost same = { Prim.search rules };
}

impl ValueEq for TreeId {
    ghost same = { Prim.search rules };
}

impl ValueEq for AstId {
    ghost same = { Prim.search rules };
}

impl ValueEq for Namespace {
    ghost same = { Prim.search rules };
}

impl ValueEq for NsAvailability {
    ghost same = { Prim.search rules };
}

impl ValueEq for ItemInNs {
    ghost same = { Prim.search rules };
}

impl ValueEq for VisibilityExplicitness {
    ghost same = { Prim.search rules };
}

impl ValueEq for Visibility {
    ghost same = { Prim.search rules };
}

impl ValueEq for PathKind {
    ghost same = { Prim.search rules };
}

impl ValueEq for ModPath {
    ghost use Rattle.dm_base.specs.Path.{paths_same};

    ghost same = { paths_same };
}

impl<Def: ValueEq, Import: ValueEq> ValueEq for Item<Def, Import> {
    ghost use Rattle.dm_base.specs.Sameness.{item_same};

    ghost same = { item_same Def.same Import.same };
}

impl ValueEq for PerNs {
    ghost use Rattle.dm_base.specs.Sameness.{per_ns_same};

    ghost same = { per_ns_same };
}
