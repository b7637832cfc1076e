//! Reads of the rare tables of a scope. None of them allocates.
ghost use Rattle.std.specs.Prelude.{◌≡◌};
ghost use Rattle.std.specs.List.{list_any};
ghost use Rattle.dm_base.specs.Names.{same_name};
ghost use Rattle.dm_scope.specs.Derives.{derives_of};
ghost use Rattle.dm_scope.specs.TableLists.{lists_of};

use super::Rare;
use crate::derives::DeriveMacroInvocation;
use dm_base::ids::{
    BuiltinDeriveImplId, ConstId, ExternBlockId, ExternCrateId, ImplId, MacroCallId, TraitId,
};
use dm_base::imports::ImportId;
use dm_base::item_ids::MacroId;
use dm_base::name::Name;
use dm_base::source::AstId;
use dm_base::visibility::Visibility;
use indexmap::map::Slice;
use smallvec::SmallVec;

impl Rare {
    pub(crate) fn unresolved(&self) -> &[Name]
        ensures { result.now ≡ self.now.unresolved }
    {
        let Some(tables) = self.tables() else {
            return &[];
        };
        tables.unresolved.as_slice()
    }

    /// Whether a name is among the unresolved ones: one look-up.
    pub(crate) fn is_unresolved(&self, name: &Name) -> bool
        ensures { result ≡ list_any (same_name name.now) self.now.unresolved }
    {
        let Some(tables) = self.tables() else {
            return false;
        };
        tables.unresolved.contains(name)
    }

    pub(crate) fn impls(&self) -> &[(ImplId, bool)]
        ensures { result.now ≡ self.now.impls }
    {
        let Some(tables) = self.tables() else {
            return &[];
        };
        tables.impls.as_slice()
    }

    pub(crate) fn builtin_derive_impls(&self) -> &[BuiltinDeriveImplId]
        ensures { result.now ≡ self.now.builtin_derive_impls }
    {
        let Some(tables) = self.tables() else {
            return &[];
        };
        tables.builtin_derive_impls.as_slice()
    }

    pub(crate) fn extern_blocks(&self) -> &[ExternBlockId]
        ensures { result.now ≡ self.now.extern_blocks }
    {
        let Some(tables) = self.tables() else {
            return &[];
        };
        tables.extern_blocks.as_slice()
    }

    pub(crate) fn extern_crate_decls(&self) -> &[ExternCrateId]
        ensures { result.now ≡ self.now.extern_crate_decls }
    {
        let Some(tables) = self.tables() else {
            return &[];
        };
        tables.extern_crate_decls.as_slice()
    }

    pub(crate) fn unnamed_consts(&self) -> &[ConstId]
        ensures { result.now ≡ self.now.unnamed_consts }
    {
        let Some(tables) = self.tables() else {
            return &[];
        };
        tables.unnamed_consts.as_slice()
    }

    pub(crate) fn unnamed_traits(&self) -> &[(TraitId, Visibility, Option<ImportId>)]
        ensures { result.now ≡ self.now.unnamed_traits }
    {
        let Some(tables) = self.tables() else {
            return &[];
        };
        tables.unnamed_traits.as_slice()
    }

    pub(crate) fn legacy_macros(&self) -> Slice<'_, Name, SmallVec<MacroId, 1>>
        ensures { lists_of result ≡ self.now.legacy_macros }
    {
        let Some(tables) = self.tables() else {
            return Slice::new();
        };
        tables.legacy_macros.as_slice()
    }

    pub(crate) fn attr_macros(&self) -> Slice<'_, AstId, MacroCallId>
        ensures { result ≡ self.now.attr_macros }
    {
        let Some(tables) = self.tables() else {
            return Slice::new();
        };
        tables.attr_macros.as_slice()
    }

    pub(crate) fn macro_invocations(&self) -> Slice<'_, AstId, MacroCallId>
        ensures { result ≡ self.now.macro_invocations }
    {
        let Some(tables) = self.tables() else {
            return Slice::new();
        };
        tables.macro_invocations.as_slice()
    }

    pub(crate) fn derive_macros(&self) -> Slice<'_, AstId, SmallVec<DeriveMacroInvocation, 1>>
        ensures { derives_of result ≡ self.now.derive_macros }
    {
        let Some(tables) = self.tables() else {
            return Slice::new();
        };
        tables.derive_macros.as_slice()
    }
}
