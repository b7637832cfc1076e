//! The lists of a scope, in order of definition.
ghost use Rattle.std.specs.Prelude.{◌≡◌, ◌++◌, [], length, map, Option};
ghost use Rattle.std.specs.List.{filter_map};
ghost use Rattle.std.specs.Map.Iter.{ShowsInOrder, deref_pair};
ghost use Rattle.dm_base.specs.declared.ids.BuiltinDeriveImplId.{BuiltinDeriveImplId};
ghost use Rattle.dm_base.specs.declared.ids.ExternBlockId.{ExternBlockId};
ghost use Rattle.dm_base.specs.declared.ids.ExternCrateId.{ExternCrateId};
ghost use Rattle.dm_base.specs.declared.ids.ConstId.{ConstId};
ghost use Rattle.dm_base.specs.declared.ids.TraitId.{TraitId};
ghost use Rattle.dm_base.specs.declared.ids.UseId.{UseId};
ghost use Rattle.dm_base.specs.declared.ids.ImplId.{ImplId};
ghost use Rattle.dm_base.specs.declared.ids.ModuleId.{ModuleId};
ghost use Rattle.dm_base.specs.declared.ids.MacroCallId.{MacroCallId};
ghost use Rattle.dm_base.specs.declared.imports.ImportId.{ImportId};
ghost use Rattle.dm_base.specs.declared.imports.ImportOrDef.{ImportOrDef};
ghost use Rattle.dm_base.specs.declared.visibility.Visibility.{Visibility};
ghost use Rattle.dm_base.specs.declared.source.AstId.{AstId};
ghost use Rattle.dm_base.specs.declared.imports.ImportOrExternCrate.{ImportOrExternCrate};
ghost use Rattle.dm_base.specs.declared.imports.ImportOrGlob.{ImportOrGlob};
ghost use Rattle.dm_base.specs.declared.item_ids.MacroId.{MacroId};
ghost use Rattle.dm_base.specs.declared.item_ids.ModuleDefId.{ModuleDefId};
ghost use Rattle.dm_base.specs.declared.per_ns.Item.{Item};
ghost use Rattle.dm_scope.specs.AllCalls.{all_calls};
ghost use Rattle.dm_scope.specs.Records.{records_in};
ghost use Rattle.dm_scope.specs.BindingIterators.{deref_name};
ghost use Rattle.dm_scope.specs.Iterators.{any_impl, trait_impl, inherent_impl, bound_module, trait_of, deref_legacy};

use super::ItemScope;
use crate::bindings::Iter;
use crate::import_records::ImportRecords;
use crate::iterators::{
    AttrMacroInvocations, Impls, InherentImpls, LegacyMacros, Listed, MacroInvocations,
    ModulesInScope, TraitImpls, Traits,
};
use crate::macro_calls::AllMacroCalls;
use crate::picked::Picked;
use crate::picks::{AnyImpl, InherentImpl, ModuleType, TraitImpl};
use dm_base::ids::{BuiltinDeriveImplId, ConstId, ExternBlockId, ExternCrateId, TraitId, UseId};
use dm_base::imports::{ImportId, ImportOrExternCrate, ImportOrGlob};
use dm_base::item_ids::{MacroId, ModuleDefId};
use dm_base::per_ns::Namespace;
use dm_base::visibility::Visibility;

impl ItemScope {
    /// What is declared in the scope, in order of definition. Takes no memory.
    pub fn declarations(&self) -> Listed<'_, ModuleDefId>
        ensures rest { result ≡ self.now.declarations }
        ensures runs { ShowsInOrder (λ (x : ModuleDefId). x) }
    {
        Listed::new(&self.declarations)
    }

    /// The `impl` blocks that builtin derives write, in order of definition. Takes no memory.
    pub fn builtin_derive_impls(&self) -> Listed<'_, BuiltinDeriveImplId>
        ensures rest { result ≡ self.now.builtin_derive_impls }
        ensures runs { ShowsInOrder (λ (x : BuiltinDeriveImplId). x) }
    {
        Listed::new(self.rare.builtin_derive_impls())
    }

    /// The `extern` blocks, in order of definition. Takes no memory.
    pub fn extern_blocks(&self) -> Listed<'_, ExternBlockId>
        ensures rest { result ≡ self.now.extern_blocks }
        ensures runs { ShowsInOrder (λ (x : ExternBlockId). x) }
    {
        Listed::new(self.rare.extern_blocks())
    }

    /// The `extern crate` items, in order of definition. Takes no memory.
    pub fn extern_crate_decls(&self) -> Listed<'_, ExternCrateId>
        ensures rest { result ≡ self.now.extern_crate_decls }
        ensures runs { ShowsInOrder (λ (x : ExternCrateId). x) }
    {
        Listed::new(self.rare.extern_crate_decls())
    }

    /// The constants without a name, in order of definition. Takes no memory.
    pub fn unnamed_consts(&self) -> Listed<'_, ConstId>
        ensures rest { result ≡ self.now.unnamed_consts }
        ensures runs { ShowsInOrder (λ (x : ConstId). x) }
    {
        Listed::new(self.rare.unnamed_consts())
    }

    /// The traits that were imported without a name, in order of import. Takes no memory.
    pub fn unnamed_traits(&self) -> Listed<'_, (TraitId, Visibility, Option<ImportId>)>
        ensures rest { result ≡ self.now.unnamed_traits }
        ensures runs { ShowsInOrder (λ (x : TraitId × (Visibility × Option ImportId)). x) }
    {
        Listed::new(self.rare.unnamed_traits())
    }

    /// The `use` items, of which a scope keeps none. Takes no memory.
    pub fn use_decls(&self) -> Listed<'_, UseId>
        ensures rest { result ≡ [] }
        ensures runs { ShowsInOrder (λ (x : UseId). x) }
    {
        Listed::new(&[])
    }

    /// The `impl` blocks, in order of definition. Takes no memory.
    pub fn impls(&self) -> Impls<'_>
        ensures rest { result ≡ filter_map any_impl self.now.impls }
        ensures runs { ShowsInOrder (λ (x : ImplId). x) }
    {
        Picked::new(self.rare.impls(), AnyImpl)
    }

    /// The `impl` blocks of traits, in order of definition. Takes no memory.
    pub fn trait_impls(&self) -> TraitImpls<'_>
        ensures rest { result ≡ filter_map trait_impl self.now.impls }
        ensures runs { ShowsInOrder (λ (x : ImplId). x) }
    {
        Picked::new(self.rare.impls(), TraitImpl)
    }

    /// The `impl` blocks without a trait, in order of definition. Takes no memory.
    pub fn inherent_impls(&self) -> InherentImpls<'_>
        ensures rest { result ≡ filter_map inherent_impl self.now.impls }
        ensures runs { ShowsInOrder (λ (x : ImplId). x) }
    {
        Picked::new(self.rare.impls(), InherentImpl)
    }

    /// What is bound as a type, in order of first binding. Takes no memory.
    pub fn types(&self) -> Iter<'_, ModuleDefId, ImportOrExternCrate>
        ensures rest { result ≡ self.now.types.items }
        ensures runs { ShowsInOrder (deref_name {X = Item ModuleDefId ImportOrExternCrate}) }
    {
        self.types.iter()
    }

    /// What is bound as a value, in order of first binding. Takes no memory.
    pub fn values(&self) -> Iter<'_, ModuleDefId, ImportOrGlob>
        ensures rest { result ≡ self.now.values.items }
        ensures runs { ShowsInOrder (deref_name {X = Item ModuleDefId ImportOrGlob}) }
    {
        self.values.iter()
    }

    /// What is bound as a macro, in order of first binding. Takes no memory.
    pub fn macros(&self) -> Iter<'_, MacroId, ImportOrExternCrate>
        ensures rest { result ≡ self.now.macros.items }
        ensures runs { ShowsInOrder (deref_name {X = Item MacroId ImportOrExternCrate}) }
    {
        self.macros.iter()
    }

    /// The modules among the types, with its visibility, in order of first binding. Takes no memory.
    pub fn modules_in_scope(&self) -> ModulesInScope<'_>
        ensures rest { result ≡ filter_map bound_module (map (λ e. e.1) self.now.types.items) }
        ensures runs { ShowsInOrder (λ (x : ModuleId × Visibility). x) }
    {
        Picked::new(self.types.items(), ModuleType)
    }

    /// The traits among the types, in order of first binding, then the unnamed ones, in order of import. Takes no
    /// memory.
    pub fn traits(&self) -> Traits<'_>
        ensures rest { result
            ≡ filter_map trait_of (map (λ e. e.1) self.now.types.items)
            ++ map (λ e. e.0) self.now.unnamed_traits }
        ensures runs { ShowsInOrder (λ (x : TraitId). x) }
    {
        Traits::new(self.types.items(), self.rare.unnamed_traits())
    }

    /// The legacy macros of each name: those in textual scope, which is how `macro_rules!` and `#[macro_use]` worked
    /// before macros 2.0, a macro being visible in the text after it. Takes no memory.
    pub fn legacy_macros(&self) -> LegacyMacros<'_>
        ensures rest { result ≡ self.now.legacy_macros }
        ensures runs { ShowsInOrder deref_legacy }
    {
        LegacyMacros::new(self.rare.legacy_macros())
    }

    /// The calls of function-like macros, each with where it stands. Takes no memory.
    pub fn iter_macro_invoc(&self) -> MacroInvocations<'_>
        ensures rest { result ≡ self.now.macro_invocations }
        ensures runs { ShowsInOrder (deref_pair {K = AstId} {X = MacroCallId}) }
    {
        MacroInvocations::new(self.rare.macro_invocations())
    }

    /// The calls of attribute macros, each with the item that it stands on. Takes no memory.
    pub fn attr_macro_invocs(&self) -> AttrMacroInvocations<'_>
        ensures rest { result ≡ self.now.attr_macros }
        ensures runs { ShowsInOrder (λ (x : AstId × MacroCallId). x) }
    {
        AttrMacroInvocations::new(self.rare.attr_macros())
    }

    /// All macro calls: of function-like macros, of attribute macros, and in the slots of derive attributes. Neither
    /// the derive attributes' own calls, nor builtin derives. Takes no memory.
    pub fn all_macro_calls(&self) -> AllMacroCalls<'_>
        ensures rest { result ≡ all_calls self.now }
        ensures runs { ShowsInOrder (λ (x : MacroCallId). x) }
    {
        AllMacroCalls::new(
            self.rare.macro_invocations().values().as_slice(),
            self.rare.attr_macros().values().as_slice(),
            self.rare.derive_macros().values().as_slice(),
        )
    }

    /// What each import that brought a binding of a namespace resolved to, an import of values seen as any import.
    /// Takes no memory.
    pub fn import_records(&self, namespace: Namespace) -> ImportRecords<'_>
        ensures rest { result ≡ records_in namespace self.now }
        ensures runs { ShowsInOrder (λ (x : ImportOrExternCrate × ImportOrDef). x) }
    {
        match namespace {
            Namespace::Types => ImportRecords::wide(self.types.records()),
            Namespace::Values => ImportRecords::of_values(self.values.records()),
            Namespace::Macros => ImportRecords::wide(self.macros.records()),
        }
    }

    /// The number of imports that have a record in a namespace. Takes no memory.
    pub fn record_count(&self, namespace: Namespace) -> usize
        ensures { result ≡ length (records_in namespace self.now) }
    {
        match namespace {
            Namespace::Types => self.types.record_count(),
            Namespace::Values => self.values.record_count(),
            Namespace::Macros => self.macros.record_count(),
        }
    }
}
