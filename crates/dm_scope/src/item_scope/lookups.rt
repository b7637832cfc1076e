//! Look-ups in a scope: by name, by definition (the reverse look-up), by AST id, or by import.
ghost use Rattle.std.specs.Prelude.{◌≡◌, option_map, option_copied, find, slice_get};
ghost use Rattle.std.specs.Map.{lookup};
ghost use Rattle.dm_base.specs.Names.{find_name};
ghost use Rattle.dm_scope.specs.BindingLookups.{deref_named, MayAskNames, AsksNames};
ghost use Rattle.dm_scope.specs.Chains.{record_of};
ghost use Rattle.dm_scope.specs.Lookups.{def_and_vis, names_for, trait_vis};
ghost use Rattle.dm_base.specs.Sameness.{same_ast};

use super::ItemScope;
use dm_base::ids::{MacroCallId, TraitId};
use dm_base::imports::{ImportId, ImportOrDef, ImportOrExternCrate, ImportOrGlob};
use dm_base::item_ids::{MacroId, ModuleDefId};
use dm_base::item_in_ns::ItemInNs;
use dm_base::name::Name;
use dm_base::per_ns::{Namespace, TypesItem};
use dm_base::source::AstId;
use dm_base::visibility::Visibility;

impl ItemScope {
    /// What a name is bound to as a type, with its visibility. Takes no memory: one look-up.
    pub fn type_(&self, name: &Name) -> Option<(ModuleDefId, Visibility)>
        ensures { result ≡ option_map def_and_vis (find_name name.now self.now.types.items) }
    {
        let item = self.types.get(name)?;
        Some((item.def, item.vis))
    }

    /// What a name is bound to as a type, with the import that brought it. Takes no memory: one look-up.
    pub fn type_item(&self, name: &Name) -> Option<&TypesItem>
        ensures { option_copied result ≡ find_name name.now self.now.types.items }
    {
        self.types.get(name)
    }

    /// What a name is bound to as a macro. Takes no memory: one look-up.
    pub fn makro(&self, name: &Name) -> Option<MacroId>
        ensures { result ≡ option_map (λ x. x.def) (find_name name.now self.now.macros.items) }
    {
        let item = self.macros.get(name)?;
        Some(item.def)
    }

    /// The legacy macros of a name, in order of definition: all that textual scope has under it, of which the last one
    /// shadows the others. Takes no memory: one look-up.
    #[tactic(auto, using(crate::proofs::LookupLemmas::find_legacy))]
    pub fn get_legacy_macro(&self, name: &Name) -> Option<&[MacroId]>
        ensures { option_copied result ≡ find_name name.now self.now.legacy_macros }
    {
        let tables = self.rare.tables()?;
        let macros = tables.legacy_macros.get(name)?;
        Some(macros.as_slice())
    }

    /// The call of a function-like macro. Takes no memory: one look-up.
    pub fn macro_invoc(&self, call: AstId) -> Option<MacroCallId>
        ensures { result ≡ lookup (same_ast call) self.now.macro_invocations }
    {
        let tables = self.rare.tables()?;
        tables.macro_invocations.get(&call).copied()
    }

    /// The visibility of a trait that was imported without a name (`use Trait as _`), by its first such import. Takes
    /// no memory.
    pub fn unnamed_trait_vis(&self, tr: TraitId) -> Option<Visibility>
        ensures { result ≡ trait_vis tr self.now.unnamed_traits }
    {
        for unnamed in self.rare.unnamed_traits() {
            if unnamed.0 == tr {
                return Some(unnamed.1);
            }
        }
        None
    }

    /// The first name of an item in its namespace, in order of first binding, with its visibility, and whether no
    /// import brought it. Takes no memory: it goes over the namespace.
    pub fn name_of(&self, item: ItemInNs) -> Option<(&Name, Visibility, bool)>
        ensures { option_map deref_named result ≡ slice_get (names_for item self.now) 0 }
    {
        match item {
            ItemInNs::Types(def) => self.types.name_of(def),
            ItemInNs::Values(def) => self.values.name_of(def),
            ItemInNs::Macros(def) => self.macros.name_of(def),
        }
    }

    /// The first `Some` that the closure `f` returns for a name of an item. It is called with the names of `name_of`,
    /// in the same order, and with none after it has returned `Some`; only for these calls its preconditions have to
    /// hold.
    pub fn names_of<T, F: FnMut(&Name, Visibility, bool) -> Option<T> + Drop>(
        &self,
        item: ItemInNs,
        f: F,
    ) -> Option<T>
        requires { MayAskNames F.pre F.step (names_for item self.now) f }
        ensures { (last : F) × AsksNames F.step (names_for item self.now) f result last }
    {
        match item {
            ItemInNs::Types(def) => self.types.names_of(def, f),
            ItemInNs::Values(def) => self.values.names_of(def, f),
            ItemInNs::Macros(def) => self.macros.names_of(def, f),
        }
    }

    /// What a named import resolved to in a namespace, one step of its chain. Takes no memory: one look-up.
    #[tactic(auto, using(crate::proofs::RecordLemmas::lookup_widened))]
    pub fn record_in(&self, namespace: Namespace, import: ImportId) -> Option<ImportOrDef>
        ensures { result ≡ record_of namespace (self.now, import) }
    {
        match namespace {
            Namespace::Types => self.types.record_of(&ImportOrExternCrate::Import(import)),
            Namespace::Values => self.values.record_of(&ImportOrGlob::Import(import)),
            Namespace::Macros => self.macros.record_of(&ImportOrExternCrate::Import(import)),
        }
    }
}
