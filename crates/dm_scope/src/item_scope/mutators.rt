//! What a `DefCollector` puts into a scope beside pushes of names.
ghost use Rattle.std.specs.Prelude.{◌≡◌, [], ◌∷◌, ◌++◌, OnOk, OnErr};
ghost use Rattle.indexmap.specs.IndexMap.{insert_entry};
ghost use Rattle.dm_base.specs.Names.{same_name};
ghost use Rattle.dm_scope.specs.TableLists.{add_to_list};
ghost use Rattle.dm_base.specs.Sameness.{same_ast};

use super::ItemScope;
use crate::table_lists::add_to_list;
use dm_base::ids::{
    BuiltinDeriveImplId, ConstId, ExternBlockId, ExternCrateId, ImplId, MacroCallId, TraitId,
};
use dm_base::imports::ImportId;
use dm_base::item_ids::{MacroId, ModuleDefId};
use dm_base::name::Name;
use dm_base::source::AstId;
use dm_base::visibility::Visibility;
use std::alloc::AllocError;

impl ItemScope {
    /// Declares a definition. Where an allocation fails, nothing changes.
    pub fn declare(&mut self, def: ModuleDefId) -> Result<(), AllocError>
        ensures ok { OnOk result
            (self.new ≡ record self.old { declarations = self.old.declarations ++ def ∷ [] }) }
        ensures err { OnErr result (self.new ≡ self.old) }
    {
        self.declarations.push(def)?;
        Ok(())
    }

    /// Defines an `impl` block, of a trait or of none. Where an allocation fails, nothing changes.
    pub fn define_impl(&mut self, imp: ImplId, is_trait_impl: bool) -> Result<(), AllocError>
        ensures ok { OnOk result
            (self.new ≡ record self.old { impls = self.old.impls ++ (imp, is_trait_impl) ∷ [] }) }
        ensures err { OnErr result (self.new ≡ self.old) }
    {
        let mut tables = self.rare.taken()?;
        let pushed = tables.impls.push((imp, is_trait_impl));
        self.rare.put(tables);
        pushed?;
        Ok(())
    }

    /// Defines an `impl` block that a builtin derive writes. Where an allocation fails, nothing changes.
    pub fn define_builtin_derive_impl(&mut self, imp: BuiltinDeriveImplId) -> Result<(), AllocError>
        ensures ok { OnOk result
            (self.new
            ≡ record self.old
            { builtin_derive_impls = self.old.builtin_derive_impls ++ imp ∷ [] }) }
        ensures err { OnErr result (self.new ≡ self.old) }
    {
        let mut tables = self.rare.taken()?;
        let pushed = tables.builtin_derive_impls.push(imp);
        self.rare.put(tables);
        pushed?;
        Ok(())
    }

    /// Defines an `extern` block. Where an allocation fails, nothing changes.
    pub fn define_extern_block(&mut self, extern_block: ExternBlockId) -> Result<(), AllocError>
        ensures ok { OnOk result
            (self.new
            ≡ record self.old { extern_blocks = self.old.extern_blocks ++ extern_block ∷ [] }) }
        ensures err { OnErr result (self.new ≡ self.old) }
    {
        let mut tables = self.rare.taken()?;
        let pushed = tables.extern_blocks.push(extern_block);
        self.rare.put(tables);
        pushed?;
        Ok(())
    }

    /// Defines an `extern crate` item. Where an allocation fails, nothing changes.
    pub fn define_extern_crate_decl(
        &mut self,
        extern_crate: ExternCrateId,
    ) -> Result<(), AllocError>
        ensures ok { OnOk result
            (self.new
            ≡ record self.old
            { extern_crate_decls = self.old.extern_crate_decls ++ extern_crate ∷ [] }) }
        ensures err { OnErr result (self.new ≡ self.old) }
    {
        let mut tables = self.rare.taken()?;
        let pushed = tables.extern_crate_decls.push(extern_crate);
        self.rare.put(tables);
        pushed?;
        Ok(())
    }

    /// Defines a constant without a name. Where an allocation fails, nothing changes.
    pub fn define_unnamed_const(&mut self, konst: ConstId) -> Result<(), AllocError>
        ensures ok { OnOk result
            (self.new
            ≡ record self.old { unnamed_consts = self.old.unnamed_consts ++ konst ∷ [] }) }
        ensures err { OnErr result (self.new ≡ self.old) }
    {
        let mut tables = self.rare.taken()?;
        let pushed = tables.unnamed_consts.push(konst);
        self.rare.put(tables);
        pushed?;
        Ok(())
    }

    /// Imports a trait without a name. Where an allocation fails, nothing changes.
    pub fn push_unnamed_trait(
        &mut self,
        tr: TraitId,
        vis: Visibility,
        import: Option<ImportId>,
    ) -> Result<(), AllocError>
        ensures ok { OnOk result
            (self.new
            ≡ record self.old
            { unnamed_traits = self.old.unnamed_traits ++ (tr, vis, import) ∷ [] }) }
        ensures err { OnErr result (self.new ≡ self.old) }
    {
        let mut tables = self.rare.taken()?;
        let pushed = tables.unnamed_traits.push((tr, vis, import));
        self.rare.put(tables);
        pushed?;
        Ok(())
    }

    /// Sets the call of an attribute macro on an item, in place of one that was set. Where an allocation fails, nothing
    /// changes.
    pub fn add_attr_macro_invoc(&mut self, item: AstId, call: MacroCallId) -> Result<(), AllocError>
        ensures ok { OnOk result
            (self.new
            ≡ record self.old
            { attr_macros = insert_entry same_ast self.old.attr_macros item call }) }
        ensures err { OnErr result (self.new ≡ self.old) }
    {
        let mut tables = self.rare.taken()?;
        let set = tables.attr_macros.insert(item, call);
        self.rare.put(tables);
        set?;
        Ok(())
    }

    /// Sets the call of a function-like macro, in place of one that was set. Where an allocation fails, nothing
    /// changes.
    pub fn add_macro_invoc(&mut self, call: AstId, call_id: MacroCallId) -> Result<(), AllocError>
        ensures ok { OnOk result
            (self.new
            ≡ record self.old {
              macro_invocations =
                  insert_entry same_ast self.old.macro_invocations call call_id;
            }) }
        ensures err { OnErr result (self.new ≡ self.old) }
    {
        let mut tables = self.rare.taken()?;
        let set = tables.macro_invocations.insert(call, call_id);
        self.rare.put(tables);
        set?;
        Ok(())
    }

    /// Defines a legacy macro (one in textual scope) after those of its name, which it shadows from there on. Where an
    /// allocation fails, nothing changes.
    pub fn define_legacy_macro(&mut self, name: Name, mac: MacroId) -> Result<(), AllocError>
        ensures ok { OnOk result
            (self.new
            ≡ record self.old
            { legacy_macros = add_to_list same_name self.old.legacy_macros name mac }) }
        ensures err { OnErr result (self.new ≡ self.old) }
    {
        let mut tables = self.rare.taken()?;
        let added = add_to_list(&mut tables.legacy_macros, name, mac, self.alloc);
        self.rare.put(tables);
        added
    }
}
