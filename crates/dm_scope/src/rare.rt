//! The tables of a scope that are empty in most modules, allocated together on first use.
ghost use Rattle.std.specs.Prelude.{◌≡◌, IfOk, OnErr};
ghost use Rattle.std.specs.Option.{option_copied};
ghost use Rattle.dm_scope.specs.Rare.{no_rare, rare_in, rare_of};

mod changes;
mod derives;
mod reads;

use crate::derives::DeriveMacroInvocation;
use dm_base::ids::{
    BuiltinDeriveImplId, ConstId, ExternBlockId, ExternCrateId, ImplId, MacroCallId, TraitId,
};
use dm_base::imports::ImportId;
use dm_base::item_ids::MacroId;
use dm_base::name::Name;
use dm_base::source::AstId;
use dm_base::visibility::Visibility;
use indexmap::{IndexMap, IndexSet};
use smallvec::SmallVec;
use std::alloc::{AllocError, Global};
use std::marker::Model;

/// The rare tables of a scope.
pub(crate) struct RareTables {
    pub(crate) unresolved: IndexSet<Name>,
    pub(crate) impls: Vec<(ImplId, bool)>,
    pub(crate) builtin_derive_impls: Vec<BuiltinDeriveImplId>,
    pub(crate) extern_blocks: Vec<ExternBlockId>,
    pub(crate) extern_crate_decls: Vec<ExternCrateId>,
    pub(crate) unnamed_consts: Vec<ConstId>,
    pub(crate) unnamed_traits: Vec<(TraitId, Visibility, Option<ImportId>)>,
    pub(crate) legacy_macros: IndexMap<Name, SmallVec<MacroId, 1>>,
    pub(crate) attr_macros: IndexMap<AstId, MacroCallId>,
    pub(crate) macro_invocations: IndexMap<AstId, MacroCallId>,
    pub(crate) derive_macros: IndexMap<AstId, SmallVec<DeriveMacroInvocation, 1>>,
}

/// Hand-written `Drop`, to keep proofs small: dropping one is then a single call.
impl Drop for RareTables {
    fn drop(self) {
        let RareTables {
            unresolved: _unresolved,
            impls: _impls,
            builtin_derive_impls: _builtin_derive_impls,
            extern_blocks: _extern_blocks,
            extern_crate_decls: _extern_crate_decls,
            unnamed_consts: _unnamed_consts,
            unnamed_traits: _unnamed_traits,
            legacy_macros: _legacy_macros,
            attr_macros: _attr_macros,
            macro_invocations: _macro_invocations,
            derive_macros: _derive_macros,
        } = self;
    }
}

impl RareTables {
    fn new(alloc: Global) -> RareTables
        ensures { rare_in result ≡ no_rare }
    {
        RareTables {
            unresolved: IndexSet::new(alloc),
            impls: Vec::new(alloc),
            builtin_derive_impls: Vec::new(alloc),
            extern_blocks: Vec::new(alloc),
            extern_crate_decls: Vec::new(alloc),
            unnamed_consts: Vec::new(alloc),
            unnamed_traits: Vec::new(alloc),
            legacy_macros: IndexMap::new(alloc),
            attr_macros: IndexMap::new(alloc),
            macro_invocations: IndexMap::new(alloc),
            derive_macros: IndexMap::new(alloc),
        }
    }
}

/// The handle of the rare tables of a scope. They are allocated when something is first put into one of them: until
/// then a scope only has the handle. Contracts see tables that have nothing in them as those that were not made.
#[derive(Drop)]
pub(crate) struct Rare {
    tables: Option<Box<RareTables>>,
    alloc: Global,
}

impl Model for Rare {
    ghost use Rattle.std.specs.Prelude.{box_value};
    ghost use Rattle.std.specs.Option.{option_map};
    ghost use Rattle.dm_scope.specs.Rare.{RareScope, rare_of};

    ghost Value = { RareScope };

    ghost view = { λ r. rare_of (option_map box_value r.tables) };
}

impl Rare {
    /// No tables. Takes no memory.
    pub(crate) fn new(alloc: Global) -> Rare
        ensures { result ≡ no_rare }
    {
        Rare {
            tables: None,
            alloc,
        }
    }

    /// The tables, if they were made.
    pub(crate) fn tables(&self) -> Option<&RareTables>
        ensures { rare_of (option_copied result) ≡ self.now }
    {
        match &self.tables {
            Some(tables) => Some(tables.as_ref()),
            None => None,
        }
    }

    /// The tables, taken out to be changed and put back, and made if they were not. Where an allocation fails, nothing
    /// changes.
    pub(crate) fn taken(&mut self) -> Result<Box<RareTables>, AllocError>
        ensures ok { IfOk result (λ b. rare_in b.value ≡ self.old) }
        ensures err { OnErr result (self.new ≡ self.old) }
    {
        match self.tables.take() {
            Some(tables) => Ok(tables),
            None => {
                let made = Box::new(self.alloc, RareTables::new(self.alloc))?;
                Ok(made)
            }
        }
    }

    /// Puts tables that were taken out back.
    pub(crate) fn put(&mut self, tables: Box<RareTables>)
        ensures { self.new ≡ rare_in tables.value }
    {
        self.tables = Some(tables);
    }
}
