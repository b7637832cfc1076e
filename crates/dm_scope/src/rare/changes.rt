//! Mutators of the rare tables of a scope. Those that put nothing in do not allocate the tables.
ghost use Rattle.std.specs.Prelude.{◌≡◌, OnOk, OnErr, map};
ghost use Rattle.indexmap.specs.IndexSet.{insert_key};
ghost use Rattle.dm_base.specs.Names.{same_name};
ghost use Rattle.dm_scope.specs.Rare.{censored_trait, rare_in};

use super::{Rare, RareTables};
use dm_base::ids::{Crate, TraitId};
use dm_base::imports::ImportId;
use dm_base::name::Name;
use dm_base::visibility::Visibility;
use std::alloc::AllocError;

impl Rare {
    /// Puts a name last among the unresolved ones, unless it is there. Where an allocation fails, nothing changes.
    pub(crate) fn add_unresolved(&mut self, name: Name) -> Result<(), AllocError>
        ensures ok { OnOk result
            (self.new
            ≡ record self.old { unresolved = insert_key same_name self.old.unresolved name }) }
        ensures err { OnErr result (self.new ≡ self.old) }
    {
        let mut tables = self.taken()?;
        let added = tables.unresolved.insert(name);
        self.put(tables);
        added?;
        Ok(())
    }

    /// Restricts each unnamed trait to the crate.
    pub(crate) fn censor_traits(&mut self, krate: Crate)
        ensures { self.new
            ≡ record self.old
            { unnamed_traits = map (censored_trait krate) self.old.unnamed_traits } }
    {
        if let Some(tables) = &mut self.tables {
            censor_traits(&mut tables.unnamed_traits, krate);
        }
    }

    /// Gives back memory that is not needed, where a smaller place can be had. The contents stay.
    pub(crate) fn shrink_to_fit(&mut self)
        ensures { self.new ≡ self.old }
    {
        if let Some(tables) = &mut self.tables {
            shrink(tables);
        }
    }
}

/// Gives back memory that the tables do not need.
fn shrink(tables: &mut RareTables)
    ensures { rare_in tables.new ≡ rare_in tables.old }
{
    tables.unresolved.shrink_to_fit();
    tables.impls.shrink_to_fit();
    tables.builtin_derive_impls.shrink_to_fit();
    tables.extern_blocks.shrink_to_fit();
    tables.extern_crate_decls.shrink_to_fit();
    tables.unnamed_consts.shrink_to_fit();
    tables.unnamed_traits.shrink_to_fit();
    tables.legacy_macros.shrink_to_fit();
    tables.attr_macros.shrink_to_fit();
    tables.macro_invocations.shrink_to_fit();
    tables.derive_macros.shrink_to_fit();
}

/// Restricts each unnamed trait to the crate.
fn censor_traits(traits: &mut [(TraitId, Visibility, Option<ImportId>)], krate: Crate)
    ensures { traits.new ≡ map (censored_trait krate) traits.old }
{
    for unnamed in traits.iter_mut() {
        unnamed.1 = Visibility::PubCrate(krate);
    }
}
