//! What a crate has in a builder.
ghost use Rattle.std.specs.Prelude.{◌≡◌, ◌++◌, ◌∷◌, [], OnOk};
ghost use Rattle.dm_base.specs.declared.ids.Crate.{Crate};
ghost use Rattle.dm_maps.specs.World.{World};
ghost use Rattle.crate_tables.specs.CrateTables as spec;

use crate::declared_name::DeclaredName;
use crate::item_place::{BlockPlace, DefPlace, UsePlace};
use crate::use_leaf::UseLeaf;
use dm_base::ids::ModuleId;
use dm_base::item_ids::ModuleDefId;
use dm_base::name::Name;
use dm_base::per_ns::PerNs;
use dm_base::visibility::Visibility;
use std::alloc::{AllocError, Global};
use std::marker::Model;

/// What a crate has in a builder: for each module of its list the id, unless it was left out, the names that its modules
/// declare, what they import, and where each use, each definition and each block is written.
pub struct CrateTable {
    ids: Vec<Option<ModuleId>>,
    names: Vec<DeclaredName>,
    leaves: Vec<UseLeaf>,
    uses: Vec<UsePlace>,
    defs: Vec<DefPlace>,
    blocks: Vec<BlockPlace>,
}

/// Hand-written `Drop`, to keep proofs small: dropping one is then a single call.
impl Drop for CrateTable {
    fn drop(self) {
        let CrateTable {
            ids: _ids,
            names: _names,
            leaves: _leaves,
            uses: _uses,
            defs: _defs,
            blocks: _blocks,
        } = self;
    }
}

impl Model for CrateTable {
    ghost use Rattle.crate_tables.specs.CrateTables.{Table};

    ghost Value = { Table };

    ghost view = { λ t. record {
      ids = t.ids.items;
      names = t.names.items;
      leaves = t.leaves.items;
      uses = t.uses.items;
      defs = t.defs.items;
      blocks = t.blocks.items;
    } };
}

impl CrateTable {
    /// A table of nothing. Allocates nothing.
    pub(crate) fn new(alloc: Global) -> CrateTable
        ensures { result ≡ spec.no_table }
    {
        CrateTable {
            ids: Vec::new(alloc),
            names: Vec::new(alloc),
            leaves: Vec::new(alloc),
            uses: Vec::new(alloc),
            defs: Vec::new(alloc),
            blocks: Vec::new(alloc),
        }
    }

    /// The ids of the modules of the list, by their numbers there.
    pub fn ids(&self) -> &[Option<ModuleId>]
        ensures { result.now ≡ self.now.ids }
    {
        self.ids.as_slice()
    }

    /// The names, in the order in which they were declared: those of modules, and behind them those of items.
    pub fn names(&self) -> &[DeclaredName]
        ensures { result.now ≡ self.now.names }
    {
        self.names.as_slice()
    }

    /// The imports, in order: the leaves of each use together.
    pub fn leaves(&self) -> &[UseLeaf]
        ensures { result.now ≡ self.now.leaves }
    {
        self.leaves.as_slice()
    }

    /// Where its uses are written, in the order of their numbers.
    pub fn uses(&self) -> &[UsePlace]
        ensures { result.now ≡ self.now.uses }
    {
        self.uses.as_slice()
    }

    /// Where its macros and its other definitions are written, in the order of their numbers.
    pub fn defs(&self) -> &[DefPlace]
        ensures { result.now ≡ self.now.defs }
    {
        self.defs.as_slice()
    }

    /// Its `impl` and `extern` blocks, in the order of its items, with where they are written.
    pub fn blocks(&self) -> &[BlockPlace]
        ensures { result.now ≡ self.now.blocks }
    {
        self.blocks.as_slice()
    }

    /// The names and the imports, and the table without them.
    pub fn into_parts(self, alloc: Global) -> (Vec<DeclaredName>, Vec<UseLeaf>, CrateTable)
        ensures names { result.0.items ≡ self.names }
        ensures leaves { result.1.items ≡ self.leaves }
        ensures rest { result.2 ≡ spec.emptied self }
    {
        let CrateTable {
            ids,
            names,
            leaves,
            uses,
            defs,
            blocks,
        } = self;
        let rest = CrateTable {
            ids,
            names: Vec::new(alloc),
            leaves: Vec::new(alloc),
            uses,
            defs,
            blocks,
        };
        (names, leaves, rest)
    }

    /// Lists the id of a module.
    pub(crate) fn push_id(&mut self, id: Option<ModuleId>) -> Result<(), AllocError>
        ensures { OnOk result (self.new ≡ record self.old { ids = self.old.ids ++ id ∷ [] }) }
    {
        self.ids.push(id)?;
        Ok(())
    }

    /// Adds a name.
    pub(crate) fn push_name(&mut self, name: DeclaredName) -> Result<(), AllocError>
        ensures { OnOk result (self.new ≡ spec.with_name self.old name) }
    {
        self.names.push(name)?;
        Ok(())
    }

    /// Lists a module of a name below another, unless it is left out, and declares it there.
    pub(crate) fn push_module(
        &mut self,
        parent: ModuleId,
        name: Name,
        visibility: Visibility,
        id: Option<ModuleId>,
    ) -> Result<(), AllocError>
        ensures { OnOk result (self.new ≡ spec.with_id self.old parent name visibility id) }
    {
        self.push_id(id)?;
        match id {
            None => Ok(()),
            Some(m) => {
                let items = PerNs::types(ModuleDefId::ModuleId(m), visibility, None);
                let declared = DeclaredName {
                    home: parent,
                    name,
                    items,
                };
                self.push_name(declared)?;
                Ok(())
            }
        }
    }

    /// Declares a definition under its name, if it has one.
    pub(crate) fn push_named(
        &mut self,
        home: ModuleId,
        name: Option<Name>,
        items: PerNs,
    ) -> Result<(), AllocError>
        ensures { OnOk result (self.new ≡ spec.with_named self.old home name items) }
    {
        match name {
            None => Ok(()),
            Some(name) => {
                self.push_name(DeclaredName { home, name, items })?;
                Ok(())
            }
        }
    }

    /// Adds the leaves of a use.
    pub(crate) fn push_leaves(&mut self, leaves: Vec<UseLeaf>) -> Result<(), AllocError>
        ensures { OnOk result (self.new ≡ spec.with_leaves self.old leaves.items) }
    {
        let added = add_leaves(&mut self.leaves, leaves)?;
        Ok(added)
    }

    /// Lists where a use is written.
    pub(crate) fn push_use(&mut self, place: UsePlace) -> Result<(), AllocError>
        ensures exact { OnOk result (self.new ≡ spec.with_use_at self.old place) }
        ensures kept { (w : World) (k : Crate) → spec.IsTableOf w k self.old → OnOk result (spec.IsTableOf w k self.new) }
    {
        self.uses.push(place)?;
        Ok(())
    }

    /// Lists where a definition is written.
    pub(crate) fn push_def(&mut self, place: DefPlace) -> Result<(), AllocError>
        ensures exact { OnOk result (self.new ≡ spec.with_def_at self.old place) }
        ensures kept { (w : World) (k : Crate) → spec.IsTableOf w k self.old → OnOk result (spec.IsTableOf w k self.new) }
    {
        self.defs.push(place)?;
        Ok(())
    }

    /// Lists a block.
    pub(crate) fn push_block(&mut self, place: BlockPlace) -> Result<(), AllocError>
        ensures exact { OnOk result (self.new ≡ spec.with_block_at self.old place) }
        ensures kept { (w : World) (k : Crate) → spec.IsTableOf w k self.old → OnOk result (spec.IsTableOf w k self.new) }
    {
        self.blocks.push(place)?;
        Ok(())
    }
}

/// Adds the leaves of a use to some others.
fn add_leaves(leaves: &mut Vec<UseLeaf>, more: Vec<UseLeaf>) -> Result<(), AllocError>
    ensures { OnOk result (leaves.new.items ≡ leaves.old.items ++ more.items) }
{
    for leaf in more {
        leaves.push(leaf)?;
    }
    Ok(())
}
