//! `GlobFlags`: which names of a namespace a glob import bound, so that explicit names can shadow them.
ghost use Rattle.std.specs.Prelude.{◌≡◌, None, true, false, cond, OnOk, OnErr, IfOk};
ghost use Rattle.std.specs.Map.{lookup};
ghost use Rattle.std.specs.List.{list_any};
ghost use Rattle.dm_base.specs.declared.ids.ModuleId.{ModuleId};
ghost use Rattle.dm_base.specs.Names.{Name, same_name};
ghost use Rattle.dm_base.specs.Tree.{same_module};
ghost use Rattle.dm_scope.specs.Flags.{flags_of, has_flag, with_flag, no_flags, flags_grown, flags_undone, flags_finished};

use dm_base::ids::ModuleId;
use dm_base::name::Name;
use indexmap::{IndexMap, IndexSet};
use std::alloc::{AllocError, Global};
use std::marker::Model;

/// The glob flags of one namespace: for each module, the names that a glob bound. An explicit name shadows a glob's, so
/// a later named import or declaration may replace these bindings, and no others. Their order is not kept: contracts
/// only see whether a name of a module has a flag.
#[derive(Drop)]
pub struct GlobFlags {
    names: IndexMap<ModuleId, IndexSet<Name>>,
    alloc: Global,
}

impl Model for GlobFlags {
    ghost use Rattle.dm_scope.specs.Flags.{Flags, flags_of};

    ghost Value = { Flags };

    ghost view = { λ f. flags_of f.names.entries };
}

impl GlobFlags {
    /// No flags. Takes no memory.
    pub fn new(alloc: Global) -> GlobFlags
        ensures { result ≡ no_flags }
    {
        GlobFlags {
            names: IndexMap::new(alloc),
            alloc,
        }
    }

    /// Whether a name of a module was bound by a glob. Takes no memory.
    pub fn contains(&self, m: ModuleId, name: &Name) -> bool
        ensures { result ≡ has_flag self.now m name.now }
    {
        match self.names.get(&m) {
            Some(names) => names.contains(name),
            None => false,
        }
    }

    /// The first step of a push that writes: a glob's flag is set. Answers whether it is new. Where an allocation
    /// fails, nothing changes.
    pub(crate) fn grow(&mut self, m: ModuleId, name: &Name, glob: bool) -> Result<bool, AllocError>
        ensures ok { OnOk result (self.new ≡ flags_grown self.old m name.now glob) }
        ensures undo { IfOk result (λ new. flags_undone self.new m name.now new ≡ self.old) }
        ensures err { OnErr result (self.new ≡ self.old) }
    {
        if !glob {
            return Ok(false);
        }
        if self.contains(m, name) {
            return Ok(false);
        }
        let key = name.copy(self.alloc)?;
        self.set(m, key)?;
        Ok(true)
    }

    /// The second step of a push that writes: the flag of any other push is cleared. Takes no memory.
    pub(crate) fn finish(&mut self, m: ModuleId, name: &Name, glob: bool)
        ensures { self.new ≡ flags_finished self.old m name.now glob }
    {
        if !glob {
            self.clear(m, name);
        }
    }

    /// Takes the first step back. A module's set stays, also where it is empty.
    pub(crate) fn undo(&mut self, m: ModuleId, name: &Name, new: bool)
        ensures { self.new ≡ flags_undone self.old m name.now new }
    {
        if new {
            self.clear(m, name);
        }
    }

    /// Sets the flag of a name.
    fn set(&mut self, m: ModuleId, name: Name) -> Result<(), AllocError>
        ensures ok { OnOk result (self.new ≡ with_flag self.old m name true) }
        ensures err { OnErr result (self.new ≡ self.old) }
    {
        match self.names.get_mut(&m) {
            Some(names) => {
                add_name(names, name)?;
                Ok(())
            }
            None => add_first(&mut self.names, m, name, self.alloc),
        }
    }

    /// Clears the flag of a name. Takes no memory: one look-up.
    fn clear(&mut self, m: ModuleId, name: &Name)
        ensures { self.new ≡ with_flag self.old m name.now false }
    {
        if let Some(names) = self.names.get_mut(&m) {
            take_name(names, name);
        }
    }
}

/// Adds a name to the names of a module.
fn add_name(names: &mut IndexSet<Name>, name: Name) -> Result<(), AllocError>
    ensures has { OnOk result
        ((n : Name)
        → list_any (same_name n) names.new.keys
        ≡ cond (same_name name n) true (list_any (same_name n) names.old.keys)) }
    ensures err { OnErr result (names.new.keys ≡ names.old.keys) }
{
    names.insert(name)?;
    Ok(())
}

/// Adds a module, with its first name.
fn add_first(
    flags: &mut IndexMap<ModuleId, IndexSet<Name>>,
    m: ModuleId,
    name: Name,
    alloc: Global,
) -> Result<(), AllocError>
    requires { lookup (same_module m) flags.old.entries ≡ None }
    ensures ok { OnOk result
        (flags_of flags.new.entries ≡ with_flag (flags_of flags.old.entries) m name true) }
    ensures err { OnErr result (flags.new.entries ≡ flags.old.entries) }
{
    let mut names = IndexSet::new(alloc);
    add_name(&mut names, name)?;
    flags.insert(m, names)?;
    Ok(())
}

/// Takes a name off the names of a module, by its key: the last one comes into its place.
fn take_name(names: &mut IndexSet<Name>, name: &Name)
    ensures { (n : Name)
        → list_any (same_name n) names.new.keys
        ≡ cond (same_name name.now n) false (list_any (same_name n) names.old.keys) }
{
    names.swap_remove(name);
}
