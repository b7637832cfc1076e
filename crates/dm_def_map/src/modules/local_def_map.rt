//! `LocalDefMap`: the extern prelude of a crate.
ghost use Rattle.std.specs.Prelude.{◌≡◌, [], Some, IfSome, length, OnOk, OnErr};
ghost use Rattle.std.specs.Iterator.{at_most, UpTo};
ghost use Rattle.std.specs.Iterator.SizeHint.{IsWithinCount};
ghost use Rattle.std.specs.Map.Iter.{TakesFirst, ShowsInOrder};
ghost use Rattle.dm_base.specs.Names.{find_name};
ghost use Rattle.dm_def_map.specs.Locals.{with_extern};
ghost use Rattle.dm_def_map.specs.LocalHash.{deref_extern};

use dm_base::ids::{ExternCrateId, ModuleId};
use dm_base::name::Name;
use indexmap::{IndexMap, map};
use std::alloc::{AllocError, Global};
use std::marker::Model;

/// The extern prelude of a crate: the roots of other crates, by the names that paths can begin with, each with the item
/// that named it.
pub struct LocalDefMap {
    extern_prelude: IndexMap<Name, (ModuleId, Option<ExternCrateId>)>,
}

/// A hand-written `Drop`, to keep proofs small: code that drops a value has one call to prove.
impl Drop for LocalDefMap {
    fn drop(self) {
        let LocalDefMap {
            extern_prelude: _extern_prelude,
        } = self;
    }
}

impl Model for LocalDefMap {
    ghost use Rattle.dm_def_map.specs.Maps.{LocalMap};

    ghost Value = { LocalMap };

    ghost view = { λ m. m.extern_prelude.entries };
}

/// The entries of an extern prelude, in order of insertion.
#[derive(Drop)]
pub struct ExternPrelude<'a> {
    rest: map::Iter<'a, Name, (ModuleId, Option<ExternCrateId>)>,
}

impl<'a> Model for ExternPrelude<'a> {
    ghost use Rattle.dm_def_map.specs.Maps.{LocalMap};

    ghost Value = { LocalMap };

    ghost view = { λ a. a.rest };
}

impl<'a> Iterator for ExternPrelude<'a> {
    type Item = (&'a Name, (ModuleId, Option<ExternCrateId>));

    ghost next_gives = { TakesFirst deref_extern };

    ghost remaining = { λ s. at_most (length s) };

    fn next(&mut self) -> Option<(&'a Name, (ModuleId, Option<ExternCrateId>))> {
        let (name, entry) = self.rest.next()?;
        Some((name, *entry))
    }

    fn size_hint(&self) -> (usize, Option<usize>)
        ensures lower { IsWithinCount result.0 (at_most (length self.now)) }
        ensures upper { IfSome result.1 (UpTo (at_most (length self.now))) }
        ensures exact { result ≡ (length self.now, Some (length self.now)) }
    {
        let left = self.rest.len();
        (left, Some(left))
    }
}

impl LocalDefMap {
    /// An extern prelude with no entry. Later insertions allocate from `alloc`; this call does not allocate.
    pub fn new(alloc: Global) -> LocalDefMap
        ensures { result ≡ [] }
    {
        LocalDefMap {
            extern_prelude: IndexMap::new(alloc),
        }
    }

    /// An extern prelude with no entry, for look-ups where there is none. It does not allocate.
    pub fn empty(alloc: Global) -> LocalDefMap
        ensures { result ≡ [] }
    {
        LocalDefMap::new(alloc)
    }

    /// The entries, in order of insertion. Does not allocate.
    pub fn extern_prelude(&self) -> ExternPrelude<'_>
        ensures rest { result ≡ self.now }
        ensures runs { ShowsInOrder deref_extern }
    {
        ExternPrelude {
            rest: self.extern_prelude.iter(),
        }
    }

    /// The module of that name, with the item that named it. Does not allocate.
    pub fn get(&self, name: &Name) -> Option<(ModuleId, Option<ExternCrateId>)>
        ensures { result ≡ find_name name.now self.now }
    {
        self.extern_prelude.get(name).copied()
    }

    /// Puts a module under a name, with the item that names it.
    ///
    /// A name that is there keeps its place and takes the new entry. Where an allocation fails, nothing changes.
    pub fn insert(
        &mut self,
        name: Name,
        m: ModuleId,
        named_by: Option<ExternCrateId>,
    ) -> Result<(), AllocError>
        ensures ok { OnOk result (self.new ≡ with_extern self.old name m named_by) }
        ensures err { OnErr result (self.new ≡ self.old) }
    {
        self.extern_prelude.insert(name, (m, named_by))?;
        Ok(())
    }

    /// The entries of the extern prelude.
    pub fn entries(&self) -> &IndexMap<Name, (ModuleId, Option<ExternCrateId>)>
        ensures { result.now.entries ≡ self.now }
    {
        &self.extern_prelude
    }
}
