//! Unresolved imports: a worklist of them, and look-ups by import.
ghost use Rattle.std.specs.Prelude.{◌≡◌, ◌<◌, ◌++◌, ◌∷◌, [], false, length, map, true, IfErr, IfSome, OnErr, OnOk};
ghost use Rattle.dm_retry.specs.Bits.{IsFirst};
ghost use Rattle.dm_retry.specs.Unresolved.{is_dirty_at};
ghost use Rattle.dm_retry.specs.Known.{is_listed};
ghost use Rattle.dm_retry.specs.Rounds.{awoken, marked, marked_at, name_at};

use crate::listing::Listing;
use crate::pending::Pending;
use crate::worklist::Worklist;
use dm_base::imports::ImportId;
use dm_base::name::Name;
use std::alloc::{AllocError, Global};
use std::marker::Model;

/// A worklist of unresolved imports, and its listing by import. A contract sees the plain list.
pub(crate) struct Pendings {
    worklist: Worklist,
    listing: Listing,
}

impl Model for Pendings {
    ghost use Rattle.std.specs.Prelude.{List};
    ghost use Rattle.dm_retry.specs.Listed.{IsListing};
    ghost use Rattle.dm_retry.specs.Rounds.{Pending};

    ghost Value = { List Pending };

    ghost view = { λ p. p.worklist };

    ghost invariant = { λ p. IsListing p.listing p.worklist };
}

/// A hand-written `Drop`, to keep proofs small: what drops one has one call to prove.
impl Drop for Pendings {
    fn drop(self) {
        let Pendings {
            worklist: _worklist,
            listing: _listing,
        } = self;
    }
}

impl Pendings {
    /// These imports, all of them dirty. Allocates nothing.
    pub(crate) fn all_dirty(imports: Vec<Pending>) -> Pendings
        ensures { result ≡ map (marked true) imports.items }
    {
        Pendings {
            worklist: Worklist::all_dirty(imports),
            listing: Listing::new(),
        }
    }

    /// The imports.
    pub(crate) fn as_slice(&self) -> &[Pending]
        ensures { result.now ≡ self.now }
    {
        self.worklist.as_slice()
    }

    /// The imports, as a list.
    pub(crate) fn into_imports(self) -> Vec<Pending>
        ensures { result.items ≡ self }
    {
        let Pendings {
            worklist,
            listing: _listing,
        } = self;
        worklist.into_imports()
    }

    /// The first dirty import from place `from` on.
    pub(crate) fn next_dirty(&self, from: usize) -> Option<usize>
        ensures first { IsFirst (is_dirty_at self.now) from result }
        ensures within { IfSome result (λ k. k < length self.now) }
    {
        self.worklist.next_dirty(from)
    }

    /// Takes the import at place k from the worklist. The first call makes the index, the bit set and the listing.
    ///
    /// Where an allocation for the index or the bit set fails, nothing changes. Where one for the listing fails, there
    /// is none, and the next call tries again.
    pub(crate) fn take(&mut self, k: usize, alloc: Global) -> Result<(), AllocError>
        ensures ok { OnOk result (self.new ≡ marked_at self.old k false) }
        ensures err { OnErr result (self.new ≡ self.old) }
        ensures put_back { OnErr result (self.new ≡ marked_at self.old k true) }
    {
        self.listing.make(alloc, self.worklist.as_slice());
        self.worklist.take(k)?;
        Ok(())
    }

    /// The import at place k becomes dirty. Allocates nothing.
    pub(crate) fn put_back(&mut self, k: usize)
        ensures { self.new ≡ marked_at self.old k true }
    {
        self.worklist.put_back(k);
    }

    /// Each import whose path has the name as a segment becomes dirty. Allocates nothing.
    pub(crate) fn wake(&mut self, name: &Name)
        ensures { self.new ≡ map (awoken name.now) self.old }
    {
        self.worklist.wake(name);
    }

    /// Each import whose path has the name that the import at place k binds as a segment becomes dirty. Allocates
    /// nothing.
    pub(crate) fn wake_by(&mut self, k: usize)
        requires { k < length self.old }
        ensures { self.new ≡ map (awoken (name_at self.old k)) self.old }
    {
        self.worklist.wake_by(k);
    }

    /// Adds an import at the end, which is dirty. Where an allocation fails, nothing changes, and it comes back.
    pub(crate) fn add(&mut self, pending: Pending) -> Result<(), (AllocError, Pending)>
        ensures ok { OnOk result (self.new ≡ self.old ++ marked true pending ∷ []) }
        ensures err { OnErr result (self.new ≡ self.old) }
        ensures back { IfErr result (λ e. e.1 ≡ pending) }
    {
        let import = pending.import();
        self.worklist.add(pending)?;
        self.listing.add(import);
        Ok(())
    }

    /// Whether an import is one of these.
    pub(crate) fn has(&self, import: ImportId) -> bool
        ensures { result ≡ is_listed self.now import }
    {
        self.listing.has(self.worklist.as_slice(), import)
    }
}
