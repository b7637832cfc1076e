//! A worklist of unresolved imports.
ghost use Rattle.std.specs.Prelude.{◌≡◌, ◌<◌, ◌++◌, ◌∷◌, [], List, false, length, map, true, IfErr, IfOk, IfSome, OnErr, OnOk};
ghost use Rattle.dm_retry.specs.Bits.{IsFirst};
ghost use Rattle.dm_retry.specs.Index.{IsKept, IsReady, Marks, all_marked};
ghost use Rattle.dm_retry.specs.Rounds.{Pending, awoken, marked, marked_at, name_at};
ghost use Rattle.dm_retry.specs.Unresolved.{AllDirty, is_dirty_at};

mod bits;
mod dirty_set;
mod grow;
mod index;

use crate::pending::Pending;
use crate::worklist::dirty_set::DirtySet;
use crate::worklist::grow::{make_room, push_dirty};
use crate::worklist::index::{Places, add_names, places_of};
use dm_base::name::Name;
use indexmap::IndexMap;
use std::alloc::{AllocError, Global};
use std::marker::Model;

/// Unresolved imports, in order, of which some are dirty. A contract sees their list.
///
/// An index maps each name to the places of the imports whose path has it as a segment, and a bit set tells which
/// imports are dirty. Both are made when the first import is taken: until then every import is dirty.
pub(crate) struct Worklist {
    imports: Vec<Pending>,
    index: IndexMap<Name, Places>,
    dirty: DirtySet,
    ready: bool,
}

impl Model for Worklist {
    ghost use Rattle.std.specs.Prelude.{List};
    ghost use Rattle.dm_retry.specs.Index.{IsReady};
    ghost use Rattle.dm_retry.specs.Rounds.{Pending};

    ghost Value = { List Pending };

    ghost view = { λ w. w.imports.items };

    ghost invariant = { λ w. IsReady w.ready w.index.entries w.dirty w.imports.items };
}

/// A hand-written `Drop`, to keep proofs small: what drops one has one call to prove.
impl Drop for Worklist {
    fn drop(self) {
        let Worklist {
            imports: _imports,
            index: _index,
            dirty: _dirty,
            ready: _ready,
        } = self;
    }
}

impl Worklist {
    /// These imports, all of them dirty. Allocates nothing; `take` uses the allocator of the list.
    pub(crate) fn all_dirty(imports: Vec<Pending>) -> Worklist
        ensures { result ≡ map (marked true) imports.items }
    {
        let alloc = *imports.allocator();
        let mut dirty = imports;
        mark_all(&mut dirty);
        Worklist {
            imports: dirty,
            index: IndexMap::new(alloc),
            dirty: DirtySet::new(alloc),
            ready: false,
        }
    }

    /// Adds an import at the end, which is dirty. Where the index was made, it grows by one look-up for each segment of
    /// the import's path; where it was not, the list alone grows.
    ///
    /// Where an allocation fails, nothing changes, and the import comes back.
    pub(crate) fn add(&mut self, import: Pending) -> Result<(), (AllocError, Pending)>
        ensures ok { OnOk result (self.new ≡ self.old ++ marked true import ∷ []) }
        ensures err { OnErr result (self.new ≡ self.old) }
        ensures back { IfErr result (λ e. e.1 ≡ import) }
    {
        match make_room(
            &mut self.imports,
            &mut self.index,
            &mut self.dirty,
            self.ready,
            &import,
        ) {
            Err(refused) => Err((refused, import)),
            Ok(()) => {
                push_dirty(&mut self.imports, import);
                Ok(())
            }
        }
    }

    /// The imports in their current state.
    pub(crate) fn as_slice(&self) -> &[Pending]
        ensures { result.now ≡ self.now }
    {
        self.imports.as_slice()
    }

    /// The imports in their current state, as a list.
    pub(crate) fn into_imports(self) -> Vec<Pending>
        ensures { result.items ≡ self }
    {
        let Worklist {
            imports: unresolved,
            index: _index,
            dirty: _dirty,
            ready: _ready,
        } = self;
        unresolved
    }

    /// The first dirty import from place `from` on.
    pub(crate) fn next_dirty(&self, from: usize) -> Option<usize>
        ensures first { IsFirst (is_dirty_at self.now) from result }
        ensures within { IfSome result (λ k. k < length self.now) }
    {
        if self.ready {
            self.dirty.first(from)
        } else if from < self.imports.len() {
            Some(from)
        } else {
            None
        }
    }

    /// Takes the import at place k from the worklist: it is not dirty any more. The first call makes the index and the
    /// bit set, whole; later calls allocate nothing.
    ///
    /// Where an allocation fails, nothing changes: every import is dirty, this one, too.
    pub(crate) fn take(&mut self, k: usize) -> Result<(), AllocError>
        ensures ok { OnOk result (self.new ≡ marked_at self.old k false) }
        ensures err { OnErr result (self.new ≡ self.old) }
        ensures dirty { OnErr result (AllDirty self.old) }
        ensures put_back { OnErr result (self.new ≡ marked_at self.old k true) }
    {
        prepare(
            &self.imports,
            &mut self.index,
            &mut self.dirty,
            &mut self.ready,
        )?;
        mark(&mut self.imports, &mut self.dirty, k, false);
        Ok(())
    }

    /// The import at place k becomes dirty. Allocates nothing.
    pub(crate) fn put_back(&mut self, k: usize)
        ensures { self.new ≡ marked_at self.old k true }
    {
        if self.ready {
            mark(&mut self.imports, &mut self.dirty, k, true);
        }
    }

    /// Each import whose path has the name as a segment becomes dirty. Allocates nothing.
    pub(crate) fn wake(&mut self, name: &Name)
        ensures { self.new ≡ map (awoken name.now) self.old }
    {
        if self.ready {
            let places = places_of(&self.index, name);
            mark_each(&mut self.imports, &mut self.dirty, places);
        }
    }

    /// Each import whose path has the name that the import at place k binds as a segment becomes dirty. Allocates
    /// nothing.
    pub(crate) fn wake_by(&mut self, k: usize)
        requires { k < length self.old }
        ensures { self.new ≡ map (awoken (name_at self.old k)) self.old }
    {
        if self.ready {
            let places = places_of(&self.index, self.imports[k].name());
            mark_each(&mut self.imports, &mut self.dirty, places);
        }
    }
}

/// All of these are dirty.
fn mark_all(imports: &mut Vec<Pending>)
    ensures { imports.new.items ≡ map (marked true) imports.old.items }
{
    mark_all_of(imports.as_mut_slice());
}

/// All of these are dirty.
fn mark_all_of(imports: &mut [Pending])
    ensures { imports.new ≡ map (marked true) imports.old }
{
    for import in imports.iter_mut() {
        import.set_due(true);
    }
}

/// The imports at the places become dirty.
fn mark_each(imports: &mut Vec<Pending>, dirty: &mut DirtySet, places: &[u32])
    requires { Marks dirty.old imports.old.items }
    ensures imports { imports.new.items ≡ all_marked places.now imports.old.items }
    ensures marks { Marks dirty.new imports.new.items }
{
    let mut rest = places;
    'places: while let Some((first, after)) = rest.split_first() {
        mark(imports, dirty, *first as usize, true);
        rest = after;
    }
}

/// Marks the import at place k, if there is one.
fn mark(imports: &mut Vec<Pending>, dirty: &mut DirtySet, k: usize, is_dirty: bool)
    requires { Marks dirty.old imports.old.items }
    ensures imports { imports.new.items ≡ marked_at imports.old.items k is_dirty }
    ensures marks { Marks dirty.new imports.new.items }
{
    if k < imports.len() {
        imports[k].set_due(is_dirty);
        dirty.set(k, is_dirty);
    }
}

/// Makes the index and the bit set, where they are not there yet.
fn prepare(
    imports: &Vec<Pending>,
    index: &mut IndexMap<Name, Places>,
    dirty: &mut DirtySet,
    ready: &mut bool,
) -> Result<(), AllocError>
    requires { IsReady ready.old index.old.entries dirty.old imports.now.items }
    ensures ready { IsReady ready.new index.new.entries dirty.new imports.now.items }
    ensures ok { OnOk result (ready.new ≡ true) }
    ensures err { OnErr result (ready.old ≡ false) }
{
    if !*ready {
        let (built_index, built_dirty) = built(*imports.allocator(), imports.as_slice())?;
        *index = built_index;
        *dirty = built_dirty;
        *ready = true;
    }
    Ok(())
}

/// The index and the bit set of imports.
fn built(
    alloc: Global,
    imports: &[Pending],
) -> Result<(IndexMap<Name, Places>, DirtySet), AllocError>
    ensures { IfOk result (λ made. IsKept made.0.entries made.1 imports.now) }
{
    let mut index = IndexMap::new(alloc);
    let mut dirty = DirtySet::new(alloc);
    for k in 0..imports.len() {
        index_one(&mut index, &mut dirty, alloc, &imports[k], k)?;
    }
    Ok((index, dirty))
}

/// Adds the import at place k to the index and the bit set of those before it.
fn index_one(
    index: &mut IndexMap<Name, Places>,
    dirty: &mut DirtySet,
    alloc: Global,
    import: &Pending,
    k: usize,
) -> Result<(), AllocError>
    ensures { OnOk result
        ((xs : List Pending) → k ≡ length xs → IsKept index.old.entries dirty.old xs
        → IsKept index.new.entries dirty.new (xs ++ import.now ∷ [])) }
{
    let place = as_place(k)?;
    dirty.cover(place as usize)?;
    add_names(index, alloc, import.segments(), place)?;
    dirty.set(place as usize, import.is_due());
    Ok(())
}

/// A place as the index keeps it, if it fits: more imports than a `u32` counts end in an `AllocError`.
pub(crate) fn as_place(k: usize) -> Result<u32, AllocError>
    ensures { IfOk result (λ place. place ≡ k) }
{
    match u32::try_from(k) {
        Ok(place) => Ok(place),
        Err(_) => Err(AllocError),
    }
}
