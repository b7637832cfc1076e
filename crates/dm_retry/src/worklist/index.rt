//! An index of the names in paths.
ghost use Rattle.std.specs.Prelude.{◌≡◌, ℕ, ◌&&◌, ◌||◌, false, filter, not, nat_eq, None, [], ◌∷◌, ◌++◌, IfOk, OnErr, OnOk};
ghost use Rattle.dm_base.specs.Names.{Name, same_name};
ghost use Rattle.indexmap.specs.IndexMap.{get};
ghost use Rattle.dm_retry.specs.Index.{has_place, places_of};
ghost use Rattle.dm_maps.specs.Cut.{among};

use dm_base::name::Name;
use indexmap::IndexMap;
use std::alloc::{AllocError, Global};
use std::marker::Model;

/// Places of imports, which a contract sees as their list.
pub(crate) struct Places {
    places: Vec<u32>,
}

impl Model for Places {
    ghost use Rattle.std.specs.Prelude.{ℕ, List};

    ghost Value = { List ℕ };

    ghost view = { λ p. p.places.items };
}

/// A hand-written `Drop`, to keep proofs small: what drops one has one call to prove.
impl Drop for Places {
    fn drop(self) {
        let Places { places: _places } = self;
    }
}

impl Places {
    /// One place.
    fn one(alloc: Global, k: u32) -> Result<Places, AllocError>
        ensures { IfOk result (λ places. places ≡ k ∷ []) }
    {
        let mut places = Vec::new(alloc);
        places.push(k)?;
        Ok(Places { places })
    }

    /// The places.
    pub(crate) fn as_slice(&self) -> &[u32]
        ensures { result.now ≡ self.now }
    {
        self.places.as_slice()
    }

    /// Adds a place.
    fn push(&mut self, k: u32) -> Result<(), AllocError>
        ensures ok { OnOk result (self.new ≡ self.old ++ k ∷ []) }
        ensures err { OnErr result (self.new ≡ self.old) }
    {
        self.places.push(k)?;
        Ok(())
    }

    /// Takes a place out.
    fn remove(&mut self, k: u32)
        ensures { self.new ≡ filter (λ place. not (nat_eq place k)) self.old }
    {
        self.places.retain(|place| *place != k);
    }
}

/// The places under a name.
pub(crate) fn places_of<'a>(index: &'a IndexMap<Name, Places>, name: &Name) -> &'a [u32]
    ensures { result.now ≡ places_of index.now.entries name.now }
{
    match index.get(name) {
        None => &[],
        Some(places) => places.as_slice(),
    }
}

/// Adds a place that is new under each of these names. Where an allocation fails, the index has the places that it had.
pub(crate) fn add_path(
    index: &mut IndexMap<Name, Places>,
    alloc: Global,
    names: &[Name],
    k: u32,
) -> Result<(), AllocError>
    requires { (n : Name) → has_place index.old.entries n k ≡ false }
    ensures ok { OnOk result ((n : Name) (j : ℕ) →
        has_place index.new.entries n j ≡ (has_place index.old.entries n j || (among names.now n && nat_eq j k))) }
    ensures err { OnErr result
        ((n : Name) (j : ℕ) → has_place index.new.entries n j ≡ has_place index.old.entries n j) }
{
    match add_names(index, alloc, names, k) {
        Ok(()) => Ok(()),
        Err(refused) => {
            remove_names(index, names, k);
            Err(refused)
        }
    }
}

/// Adds a place under each of these names; where an allocation fails, under some of them.
pub(crate) fn add_names(
    index: &mut IndexMap<Name, Places>,
    alloc: Global,
    names: &[Name],
    k: u32,
) -> Result<(), AllocError>
    ensures ok { OnOk result ((n : Name) (j : ℕ) →
        has_place index.new.entries n j ≡ (has_place index.old.entries n j || (among names.now n && nat_eq j k))) }
    ensures err { OnErr result ((n : Name) (j : ℕ) → (among names.now n && nat_eq j k) ≡ false →
        has_place index.new.entries n j ≡ has_place index.old.entries n j) }
{
    let mut rest = names;
    'names: while let Some((first, after)) = rest.split_first() {
        add_name(index, alloc, first, k)?;
        rest = after;
    }
    Ok(())
}

/// Takes a place out under each of these names.
fn remove_names(index: &mut IndexMap<Name, Places>, names: &[Name], k: u32)
    ensures { (n : Name) (j : ℕ) →
        has_place index.new.entries n j ≡ (has_place index.old.entries n j && not (among names.now n && nat_eq j k)) }
{
    let mut rest = names;
    'names: while let Some((first, after)) = rest.split_first() {
        remove_name(index, first, k);
        rest = after;
    }
}

/// Adds a place under a name.
fn add_name(
    index: &mut IndexMap<Name, Places>,
    alloc: Global,
    name: &Name,
    k: u32,
) -> Result<(), AllocError>
    ensures ok { OnOk result ((n : Name) (j : ℕ) →
        has_place index.new.entries n j ≡ (has_place index.old.entries n j || (same_name n name.now && nat_eq j k))) }
    ensures err { OnErr result
        ((n : Name) (j : ℕ) → has_place index.new.entries n j ≡ has_place index.old.entries n j) }
{
    match index.get_mut(name) {
        Some(places) => {
            let pushed = places.push(k)?;
            Ok(pushed)
        }
        None => add_new_name(index, alloc, name, k),
    }
}

/// Adds a place under a name that is new.
fn add_new_name(
    index: &mut IndexMap<Name, Places>,
    alloc: Global,
    name: &Name,
    k: u32,
) -> Result<(), AllocError>
    requires { get same_name index.old name.now ≡ None }
    ensures ok { OnOk result (index.new.entries ≡ index.old.entries ++ (name.now, k ∷ []) ∷ []) }
    ensures err { OnErr result (index.new.entries ≡ index.old.entries) }
{
    let key = name.copy(alloc)?;
    let places = Places::one(alloc, k)?;
    index.insert(key, places)?;
    Ok(())
}

/// Takes a place out under a name.
fn remove_name(index: &mut IndexMap<Name, Places>, name: &Name, k: u32)
    ensures { (n : Name) (j : ℕ) →
        has_place index.new.entries n j ≡ (has_place index.old.entries n j && not (same_name n name.now && nat_eq j k)) }
{
    if let Some(places) = index.get_mut(name) {
        places.remove(k);
    }
}
