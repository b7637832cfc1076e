//! A lazily allocated `IndexMap`.
ghost use Rattle.std.specs.Prelude.{◌≡◌, [], length, is_some, None, true, IfOk, OnOk, OnErr};
ghost use Rattle.std.specs.Option.{option_copied};
ghost use Rattle.std.specs.Map.{lookup, set_value, remove_entry};
ghost use Rattle.indexmap.specs.IndexMap.{insert_entry};
ghost use Rattle.dm_base.specs.Names.{same_name};
ghost use Rattle.dm_scope.specs.Entries.{add_entry, is_new, without_new};
ghost use Rattle.dm_scope.specs.LazyMaps.{entries_of};

use dm_base::name::Name;
use dm_base::name_hasher::NameHasherBuilder;
use indexmap::IndexMap;
use indexmap::map::Slice;
use std::alloc::{AllocError, Global};
use std::hash::Hash;
use std::marker::Model;

/// A map in order of insertion, which takes the hashes that names carry as they are.
pub type Table<K, V> = IndexMap<K, V, NameHasherBuilder>;

/// A map in order of insertion, behind a handle. It is allocated when something is first put into it: until then there
/// is only the handle. Contracts see its entries, and a map that was not made as an empty one.
#[derive(Drop)]
pub struct LazyMap<K: Eq + Hash, V> {
    pub(crate) map: Option<Box<Table<K, V>>>,
    alloc: Global,
}

impl<K: Eq + Hash, V> Model for LazyMap<K, V> {
    ghost use Rattle.std.specs.Prelude.{List, box_value};
    ghost use Rattle.std.specs.Option.{option_map};
    ghost use Rattle.dm_scope.specs.LazyMaps.{entries_of};

    ghost Value = { List (K × V) };

    ghost view = { λ m. entries_of (option_map box_value m.map) };
}

impl<K: Eq + Hash + Drop, V: Drop> LazyMap<K, V> {
    /// An empty map. Takes no memory.
    pub fn new(alloc: Global) -> LazyMap<K, V>
        ensures { result ≡ [] }
    {
        LazyMap { map: None, alloc }
    }

    /// The map, if it was made.
    pub(crate) fn made(&self) -> Option<&Table<K, V>>
        ensures { entries_of (option_copied result) ≡ self.now }
    {
        match &self.map {
            Some(map) => Some(map.as_ref()),
            None => None,
        }
    }

    /// The value at a key. Takes no memory: one look-up.
    pub fn get(&self, key: &K) -> Option<&V>
        ensures { option_copied result ≡ lookup (K.eq key.now) self.now }
    {
        let map = self.made()?;
        map.get(key)
    }

    /// Whether a key is there. Takes no memory: one look-up.
    pub(crate) fn contains_key(&self, key: &K) -> bool
        ensures { result ≡ is_some (lookup (K.eq key.now) self.now) }
    {
        match self.made() {
            Some(map) => map.contains_key(key),
            None => false,
        }
    }

    /// The entries, in order. Takes no memory.
    pub fn as_slice<'a>(&'a self) -> Slice<'a, K, V>
        ensures { result ≡ self.now }
    {
        let Some(map) = self.made() else {
            return Slice::new();
        };
        map.as_slice()
    }

    /// The number of entries.
    pub fn len(&self) -> usize
        ensures { result ≡ length self.now }
    {
        match self.made() {
            Some(map) => map.len(),
            None => 0,
        }
    }

    /// Puts a value at a key: a key that is there keeps its place, and a new one goes last. Where an allocation fails,
    /// nothing changes.
    pub fn insert(&mut self, key: K, value: V) -> Result<(), AllocError>
        ensures ok { OnOk result (self.new ≡ insert_entry K.eq self.old key value) }
        ensures err { OnErr result (self.new ≡ self.old) }
    {
        let mut map = self.taken()?;
        let inserted = insert(&mut map, key, value);
        self.put(map);
        inserted?;
        Ok(())
    }

    /// Puts a key last, unless it is there already. Answers whether it is new.
    pub(crate) fn add_key(&mut self, key: K, value: V) -> Result<bool, AllocError>
        ensures new { IfOk result (λ new. new ≡ is_new K.eq self.old key) }
        ensures entries { OnOk result (self.new ≡ add_entry K.eq self.old key value) }
        ensures err { OnErr result (self.new ≡ self.old) }
    {
        if self.contains_key(&key) {
            return Ok(false);
        }
        self.insert(key, value)?;
        Ok(true)
    }

    /// Puts a key last that is not there yet.
    pub(crate) fn add_vacant(&mut self, key: K, value: V) -> Result<(), AllocError>
        requires { lookup (K.eq key) self.old ≡ None }
        ensures entries { OnOk result (self.new ≡ insert_entry K.eq self.old key value) }
        ensures undo { OnOk result (without_new true self.new ≡ self.old) }
        ensures err { OnErr result (self.new ≡ self.old) }
    {
        self.insert(key, value)?;
        Ok(())
    }

    /// Writes the value at a key, where it is there. Takes no memory.
    pub(crate) fn set(&mut self, key: &K, value: V)
        ensures { self.new ≡ set_value (K.eq key.now) self.old value }
    {
        if let Some(map) = &mut self.map {
            set(map, key, value);
        }
    }

    /// Takes a key out. The others close up.
    pub(crate) fn shift_remove(&mut self, key: &K)
        ensures { self.new ≡ remove_entry (K.eq key.now) self.old }
    {
        if let Some(map) = &mut self.map {
            shift_remove(map, key);
        }
    }

    /// Takes the last entry off, where it is new.
    pub(crate) fn take_off(&mut self, new: bool)
        ensures { self.new ≡ without_new new self.old }
    {
        if let Some(map) = &mut self.map {
            take_off(map, new);
        }
    }

    /// Gives back memory that is not needed, where a smaller place can be had. The contents stay.
    pub fn shrink_to_fit(&mut self)
        ensures { self.new ≡ self.old }
    {
        if let Some(map) = &mut self.map {
            shrink(map);
        }
    }

    /// The map, taken out to be changed and put back, and made if it was not. Where an allocation fails, nothing
    /// changes.
    fn taken(&mut self) -> Result<Box<Table<K, V>>, AllocError>
        ensures ok { IfOk result (λ b. b.value.entries ≡ self.old) }
        ensures err { OnErr result (self.new ≡ self.old) }
    {
        match self.map.take() {
            Some(map) => Ok(map),
            None => {
                let made = Box::new(
                    self.alloc,
                    IndexMap::with_hasher(self.alloc, NameHasherBuilder),
                )?;
                Ok(made)
            }
        }
    }

    /// Puts a map that was taken out back.
    fn put(&mut self, map: Box<Table<K, V>>)
        ensures { self.new ≡ map.value.entries }
    {
        self.map = Some(map);
    }
}

impl<V: Drop> LazyMap<Name, V> {
    /// Puts a copy of a name last, unless the name is there already, which takes no memory. Answers whether it is new.
    pub(crate) fn add_name(&mut self, name: &Name, value: V) -> Result<bool, AllocError>
        ensures new { IfOk result (λ new. new ≡ is_new same_name self.old name.now) }
        ensures entries { OnOk result (self.new ≡ add_entry same_name self.old name.now value) }
        ensures err { OnErr result (self.new ≡ self.old) }
    {
        if self.contains_key(name) {
            return Ok(false);
        }
        let key = name.copy(self.alloc)?;
        self.insert(key, value)?;
        Ok(true)
    }
}

fn insert<K: Eq + Hash + Drop, V: Drop>(
    map: &mut Table<K, V>,
    key: K,
    value: V,
) -> Result<(), AllocError>
    ensures ok { OnOk result (map.new.entries ≡ insert_entry K.eq map.old.entries key value) }
    ensures err { OnErr result (map.new.entries ≡ map.old.entries) }
{
    map.insert(key, value)?;
    Ok(())
}

fn set<K: Eq + Hash + Drop, V: Drop>(map: &mut Table<K, V>, key: &K, value: V)
    ensures { map.new.entries ≡ set_value (K.eq key.now) map.old.entries value }
{
    if let Some(slot) = map.get_mut(key) {
        *slot = value;
    }
}

fn shift_remove<K: Eq + Hash + Drop, V: Drop>(map: &mut Table<K, V>, key: &K)
    ensures { map.new.entries ≡ remove_entry (K.eq key.now) map.old.entries }
{
    map.shift_remove(key);
}

fn take_off<K: Eq + Hash + Drop, V: Drop>(map: &mut Table<K, V>, new: bool)
    ensures { map.new.entries ≡ without_new new map.old.entries }
{
    if new {
        map.pop();
    }
}

fn shrink<K: Eq + Hash + Drop, V: Drop>(map: &mut Table<K, V>)
    ensures { map.new.entries ≡ map.old.entries }
{
    map.shrink_to_fit();
}
