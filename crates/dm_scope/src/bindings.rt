//! The bindings of one namespace of a scope, with shadowing: an explicit name replaces a glob's.
ghost use Rattle.std.specs.Prelude.{◌≡◌, IsTrue, map, List, [], ◌∷◌, ◌++◌, length, true, false, None, Some, OnErr, OnOk, IfOk, IfSome};
ghost use Rattle.std.specs.Option.{option_copied, option_and_then};
ghost use Rattle.std.specs.Iterator.{at_most, UpTo};
ghost use Rattle.std.specs.Iterator.SizeHint.{IsWithinCount};
ghost use Rattle.std.specs.Map.{lookup};
ghost use Rattle.std.specs.Map.Iter.{TakesFirst, ShowsInOrder};
ghost use Rattle.dm_base.specs.declared.per_ns.Item.{Item};
ghost use Rattle.dm_scope.specs.BindingIterators.{deref_name};
ghost use Rattle.dm_base.specs.declared.ids.ModuleId.{ModuleId};
ghost use Rattle.dm_base.specs.Names.{Name, same_name, find_name};
ghost use Rattle.dm_base.specs.Tree.{same_module};
ghost use Rattle.dm_scope.specs.Pushes.{PushAnswersIn, PushShowsIn, one_push, Push, ShowsIn, IsByName, is_effective};
ghost use Rattle.dm_scope.specs.Entries.{is_new};
ghost use Rattle.dm_scope.specs.BindingGives.{PushGivesIn};
ghost use Rattle.dm_scope.specs.Flags.{has_flag, flags_undone, no_flags};
ghost use Rattle.dm_scope.specs.Shadowing.{import_of, is_glob_by, writes};
ghost use Rattle.dm_scope.specs.Bindings.{stored, recorded, with_record, bound, bound_after, flags_after, is_effective_at};
ghost use Rattle.dm_scope.specs.PushSteps.{with_keys, without_keys, is_new_record, written, is_new_import, add_import, set_import, finished, flags_done};

mod changes;
pub mod glob_flags;
pub mod lazy_map;
mod names;
pub mod reads;
pub mod records;
pub(crate) mod shadowing;
mod steps;

use crate::bindings::glob_flags::GlobFlags;
use crate::bindings::lazy_map::LazyMap;
use crate::bindings::reads::Reads;
use crate::bindings::records::Records;
use crate::bindings::shadowing::{is_glob, narrowed, replaces};
use crate::bindings::steps::NewKeys;
use dm_base::definition::Definition;
use dm_base::ids::ModuleId;
use dm_base::import_source::ImportSource;
use dm_base::imports::{ImportOrDef, ImportOrExternCrate};
use dm_base::name::Name;
use dm_base::per_ns::Item;
use indexmap::map;
use std::alloc::{AllocError, Global};
use std::marker::Model;

/// The bindings of one namespace, with the records of its imports.
#[derive(Drop)]
pub struct Bindings<D: Definition, I: ImportSource> {
    items: LazyMap<Name, Item<D, I>>,
    records: LazyMap<I, ImportOrDef>,
}

impl<D: Definition, I: ImportSource> Model for Bindings<D, I> {
    ghost use Rattle.dm_scope.specs.Bindings.{Bound};

    ghost Value = { Bound D I };

    ghost view = { λ b. record { items = b.items; records = b.records } };
}

/// The bindings of a namespace, each as a name and its item, in order of first binding.
#[derive(Drop)]
pub struct Iter<'a, D, I> {
    entries: map::Iter<'a, Name, Item<D, I>>,
}

impl<'a, D, I> Model for Iter<'a, D, I> {
    ghost use Rattle.std.specs.Prelude.{List};
    ghost use Rattle.dm_base.specs.Names.{Name};
    ghost use Rattle.dm_base.specs.declared.per_ns.Item.{Item};

    ghost Value = { List (Name × Item D I) };

    ghost view = { λ a. a.entries };
}

impl<'a, D: Copy, I: Copy> Iterator for Iter<'a, D, I> {
    type Item = (&'a Name, Item<D, I>);

    ghost next_gives = { TakesFirst deref_name };

    ghost remaining = { λ s. at_most (length s) };

    fn next(&mut self) -> Option<(&'a Name, Item<D, I>)> {
        let (name, item) = self.entries.next()?;
        Some((name, *item))
    }

    fn size_hint(&self) -> (usize, Option<usize>)
        ensures lower { IsWithinCount result.0 (at_most (length self.now)) }
        ensures upper { IfSome result.1 (UpTo (at_most (length self.now))) }
        ensures exact { result ≡ (length self.now, Some (length self.now)) }
    {
        let left = self.entries.len();
        (left, Some(left))
    }
}

impl<D: Definition, I: ImportSource> Bindings<D, I> {
    /// No bindings. Takes no memory.
    pub fn new(alloc: Global) -> Self
        ensures empty { result ≡ record { items = []; records = [] } }

        // With a new table they show the empty list of pushes.
        ensures shown { (m : ModuleId) → ShowsIn ⟦<D as Reads<I>>⟧.reading result (has_flag no_flags m) [] }
    {
        Bindings {
            items: LazyMap::new(alloc),
            records: LazyMap::new(alloc),
        }
    }

    /// What is bound under a name. Takes no memory: one look-up.
    pub fn get(&self, name: &Name) -> Option<&Item<D, I>>
        ensures { option_copied result ≡ find_name name.now self.now.items }
    {
        self.items.get(name)
    }

    /// The bindings, in order of first binding. Takes no memory.
    pub fn iter(&self) -> Iter<'_, D, I>
        ensures rest { result ≡ self.now.items }
        ensures runs { ShowsInOrder (deref_name {X = Item D I}) }
    {
        Iter {
            entries: self.items.as_slice().iter(),
        }
    }

    /// What an import that brought a binding resolved to. Takes no memory: one look-up.
    pub fn record_of(&self, import: &I) -> Option<ImportOrDef>
        ensures { result ≡ lookup (I.eq import.now) self.now.records }
    {
        self.records.get(import).copied()
    }

    /// One push of a name of a module, with the glob flags of its namespace (docs/RULES.md, "Pushes"). Explicit names
    /// shadow globs: a glob binds vacant names only, and what it bound is replaced by any push that is no glob's.
    ///
    /// Answers whether the push is effective, that is, whether it writes. Where an allocation fails, bindings and flags
    /// are as they were.
    pub fn push(
        &mut self,
        flags: &mut GlobFlags,
        lookup: (ModuleId, Name),
        item: Item<D, I>,
        import: Option<ImportOrExternCrate>,
    ) -> Result<bool, AllocError>
        ensures gives { PushGivesIn ⟦<D as Reads<I>>⟧.reading self.old flags.old self.new flags.new lookup.0
            lookup.1 item import result }

        // Where they show a list of pushes, they show it with this push after it, and the answer is as that list says.
        ensures shown { PushShowsIn ⟦<D as Reads<I>>⟧.reading self.old (has_flag flags.old lookup.0) self.new
            (has_flag flags.new lookup.0)
            (one_push ⟦<D as Reads<I>>⟧.reading lookup.1 item import) result }
        ensures shown_answer { PushAnswersIn ⟦<D as Reads<I>>⟧.reading self.old (has_flag flags.old lookup.0)
            (one_push ⟦<D as Reads<I>>⟧.reading lookup.1 item import) result }

        // What any list of pushes binds to a name depends only on the pushes of that name, and not on globs where one
        // of these is explicit.
        ensures by_name { (n : Name) → IsByName ⟦<D as Reads<I>>⟧.reading n }
        ensures elsewhere { (k : ModuleId) (n : Name) → same_module lookup.0 k ≡ false
            → has_flag flags.new k n ≡ has_flag flags.old k n }
    {
        let (m, name) = lookup;
        let effective = self.push_named(flags, m, name, &item, import)?;
        Ok(effective)
    }

    /// The push, with a fast path: a vacant name is moved into the table, not copied, where the import is no glob and
    /// no flag stands.
    pub fn push_named(
        &mut self,
        flags: &mut GlobFlags,
        m: ModuleId,
        name: Name,
        item: &Item<D, I>,
        import: Option<ImportOrExternCrate>,
    ) -> Result<bool, AllocError>
        ensures { PushGivesIn ⟦<D as Reads<I>>⟧.reading self.old flags.old self.new flags.new m name item.now
            import result }
    {
        let narrow = narrowed(import);
        if self.is_first(flags, m, &name, narrow) {
            self.bind_first(name, item, narrow)?;
            return Ok(true);
        }
        let new = self.grow(flags, m, &name, Some(*item), import)?;
        self.finish(flags, new, m, &name, Some(*item), import);
        Ok(new.writes)
    }

    /// Whether a push binds a vacant name and leaves the flags as they are.
    fn is_first(&self, flags: &GlobFlags, m: ModuleId, name: &Name, import: Option<I>) -> bool
        ensures vacant { IsTrue result → find_name name.now self.now.items ≡ None }
        ensures no_glob { IsTrue result → is_glob_by I.globs import ≡ false }
        ensures unset { IsTrue result → has_flag flags.now m name.now ≡ false }
    {
        self.get(name).is_none() && !is_glob(import) && !flags.contains(m, name)
    }

    /// Binds a vacant name, which the table takes.
    fn bind_first(
        &mut self,
        name: Name,
        item: &Item<D, I>,
        import: Option<I>,
    ) -> Result<(), AllocError>
        requires { find_name name self.old.items ≡ None }
        ensures ok { OnOk result (self.new ≡ bound ⟦<D as Reads<I>>⟧.reading self.old name item.now import) }
        ensures err { OnErr result (self.new ≡ self.old) }
    {
        self.items.add_vacant(name, stored(item, import))?;
        match put_record(&mut self.records, item, import) {
            Ok(()) => Ok(()),
            Err(refused) => {
                self.items.take_off(true);
                Err(refused)
            }
        }
    }

    /// The items, in order of first binding.
    pub fn items(&self) -> &[Item<D, I>]
        ensures { result.now ≡ map (λ e. e.1) self.now.items }
    {
        self.items.as_slice().values().as_slice()
    }

    /// The names that are bound, in order of first binding.
    pub fn names(&self) -> &[Name]
        ensures { result.now ≡ map (λ e. e.0) self.now.items }
    {
        self.items.as_slice().keys().as_slice()
    }

    /// The imports that have a record.
    pub fn imports(&self) -> &[I]
        ensures { result.now ≡ map (λ e. e.0) self.now.records }
    {
        self.records.as_slice().keys().as_slice()
    }

    /// What each import that brought a binding resolved to, each import seen as any import.
    pub fn records(&self) -> Records<'_, I>
        ensures { result ≡ map (λ e. (I.widened e.0, e.1)) self.now.records }
    {
        Records::new(self.records.as_slice())
    }

    /// How many imports have a record.
    pub fn record_count(&self) -> usize
        ensures { result ≡ length self.now.records }
    {
        self.records.len()
    }

    /// The first step of a push, which makes all its allocations: new keys go last. The second step cannot fail, so a
    /// push is all or nothing.
    pub(crate) fn grow(
        &mut self,
        flags: &mut GlobFlags,
        m: ModuleId,
        name: &Name,
        item: Option<Item<D, I>>,
        import: Option<ImportOrExternCrate>,
    ) -> Result<NewKeys, AllocError>
        ensures writes { IfOk result
            (λ new.
            new.writes
            ≡ is_effective_at ⟦<D as Reads<I>>⟧.reading self.old flags.old m name.now item
            import) }
        ensures undo { IfOk result (λ new. without_keys self.new new.item new.record_key ≡ self.old) }
        ensures undo_flags { IfOk result (λ new. flags_undone flags.new m name.now new.flag ≡ flags.old) }
        ensures finish { IfOk result
            (λ new.
            finished ⟦<D as Reads<I>>⟧.reading self.new new.writes name.now item import
            ≡ bound_after ⟦<D as Reads<I>>⟧.reading self.old flags.old m name.now item
            import) }
        ensures finish_flags { IfOk result
            (λ new.
            flags_done ⟦<D as Reads<I>>⟧.reading flags.new new.writes m name.now import
            ≡ flags_after ⟦<D as Reads<I>>⟧.reading self.old flags.old m name.now item
            import) }
        ensures err { OnErr result (self.new ≡ self.old) }
        ensures err_flags { OnErr result (flags.new ≡ flags.old) }
    {
        let Some(item) = item else {
            return Ok(NewKeys::none());
        };
        let import = narrowed(import);
        if !self.writes(flags.contains(m, name), name, &item, import) {
            return Ok(NewKeys::none());
        }
        let new = self.add_keys(name, &item, import)?;
        match flags.grow(m, name, is_glob(import)) {
            Ok(flag) => Ok(NewKeys { flag, ..new }),
            Err(refused) => {
                self.remove_keys(new);
                Err(refused)
            }
        }
    }

    /// Undoes the first step of a push.
    pub(crate) fn undo(&mut self, flags: &mut GlobFlags, new: NewKeys, m: ModuleId, name: &Name)
        ensures bindings { self.new ≡ without_keys self.old new.item new.record_key }
        ensures flags { flags.new ≡ flags_undone flags.old m name.now new.flag }
    {
        self.remove_keys(new);
        flags.undo(m, name, new.flag);
    }

    /// The second step of a push. Takes no memory.
    pub(crate) fn finish(
        &mut self,
        flags: &mut GlobFlags,
        new: NewKeys,
        m: ModuleId,
        name: &Name,
        item: Option<Item<D, I>>,
        import: Option<ImportOrExternCrate>,
    )
        ensures bindings { self.new ≡ finished ⟦<D as Reads<I>>⟧.reading self.old new.writes name.now item import }
        ensures flags { flags.new ≡ flags_done ⟦<D as Reads<I>>⟧.reading flags.old new.writes m name.now import }
    {
        if !new.writes {
            return;
        }
        let import = narrowed(import);
        flags.finish(m, name, is_glob(import));
        if let Some(item) = item {
            self.write(name, &item, import);
        }
    }

    /// Whether a push is effective.
    fn writes(&self, flag: bool, name: &Name, item: &Item<D, I>, import: Option<I>) -> bool
        ensures { result
            ≡ writes ⟦<D as Reads<I>>⟧.reading (find_name name.now self.now.items) flag item.now
            import }
    {
        let Some(old) = self.get(name) else {
            return true;
        };
        replaces(old, flag, item, import)
    }

    /// Puts the new keys of a push that writes last, with their values. Where an allocation fails, nothing changes.
    fn add_keys(
        &mut self,
        name: &Name,
        item: &Item<D, I>,
        import: Option<I>,
    ) -> Result<NewKeys, AllocError>
        ensures writes { IfOk result (λ new. new.writes ≡ true) }
        ensures item { IfOk result (λ new. new.item ≡ is_new same_name self.old.items name.now) }
        ensures record_key { IfOk result
            (λ new.
            new.record_key
            ≡ is_new_record ⟦<D as Reads<I>>⟧.reading self.old.records import) }
        ensures ok { OnOk result
            (self.new ≡ with_keys ⟦<D as Reads<I>>⟧.reading self.old name.now item.now import) }
        ensures err { OnErr result (self.new ≡ self.old) }
    {
        let item_is_new = self.items.add_name(name, stored(item, import))?;
        match add_record(&mut self.records, import, recorded(item)) {
            Ok(record_is_new) => Ok(NewKeys {
                writes: true,
                item: item_is_new,
                record_key: record_is_new,
                flag: false,
            }),
            Err(refused) => {
                self.items.take_off(item_is_new);
                Err(refused)
            }
        }
    }

    /// Takes the new keys off again.
    fn remove_keys(&mut self, new: NewKeys)
        ensures { self.new ≡ without_keys self.old new.item new.record_key }
    {
        self.items.take_off(new.item);
        self.records.take_off(new.record_key);
    }

    /// Writes at keys that stand. Takes no memory.
    fn write(&mut self, name: &Name, item: &Item<D, I>, import: Option<I>)
        ensures { self.new ≡ written ⟦<D as Reads<I>>⟧.reading self.old name.now item.now import }
    {
        self.items.set(name, stored(item, import));
        write_record(&mut self.records, import, recorded(item));
    }
}

/// The item that is stored for a pushed one.
fn stored<D: Definition, I: ImportSource>(item: &Item<D, I>, import: Option<I>) -> Item<D, I>
    ensures { result ≡ stored ⟦<D as Reads<I>>⟧.reading item.now import }
{
    Item {
        def: item.def,
        vis: item.vis,
        import,
    }
}

/// What the record of a push's import becomes.
fn recorded<D: Definition, I: ImportSource>(item: &Item<D, I>) -> ImportOrDef
    ensures { result ≡ recorded ⟦<D as Reads<I>>⟧.reading item.now }
{
    match item.import {
        None => ImportOrDef::Def(item.def.widen_def()),
        Some(i) => ImportOrDef::from(i.widen()),
    }
}

fn add_record<I: ImportSource>(
    records: &mut LazyMap<I, ImportOrDef>,
    import: Option<I>,
    value: ImportOrDef,
) -> Result<bool, AllocError>
    ensures new { IfOk result (λ new. new ≡ is_new_import I.eq records.old import) }
    ensures ok { OnOk result (records.new ≡ add_import I.eq records.old import value) }
    ensures err { OnErr result (records.new ≡ records.old) }
{
    match import {
        None => Ok(false),
        Some(i) => records.add_key(i, value),
    }
}

/// Records the import of a push, if there is one: a new one goes last.
fn put_record<D: Definition, I: ImportSource>(
    records: &mut LazyMap<I, ImportOrDef>,
    item: &Item<D, I>,
    import: Option<I>,
) -> Result<(), AllocError>
    ensures ok { OnOk result
        (records.new
        ≡ with_record ⟦<D as Reads<I>>⟧.reading records.old import
        (recorded ⟦<D as Reads<I>>⟧.reading item.now)) }
    ensures err { OnErr result (records.new ≡ records.old) }
{
    if let Some(i) = import {
        records.insert(i, recorded(item))?;
    }
    Ok(())
}

fn write_record<I: ImportSource>(
    records: &mut LazyMap<I, ImportOrDef>,
    import: Option<I>,
    value: ImportOrDef,
)
    ensures { records.new ≡ set_import I.eq records.old import value }
{
    if let Some(i) = import {
        records.set(&i, value);
    }
}
