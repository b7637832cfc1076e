//! Mutators of the bindings of a namespace, beside pushes. None of them has to allocate: `shrink_to_fit` may, and goes
//! on where that fails.
ghost use Rattle.std.specs.Prelude.{◌≡◌, map};
ghost use Rattle.dm_base.specs.Names.{find_name};
ghost use Rattle.dm_scope.specs.Changes.{is_of, without_binding, with_vis, with_def, change_item, change_all, censored, censored_macro, is_own_proc_macro};

use super::Bindings;
use crate::bindings::lazy_map::Table;
use dm_base::definition::Definition;
use dm_base::ids::Crate;
use dm_base::import_source::ImportSource;
use dm_base::imports::ImportOrExternCrate;
use dm_base::item_ids::MacroId;
use dm_base::name::Name;
use dm_base::per_ns::{Item, MacrosItem};
use dm_base::visibility::Visibility;

impl<D: Definition, I: ImportSource> Bindings<D, I> {
    /// Removes a binding, where it is of the definition. The order of the others stays, and so do the import records.
    pub fn remove(&mut self, name: &Name, def: D)
        ensures { self.new ≡ without_binding D.eq name.now def self.old }
    {
        if self.is_of(name, def) {
            self.items.shift_remove(name);
        }
    }

    /// Whether a name is bound to the definition.
    fn is_of(&self, name: &Name, def: D) -> bool
        ensures { result ≡ is_of D.eq def (find_name name.now self.now.items) }
    {
        self.get(name).is_some_and(|item| item.def == def)
    }

    /// Changes the visibility of a binding.
    pub fn update_visibility(&mut self, name: &Name, vis: Visibility)
        ensures { self.new ≡ with_vis name.now vis self.old }
    {
        if let Some(items) = &mut self.items.map {
            set_visibility(items, name, vis);
        }
    }

    /// Changes what a name is bound to, and its visibility.
    pub fn update_def(&mut self, name: &Name, def: D, vis: Visibility)
        ensures { self.new ≡ with_def name.now def vis self.old }
    {
        if let Some(items) = &mut self.items.map {
            set_def(items, name, def, vis);
        }
    }

    /// Restricts each binding to the crate.
    pub fn censor(&mut self, krate: Crate)
        ensures { self.new ≡ change_all (censored krate) self.old }
    {
        if let Some(items) = &mut self.items.map {
            censor(items, krate);
        }
    }

    /// Gives back memory that is not needed.
    pub fn shrink_to_fit(&mut self)
        ensures { self.new ≡ self.old }
    {
        self.items.shrink_to_fit();
        self.records.shrink_to_fit();
    }
}

impl Bindings<MacroId, ImportOrExternCrate> {
    /// Restricts each macro to the crate, except procedural ones that are no import.
    pub fn censor_non_proc(&mut self, krate: Crate)
        ensures { self.new ≡ change_all (censored_macro krate) self.old }
    {
        if let Some(items) = &mut self.items.map {
            censor_macros(items, krate);
        }
    }
}

/// Changes the visibility of a binding.
fn set_visibility<D: Definition, I: ImportSource>(
    items: &mut Table<Name, Item<D, I>>,
    name: &Name,
    vis: Visibility,
)
    ensures { items.new.entries ≡ change_item (λ x. record x { vis = vis }) name.now items.old.entries }
{
    if let Some(item) = items.get_mut(name) {
        item.vis = vis;
    }
}

/// Changes what a name is bound to, and its visibility.
fn set_def<D: Definition, I: ImportSource>(
    items: &mut Table<Name, Item<D, I>>,
    name: &Name,
    def: D,
    vis: Visibility,
)
    ensures { items.new.entries
        ≡ change_item (λ x. record x { def = def; vis = vis }) name.now items.old.entries }
{
    if let Some(item) = items.get_mut(name) {
        item.def = def;
        item.vis = vis;
    }
}

/// Restricts each binding to the crate.
fn censor<D: Definition, I: ImportSource>(items: &mut Table<Name, Item<D, I>>, krate: Crate)
    ensures { items.new.entries ≡ map (λ e. (e.0, censored krate e.1)) items.old.entries }
{
    // Nothing is taken out: of the loops over a table, `retain` is the one that says what it writes.
    items.retain(|_, item| {
        item.vis = Visibility::PubCrate(krate);
        true
    });
}

/// Restricts each macro to the crate, except procedural ones that are no import.
fn censor_macros(items: &mut Table<Name, MacrosItem>, krate: Crate)
    ensures { items.new.entries ≡ map (λ e. (e.0, censored_macro krate e.1)) items.old.entries }
{
    items.retain(|_, item| {
        if !is_own_proc_macro(item) {
            item.vis = Visibility::PubCrate(krate);
        }
        true
    });
}

/// Whether a macro is a procedural one, and no import.
fn is_own_proc_macro(item: &MacrosItem) -> bool
    ensures { result ≡ is_own_proc_macro item.now }
{
    matches!(item.def, MacroId::ProcMacroId(_)) && item.import.is_none()
}
