//! `ModuleData`: a module of a def map.
ghost use Rattle.std.specs.Prelude.{◌≡◌, OnOk, OnErr, is_some};
ghost use Rattle.std.specs.Borrow.{sem};
ghost use Rattle.dm_base.specs.Names.{find_name};
ghost use Rattle.dm_def_map.specs.Maps.{fresh_module, with_child};
ghost use Rattle.dm_def_map.specs.LendingModule.{LendsModuleScope};
ghost use Rattle.dm_def_map.specs.Origins.{source_file};

use crate::modules::module_origin::ModuleOrigin;
use crate::texts::has_text;
use dm_base::ids::ModuleId;
use dm_base::name::Name;
use dm_base::source::HirFileId;
use dm_base::visibility::Visibility;
use dm_scope::bindings::lazy_map::LazyMap;
use dm_scope::item_scope::ItemScope;
use indexmap::map::Slice;
use std::alloc::{AllocError, Global};
use std::marker::Model;

/// A module of a def map.
pub struct ModuleData {
    origin: ModuleOrigin,
    visibility: Visibility,
    parent: Option<ModuleId>,
    children: LazyMap<Name, ModuleId>,
    scope: ItemScope,
}

/// A hand-written `Drop`, to keep proofs small: code that drops a value has one call to prove.
impl Drop for ModuleData {
    fn drop(self) {
        let ModuleData {
            origin: _origin,
            visibility: _visibility,
            parent: _parent,
            children: _children,
            scope: _scope,
        } = self;
    }
}

impl Model for ModuleData {
    ghost use Rattle.dm_def_map.specs.Maps.{Module};

    ghost Value = { Module };

    ghost view = { λ d. record { origin = d.origin; visibility = d.visibility; parent = d.parent; children = d.children; scope = d.scope } };
}

impl ModuleData {
    /// A module that has no children, and whose scope binds nothing.
    pub fn fresh(
        origin: ModuleOrigin,
        visibility: Visibility,
        parent: Option<ModuleId>,
        alloc: Global,
    ) -> ModuleData
        ensures { result ≡ fresh_module origin visibility parent }
    {
        ModuleData {
            origin,
            visibility,
            parent,
            children: LazyMap::new(alloc),
            scope: ItemScope::new(alloc),
        }
    }

    /// Where the module comes from.
    pub fn origin(&self) -> ModuleOrigin
        ensures { result ≡ self.now.origin }
    {
        self.origin
    }

    /// The visibility that the module was declared with.
    pub fn visibility(&self) -> Visibility
        ensures { result ≡ self.now.visibility }
    {
        self.visibility
    }

    /// The parent in the same map; none for its root.
    pub fn parent(&self) -> Option<ModuleId>
        ensures { result ≡ self.now.parent }
    {
        self.parent
    }

    /// The children, each under its name, in order of number. `child` looks one up.
    pub fn children(&self) -> Slice<'_, Name, ModuleId>
        ensures { result ≡ self.now.children }
    {
        self.children.as_slice()
    }

    /// The file, or the expansion of a macro, that has the module's items.
    pub fn definition_source_file_id(&self) -> HirFileId
        ensures { result ≡ source_file self.now.origin }
    {
        self.origin.source_file()
    }

    /// The scope of the module: the names that it binds.
    pub fn scope(&self) -> &ItemScope
        ensures { result.now ≡ self.now.scope }
    {
        &self.scope
    }

    /// The child of that name.
    pub fn child(&self, name: &Name) -> Option<ModuleId>
        ensures { result ≡ find_name name.now self.now.children }
    {
        self.children.get(name).copied()
    }

    /// Whether there is a child of that name. It compares with each name: with a `Name` at hand, `child` looks it up.
    /// Does not allocate.
    pub fn has_child(&self, text: &str) -> bool
        ensures { result ≡ is_some (find_name text.now self.now.children) }
    {
        has_text(self.children.as_slice(), text)
    }

    /// Adds a child. A name that is there would keep its place and take the new child. Most modules have few children: so
    /// the first is given room for itself alone.
    pub(crate) fn add_child(&mut self, name: Name, m: ModuleId) -> Result<(), AllocError>
        ensures ok { OnOk result (self.new ≡ with_child self.old name m) }
        ensures err { OnErr result (self.new ≡ self.old) }
    {
        self.children.insert(name, m)?;
        if self.children.len() == 1 {
            self.children.shrink_to_fit();
        }
        Ok(())
    }

    /// The scope of the module, to be changed.
    pub(crate) fn scope_mut(&mut self) -> &mut ItemScope
        ensures* writes_back { sem 𝓛 (LendsModuleScope self.entry result) }
        ensures value { result.now ≡ self.old.scope }
    {
        &mut self.scope
    }
}
