//! `DefMap`: the def map of a crate or of a block expression.
ghost use Rattle.std.specs.Prelude.{◌≡◌, ◌↔◌, IsTrue, IsSome};
ghost use Rattle.std.specs.Option.{option_copied};
ghost use Rattle.std.specs.Map.{lookup};
ghost use Rattle.dm_base.specs.Names.{find_name};
ghost use Rattle.dm_base.specs.Sameness.{same_ast};
ghost use Rattle.dm_def_map.specs.Maps.{module_at};

use crate::crate_data::CrateData;
use crate::item_tables::derive_helpers::{DeriveHelper, DeriveHelpers};
use crate::item_tables::keyed_tables::{helpers_of, macro_def_of};
use crate::modules::module_data::ModuleData;
use crate::modules::modules_map::ModulesMap;
use dm_base::ids::{BlockId, Crate, ExternCrateId, MapId, ModuleId, UseId};
use dm_base::item_ids::MacroId;
use dm_base::name::Name;
use dm_base::source::{AstId, Edition};
use dm_scope::diagnostics::DefDiagnostic;
use indexmap::IndexMap;
use std::marker::Model;
use std::rc::Rc;

/// The def map of a crate, or of a block expression in it: its modules, and the tables that it has of its own.
pub struct DefMap {
    pub(crate) id: MapId,
    pub(crate) edition: Edition,
    pub(crate) root: ModuleId,
    pub(crate) parent: Option<ModuleId>,
    pub(crate) modules: ModulesMap,
    pub(crate) prelude: Option<(ModuleId, Option<UseId>)>,
    pub(crate) macro_use_prelude: IndexMap<Name, (MacroId, Option<ExternCrateId>)>,
    pub(crate) macro_defs: IndexMap<AstId, MacroId>,
    pub(crate) derive_helpers: IndexMap<AstId, DeriveHelpers>,
    pub(crate) diagnostics: Vec<DefDiagnostic>,
    pub(crate) shared: Rc<CrateData>,
}

/// A hand-written `Drop`, to keep proofs small: code that drops a value has one call to prove.
impl Drop for DefMap {
    fn drop(self) {
        let DefMap {
            id: _id,
            edition: _edition,
            root: _root,
            parent: _parent,
            modules: _modules,
            prelude: _prelude,
            macro_use_prelude: _macro_use_prelude,
            macro_defs: _macro_defs,
            derive_helpers: _derive_helpers,
            diagnostics: _diagnostics,
            shared: _shared,
        } = self;
    }
}

impl Model for DefMap {
    ghost use Rattle.dm_def_map.specs.Maps.{Map};

    ghost Value = { Map };

    ghost view = { λ m. record { id = m.id; edition = m.edition; root = m.root; parent = m.parent; modules = m.modules; prelude = m.prelude; macro_use = m.macro_use_prelude.entries; macro_defs = m.macro_defs.entries; derive_helpers = m.derive_helpers.entries; diagnostics = m.diagnostics.items; shared = m.shared.value } };
}

impl DefMap {
    /// Whose map it is.
    pub fn id(&self) -> MapId
        ensures { result ≡ self.now.id }
    {
        self.id
    }

    /// The crate that the map belongs to.
    pub fn krate(&self) -> Crate
        ensures { result ≡ self.now.id.krate }
    {
        self.id.krate
    }

    /// The block expression whose map it is; none for a crate's.
    pub fn block_id(&self) -> Option<BlockId>
        ensures { result ≡ self.now.id.block }
    {
        self.id.block
    }

    /// The edition of the crate.
    pub fn edition(&self) -> Edition
        ensures { result ≡ self.now.edition }
    {
        self.edition
    }

    /// The root of this map.
    pub fn root_module_id(&self) -> ModuleId
        ensures { result ≡ self.now.root }
    {
        self.root
    }

    /// The module that contains the map's block; none for a crate's map.
    pub fn parent(&self) -> Option<ModuleId>
        ensures { result ≡ self.now.parent }
    {
        self.parent
    }

    /// The modules of this map, by number.
    pub fn modules(&self) -> &ModulesMap
        ensures { result.now ≡ self.now.modules }
    {
        &self.modules
    }

    /// Whether the module lies in this map.
    pub fn has(&self, m: ModuleId) -> bool
        ensures { IsTrue result ↔ IsSome (module_at self.now.modules m) }
    {
        let found = self.modules.get(m);
        found.is_some()
    }

    /// The module of that number, if it lies in this map.
    pub fn get(&self, m: ModuleId) -> Option<&ModuleData>
        ensures { option_copied result ≡ module_at self.now.modules m }
    {
        self.modules.get(m)
    }

    /// The prelude module, with the `use` that named it.
    pub fn prelude(&self) -> Option<(ModuleId, Option<UseId>)>
        ensures { result ≡ self.now.prelude }
    {
        self.prelude
    }

    /// The macro of that name in the `#[macro_use]` prelude, with the `extern crate` that brought it, if one did.
    /// Does not allocate.
    pub fn macro_use_prelude(&self, name: &Name) -> Option<(MacroId, Option<ExternCrateId>)>
        ensures { result ≡ find_name name.now self.now.macro_use }
    {
        self.macro_use_prelude.get(name).copied()
    }

    /// The diagnostics of the map, in order. Does not allocate.
    pub fn diagnostics(&self) -> &[DefDiagnostic]
        ensures { result.now ≡ self.now.diagnostics }
    {
        self.diagnostics.as_slice()
    }

    /// The helper attributes of the derives on an AST item, in order; none where it has none. Does not allocate.
    pub fn derive_helpers_in_scope(&self, id: AstId) -> Option<&[DeriveHelper]>
        ensures { option_copied result ≡ lookup (same_ast id) self.now.derive_helpers }
    {
        helpers_of(&self.derive_helpers, id)
    }

    /// The macro that an AST item defines. Does not allocate.
    pub fn macro_def_to_macro_id(&self, id: AstId) -> Option<MacroId>
        ensures { result ≡ lookup (same_ast id) self.now.macro_defs }
    {
        macro_def_of(&self.macro_defs, id)
    }

    /// The data that all def maps of the crate share.
    pub(crate) fn shared(&self) -> &Rc<CrateData>
        ensures { result.now.value ≡ self.now.shared }
    {
        &self.shared
    }
}
