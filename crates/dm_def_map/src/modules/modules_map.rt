//! `ModulesMap`: the modules of a def map, by number.
ghost use Rattle.std.specs.Prelude.{◌≡◌, ◌↔◌, [], IsTrue, length};
ghost use Rattle.std.specs.Option.{option_copied};
ghost use Rattle.dm_def_map.specs.Maps.{module_at, nth_module};

use crate::modules::module_data::ModuleData;
use dm_base::ids::ModuleId;
use indexmap::IndexMap;
use std::marker::Model;

/// The modules of a map, in order of number.
pub struct ModulesMap {
    pub(crate) entries: IndexMap<ModuleId, ModuleData>,
}

/// Hand-written `Drop`, to keep proofs small: dropping one is then a single call.
impl Drop for ModulesMap {
    fn drop(self) {
        let ModulesMap { entries: _entries } = self;
    }
}

impl Model for ModulesMap {
    ghost use Rattle.dm_def_map.specs.Maps.{Modules};

    ghost Value = { Modules };

    ghost view = { λ m. m.entries.entries };
}

impl ModulesMap {
    /// How many modules there are.
    pub fn len(&self) -> usize
        ensures { result ≡ length self.now }
    {
        self.entries.len()
    }

    /// Whether there is no module.
    pub fn is_empty(&self) -> bool
        ensures { IsTrue result ↔ (self.now ≡ []) }
    {
        self.entries.is_empty()
    }

    /// The module of that number.
    pub fn get(&self, m: ModuleId) -> Option<&ModuleData>
        ensures { option_copied result ≡ module_at self.now m }
    {
        self.entries.get(&m)
    }

    /// The modules, each under its number.
    pub fn entries(&self) -> &IndexMap<ModuleId, ModuleData>
        ensures { result.now.entries ≡ self.now }
    {
        &self.entries
    }

    /// Gives back memory that is not needed. The contents stay.
    pub(crate) fn shrink_to_fit(&mut self)
        ensures { self.new ≡ self.old }
    {
        self.entries.shrink_to_fit();
    }

    /// The module at index `i`, counted from the root.
    pub fn nth(&self, i: usize) -> Option<&ModuleData>
        ensures { option_copied result ≡ nth_module self.now i }
    {
        let (_number, data) = self.entries.get_index(i)?;
        Some(data)
    }
}
