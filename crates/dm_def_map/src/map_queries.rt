//! Queries of a def map about its modules. None of these calls allocates.
ghost use Rattle.std.specs.Prelude.{◌≡◌, IsSome, Some};
ghost use Rattle.std.specs.Map.Iter.{ShowsInOrder};
ghost use Rattle.dm_base.specs.declared.ids.ModuleId.{ModuleId};
ghost use Rattle.dm_def_map.specs.Maps.{module_at};
ghost use Rattle.dm_def_map.specs.Queries.{containing_in, fills, is_inline_in, modules_with};

use crate::def_map::DefMap;
use crate::modules::choosing::{filling, inline_in};
use crate::modules::module_data::ModuleData;
use crate::modules::modules_iter::{InlineModules, ModulesForFile};
use dm_base::ids::{FileId, MacroCallId, ModuleId};

impl DefMap {
    /// The module of that number, which has to lie in this map: `has` tests it.
    pub fn module(&self, m: ModuleId) -> &ModuleData
        requires { IsSome (module_at self.now.modules m) }
        ensures { module_at self.now.modules m ≡ Some result.now }
    {
        self.get(m).unwrap()
    }

    /// The module that contains a module of this map, which has to lie in it: `has` tests it.
    ///
    /// The parent, or for the root of a block's map the module that contains the block; none for a crate's root.
    pub fn containing_module(&self, m: ModuleId) -> Option<ModuleId>
        requires { IsSome (module_at self.now.modules m) }
        ensures { result ≡ containing_in self.now m }
    {
        match self.module(m).parent() {
            Some(parent) => Some(parent),
            None => self.parent(),
        }
    }

    /// The modules of this map that fill the file, under whatever edition, in order of number.
    pub fn modules_for_file(&self, file: FileId) -> ModulesForFile<'_>
        ensures rest { result ≡ modules_with (fills file) self.now.modules }
        ensures runs { ShowsInOrder (λ (m : ModuleId). m) }
    {
        filling(self.modules(), file)
    }

    /// The inline modules of this map in the expansion of the macro call, in order of number.
    pub fn inline_modules_for_macro_file(&self, call: MacroCallId) -> InlineModules<'_>
        ensures rest { result ≡ modules_with (is_inline_in call) self.now.modules }
        ensures runs { ShowsInOrder (λ (m : ModuleId). m) }
    {
        inline_in(self.modules(), call)
    }
}
