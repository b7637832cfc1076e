//! The modules of a def map that fill a file, and the inline modules of a macro expansion.
ghost use Rattle.std.specs.Prelude.{◌≡◌};
ghost use Rattle.std.specs.Map.Iter.{ShowsInOrder};
ghost use Rattle.dm_base.specs.declared.ids.ModuleId.{ModuleId};
ghost use Rattle.dm_def_map.specs.Queries.{fills, is_inline_in, modules_with};

use crate::modules::modules_iter::{InlineModules, ModulesForFile, ModulesWith};
use crate::modules::modules_map::ModulesMap;
use crate::modules::origins::{FilledBy, InlineIn};
use dm_base::ids::{FileId, MacroCallId};

/// The modules that fill the file, under whatever edition, in order of number. Does not allocate.
pub fn filling(modules: &ModulesMap, file: FileId) -> ModulesForFile<'_>
    ensures rest { result ≡ modules_with (fills file) modules.now }
    ensures runs { ShowsInOrder (λ (m : ModuleId). m) }
{
    ModulesWith::new(modules, FilledBy(file))
}

/// The inline modules in the expansion of the macro call, in order of number. Does not allocate.
pub fn inline_in(modules: &ModulesMap, call: MacroCallId) -> InlineModules<'_>
    ensures rest { result ≡ modules_with (is_inline_in call) modules.now }
    ensures runs { ShowsInOrder (λ (m : ModuleId). m) }
{
    ModulesWith::new(modules, InlineIn(call))
}
