//! The module that a type is.
ghost use Rattle.std.specs.Prelude.{◌≡◌};
ghost use Rattle.hir_def_map.specs.Paths.{module_in, type_module};

use dm_base::ids::ModuleId;
use dm_base::item_ids::ModuleDefId;
use dm_base::per_ns::TypesItem;

/// The module that a definition is, if it is one.
#[inline(always)]
pub(crate) fn module_in(def: ModuleDefId) -> Option<ModuleId>
    ensures { result ≡ module_in def }
{
    match def {
        ModuleDefId::ModuleId(m) => Some(m),
        _ => None,
    }
}

/// The module that a type is, if there is one and it is one.
pub(crate) fn type_module(types: Option<TypesItem>) -> Option<ModuleId>
    ensures { result ≡ type_module types }
{
    module_in(types?.def)
}
