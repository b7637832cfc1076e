//! Example callers, shown in docs/USING.md: item scopes.
ghost use Rattle.std.specs.Prelude.{◌≡◌, ◌↔◌, ◌<◌, ◌^◌, IsTrue, None, Some, List, length, option_map};
ghost use Rattle.dm_base.specs.declared.ids.ModuleId.{ModuleId};
ghost use Rattle.dm_base.specs.PerNs.{type_alone};
ghost use Rattle.dm_scope.specs.Chains.{EndsIn, leads, ends};
ghost use Rattle.dm_scope.specs.Flags.{Globs};
ghost use Rattle.dm_scope.specs.Lookups.{def_and_vis};
ghost use Rattle.dm_scope.specs.Push.{types_reading};
ghost use Rattle.dm_scope.specs.Pushes.{binding};
ghost use Rattle.dm_scope.specs.Shows.{PushShows, ScopePush, Shows, push_of, pushes_in};
ghost use Rattle.dm_scope.specs.Tables.{all_records};

use dm_base::ids::ModuleId;
use dm_base::imports::ImportId;
use dm_base::item_ids::ModuleDefId;
use dm_base::name::Name;
use dm_base::per_ns::{Namespace, PerNs};
use dm_base::visibility::Visibility;
use dm_scope::diagnostics::SaidEq;
use dm_scope::glob_imports::PerNsGlobImports;
use dm_scope::item_scope::ItemScope;
use dm_scope::scope_tables::ScopeTables;
use std::alloc::AllocError;

/// Declares a public type in a module: the list of pushes that scope and table show has it last.
pub fn declare_type(
    scope: &mut ItemScope,
    globs: &mut PerNsGlobImports,
    lookup: (ModuleId, Name),
    def: ModuleDefId,
) -> Result<bool, AllocError>
    ensures { PushShows scope.old globs.old scope.new globs.new lookup.0
        (push_of lookup.1 (type_alone def Visibility.Public None) None) result }
{
    let items = PerNs::types(def, Visibility::Public, None);
    scope.push_res_with_import(globs, lookup, items, None)
}

/// What a name is bound to as a type: what the whole list of pushes binds to it, in whatever order they came.
pub fn bound_type(scope: &ItemScope, name: &Name) -> Option<(ModuleDefId, Visibility)>
    ensures { (globs : Globs) (m : ModuleId) (ps : List ScopePush) → Shows scope.now globs m ps →
        result ≡ option_map def_and_vis
        (binding types_reading (pushes_in types_reading (λ x. x.types) ps) name.now) }
{
    scope.type_(name)
}

/// The type that an import of a scope resolves to in the end, through any chain of re-exports.
pub fn imported_type<T: ScopeTables>(
    tables: &T,
    scope: &ItemScope,
    import: ImportId,
) -> Option<ModuleDefId>
    ensures { length (all_records Namespace.Types (T.tables tables.now)) < 2 ^ 64 → (d : ModuleDefId) →
        EndsIn (leads Namespace.Types (T.tables tables.now)) (ends Namespace.Types)
        (scope.now, import) d → result ≡ Some d }
{
    scope.fully_resolve_import(tables, import).take_types()
}

/// Whether two diagnostics, or two lists of them, say the same.
pub fn say_the_same<T: SaidEq>(one: &T, two: &T) -> bool
    ensures { IsTrue result ↔ T.SaySame one.now two.now }
{
    one == two
}
