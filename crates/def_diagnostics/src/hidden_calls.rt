//! Which macro calls that call no macro may call one once others are expanded.
ghost use Rattle.std.specs.Prelude.{◌≡◌, IfOk, IsTrue};
ghost use Rattle.std.specs.List.{list_any};
ghost use Rattle.def_diagnostics.specs.HiddenCalls as spec;
ghost use Rattle.dm_maps.specs.Holding.{path_holds};
ghost use Rattle.dm_maps.specs.declared.check.held.HeldId.TheVariants as held;
ghost use Rattle.dm_maps.specs.Known.{knows, KnowsAll};

use crate::hidden::is_hidden;
use crate::macro_calls::MacroCall;
use crate::open_modules::OpenModules;
use dm_base::ids::ModuleId;
use dm_base::mod_path::{ModPath, PathKind};
use dm_base::module_tree::ModuleTree;
use dm_maps::world::World;
use std::alloc::{AllocError, Global};

fn is_plain(kind: PathKind) -> bool
    ensures { result ≡ spec.is_plain kind }
{
    matches!(kind, PathKind::Plain)
}

/// Whether a path may name a macro by textual scope: it is one name.
fn is_one_name(path: &ModPath) -> bool
    ensures { result ≡ spec.is_one_name path.now }
{
    is_plain(path.kind()) && path.segments().len() == 1
}

/// Whether a call calls a macro, and stands in a module or in one around.
fn is_around(world: &World, m: ModuleId, call: &MacroCall) -> bool
    requires { IsTrue (knows world.now (held.Module m)) }
    ensures { result ≡ spec.is_around world.now m call.now }
{
    call.called.is_some() && world.contains(call.home, m)
}

/// Whether one of some calls does.
fn any_around(world: &World, m: ModuleId, calls: &[MacroCall]) -> bool
    requires { IsTrue (knows world.now (held.Module m)) }
    ensures { result ≡ list_any (spec.is_around world.now m) calls.now }
{
    for call in calls {
        if is_around(world, m, call) {
            return true;
        }
    }
    false
}

/// Whether a call of a path in a module, which calls no macro, is unknown, and not wrong: as for an import of that path, by
/// the modules that calls which call a macro leave open (`OpenModules::of_known`); and a single name also where a call that calls a macro stands in the module or in
/// one around, since that may define a textual macro.
///
/// The module has to be the world's, and so has the crate of the path's `$crate`: `knows_def` and `knows_path` test it.
///
/// # Errors
///
/// Fails only where memory runs out.
pub fn is_call_hidden(
    alloc: Global,
    world: &World,
    modules: &OpenModules,
    calls: &[MacroCall],
    m: ModuleId,
    path: &ModPath,
) -> Result<bool, AllocError>
    requires module_known { IsTrue (knows world.now (held.Module m)) }
    requires path_known { KnowsAll world.now (path_holds path.now.kind) }
    ensures { IfOk result
        (λ hidden. hidden ≡ spec.is_call_hidden world.now modules.now calls.now m path.now) }
{
    if is_one_name(path) && any_around(world, m, calls) {
        return Ok(true);
    }
    let hidden = is_hidden(alloc, world, modules, m, path)?;
    Ok(hidden)
}
