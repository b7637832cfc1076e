//! Which imports that find nothing may find something once macros are expanded.
ghost use Rattle.std.specs.Prelude.{◌≡◌, IfOk, IsTrue, take};
ghost use Rattle.def_diagnostics.specs.Hidden as spec;
ghost use Rattle.dm_maps.specs.Holding.{path_holds};
ghost use Rattle.dm_maps.specs.declared.check.held.HeldId.TheVariants as held;
ghost use Rattle.dm_maps.specs.Known.{knows, KnowsAll};

use crate::macro_calls::copied_names;
use crate::open_modules::OpenModules;
use dm_base::ids::{Crate, ModuleId};
use dm_base::item_ids::ModuleDefId;
use dm_base::item_in_ns::ItemModules;
use dm_base::mod_path::{ModPath, PathKind};
use dm_base::name::Name;
use dm_maps::world::World;
use dm_retry::meaning::path_meaning;
use hir_def_map::result::ResolvePathResult;
use std::alloc::{AllocError, Global};

/// The first so many names.
fn front(names: &[Name], count: usize) -> &[Name]
    ensures { result.now ≡ take count names.now }
{
    if count < names.len() {
        &names[..count]
    } else {
        names
    }
}

/// The first so many segments of a path.
fn prefix(alloc: Global, path: &ModPath, count: usize) -> Result<ModPath, AllocError>
    ensures { IfOk result (λ prefix. prefix ≡ spec.prefix path.now count) }
{
    let names = copied_names(alloc, front(path.segments(), count))?;
    Ok(ModPath::from_segments(path.kind(), names))
}

/// Whether a path leads nowhere, or not to its end.
fn finds_nothing(answer: &ResolvePathResult) -> bool
    ensures { result ≡ spec.finds_nothing answer.now }
{
    answer.segment_index.is_some() || answer.resolved_def.is_none()
}

/// The module that an answer means as a type, if it means one.
pub(crate) fn module_meant(answer: &ResolvePathResult) -> Option<ModuleId>
    ensures { result ≡ spec.module_meant answer.now }
{
    if answer.segment_index.is_some() {
        return None;
    }
    let item = answer.resolved_def.types?;
    match item.def {
        ModuleDefId::ModuleId(m) => Some(m),
        _ => None,
    }
}

/// Whether the edition of a module's crate is 2015.
fn is_of_2015(world: &World, krate: Option<Crate>) -> bool
    ensures { result ≡ spec.is_of_2015 world.now krate }
{
    match krate {
        None => false,
        Some(krate) => world.is_2015(krate),
    }
}

/// The root of a module's crate.
fn root_of(world: &World, krate: Option<Crate>) -> Option<ModuleId>
    ensures { result ≡ spec.root_in world.now krate }
{
    match krate {
        None => None,
        Some(krate) => world.root_of(krate),
    }
}

/// The module in which the first name of a path is looked up, that begins with a name or with two colons.
fn first_place(world: &World, m: ModuleId, kind: PathKind) -> Option<ModuleId>
    ensures { result ≡ spec.first_place world.now m kind }
{
    let krate = world.module_krate(m);
    if is_of_2015(world, krate) {
        return root_of(world, krate);
    }
    match kind {
        PathKind::Plain => Some(m),
        _ => None,
    }
}

fn begins_with_name(kind: PathKind) -> bool
    ensures { result ≡ spec.begins_with_name kind }
{
    matches!(kind, PathKind::Plain | PathKind::Abs)
}

/// What the first so many segments of a path mean for an import of a module.
fn prefix_meaning(
    alloc: Global,
    world: &World,
    m: ModuleId,
    path: &ModPath,
    count: usize,
) -> Result<ResolvePathResult, AllocError>
    requires module_known { IsTrue (knows world.now (held.Module m)) }
    requires path_known { KnowsAll world.now (path_holds path.now.kind) }
    ensures { IfOk result (λ answer. answer ≡ spec.prefix_meaning world.now m path.now count) }
{
    let prefix = prefix(alloc, path, count)?;
    Ok(path_meaning(world, m, &prefix))
}

/// The module in which the segment of a number is looked up, where those before it mean one.
fn looked_up(
    alloc: Global,
    world: &World,
    m: ModuleId,
    path: &ModPath,
    number: usize,
) -> Result<Option<ModuleId>, AllocError>
    requires module_known { IsTrue (knows world.now (held.Module m)) }
    requires path_known { KnowsAll world.now (path_holds path.now.kind) }
    ensures { IfOk result (λ at. at ≡ spec.looked_up world.now m path.now number) }
{
    if number == 0 && begins_with_name(path.kind()) {
        return Ok(first_place(world, m, path.kind()));
    }
    let answer = prefix_meaning(alloc, world, m, path, number)?;
    Ok(module_meant(&answer))
}

/// The module in which the first segment of a path is looked up that is missing for an import of a module; none where no
/// segment is, and where it is looked up in no module.
///
/// The module has to be the world's, and so has the crate of the path's `$crate`: `knows_def` and `knows_path` test it.
///
/// # Errors
///
/// Fails only where memory runs out.
pub fn missing_in(
    alloc: Global,
    world: &World,
    m: ModuleId,
    path: &ModPath,
) -> Result<Option<ModuleId>, AllocError>
    requires module_known { IsTrue (knows world.now (held.Module m)) }
    requires path_known { KnowsAll world.now (path_holds path.now.kind) }
    ensures { IfOk result (λ at. at ≡ spec.missing_in world.now m path.now) }
{
    for (place, _segment) in path.segments().iter().enumerate() {
        let answer = prefix_meaning(alloc, world, m, path, place + 1)?;
        if finds_nothing(&answer) {
            let at = looked_up(alloc, world, m, path, place)?;
            return Ok(at);
        }
    }
    Ok(None)
}

fn is_open(modules: &OpenModules, at: Option<ModuleId>) -> bool
    ensures { result ≡ spec.is_open modules.now at }
{
    match at {
        None => false,
        Some(m) => modules.has(m),
    }
}

/// Whether an import of a module that finds nothing is unknown, and not wrong: its first missing segment is looked up in
/// an open module, which has more names, perhaps, once macros are expanded.
///
/// The module has to be the world's, and so has the crate of the path's `$crate`: `knows_def` and `knows_path` test it.
///
/// # Errors
///
/// Fails only where memory runs out.
pub fn is_hidden(
    alloc: Global,
    world: &World,
    modules: &OpenModules,
    m: ModuleId,
    path: &ModPath,
) -> Result<bool, AllocError>
    requires module_known { IsTrue (knows world.now (held.Module m)) }
    requires path_known { KnowsAll world.now (path_holds path.now.kind) }
    ensures { IfOk result (λ hidden. hidden ≡ spec.is_hidden world.now modules.now m path.now) }
{
    let at = missing_in(alloc, world, m, path)?;
    Ok(is_open(modules, at))
}
