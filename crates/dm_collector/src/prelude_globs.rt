//! Globs under `#[prelude_import]`: they name the prelude of their crate, and bring no names.
ghost use Rattle.std.specs.Prelude.{◌≡◌, ◌++◌, IfOk, OnOk};
ghost use Rattle.std.specs.List.{flat_map};
ghost use Rattle.dm_collector.specs.PreludeGlobs as spec;
ghost use Rattle.dm_maps.specs.World.{crate_map};

use dm_base::ids::{Crate, ModuleId, UseId};
use dm_imports::glob_import::GlobImport;
use dm_maps::world::World;
use dm_maps::world::maps_of::crate_def_map;
use std::alloc::{AllocError, Global};

/// Whether a prelude is named by a use.
fn is_named_by(prelude: Option<(ModuleId, Option<UseId>)>, use_: UseId) -> bool
    ensures { result ≡ spec.is_named_by use_ prelude }
{
    match prelude {
        Some((_m, Some(naming))) => naming.0 == use_.0,
        _ => false,
    }
}

/// The prelude of a crate, with the use that names it.
fn prelude_in(world: &World, krate: Crate) -> Option<(ModuleId, Option<UseId>)>
    ensures { result ≡ spec.prelude_in (crate_map world.now krate) }
{
    if world.has_crate(krate) {
        crate_def_map(world, krate).prelude()
    } else {
        None
    }
}

/// Whether a glob names the prelude of the crate in whose root it stands.
fn names_prelude(world: &World, glob: &GlobImport) -> bool
    ensures { result ≡ spec.names_prelude world.now glob.now }
{
    // The root of a crate has its number.
    is_named_by(prelude_in(world, Crate(glob.into.0)), glob.import.use_)
}

/// Adds a glob, unless it names a prelude.
fn push_unless_named(
    globs: &mut Vec<GlobImport>,
    world: &World,
    glob: GlobImport,
) -> Result<(), AllocError>
    ensures { OnOk result (globs.new.items ≡ globs.old.items ++ spec.unless_named world.now glob) }
{
    if !names_prelude(world, &glob) {
        globs.push(glob)?;
    }
    Ok(())
}

/// Those of some globs that bring names: all but those that name the prelude of their crate.
///
/// # Errors
///
/// Fails only where memory runs out.
pub fn bringing_names(
    alloc: Global,
    world: &World,
    globs: Vec<GlobImport>,
) -> Result<Vec<GlobImport>, AllocError>
    ensures { IfOk result
        (λ left. left.items ≡ flat_map (spec.unless_named world.now) globs.items) }
{
    let mut left = Vec::new(alloc);
    for glob in globs {
        push_unless_named(&mut left, world, glob)?;
    }
    Ok(left)
}
