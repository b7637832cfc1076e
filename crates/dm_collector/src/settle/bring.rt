//! Imports as `_` and globs bring unnamed traits.
ghost use Rattle.std.specs.Option.{option_map_or};
ghost use Rattle.std.specs.Prelude.{◌≡◌, false, is_some, All, Contains, IfOk, IfSome, None, OnErr, OnOk};
ghost use Rattle.dm_collector.specs.Steps as spec;
ghost use Rattle.dm_collector.specs.Steps.{Bring, Given, Import, IsReached, StillShow, after_step, count, maps_with, writes};
ghost use Rattle.dm_collector.specs.UnnamedTraits.{HasBrought, HasImported, IsSourceCount, missing_glob, missing_import, with_unnamed};
ghost use Rattle.dm_maps.specs.GoesOn.{trait_import_holds};
ghost use Rattle.dm_maps.specs.Known.{KnowsAll};

use crate::unnamed_traits::{missing_glob, missing_import, module_meant, unnamed_count};
use dm_base::ids::{ModuleId, TraitId};
use dm_base::imports::ImportId;
use dm_base::visibility::Visibility;
use dm_imports::def_maps::DefMaps;
use dm_imports::glob_import::GlobImport;
use dm_imports::importing::Importing;
use dm_imports::marks::Marks;
use dm_imports::named_import::NamedImport;
use dm_imports::slots::Slots;
use dm_maps::world::World;
use std::alloc::AllocError;

/// The def maps of a world, with what is imported there.
fn maps_of<'a>(
    world: &'a World,
    given: &'a Importing<'a>,
    ambiguous: &'a Slots<bool>,
) -> DefMaps<'a>
    ensures { result ≡ spec.tables_with given.now ambiguous.now world.now }
{
    DefMaps {
        world,
        imports: given.imports,
        globs: given.globs,
        declarations: given.declarations,
        ambiguous: Marks {
            table: ambiguous,
            is_all_but: false,
        },
    }
}

/// Gives a module an unnamed trait, if there is one. Answers whether there is.
fn put(
    world: &mut World,
    m: ModuleId,
    unnamed: Option<(TraitId, Visibility, Option<ImportId>)>,
) -> Result<bool, AllocError>
    requires known { IfSome unnamed (λ e. KnowsAll world.old (trait_import_holds m e.0 e.1 e.2)) }
    ensures world { OnOk result (world.new ≡ option_map_or (with_unnamed world.old m) unnamed world.old) }
    ensures answer { IfOk result (λ written. written ≡ is_some unnamed) }
    ensures same { IfOk result (λ written. written ≡ false → world.new ≡ world.old) }
    ensures shown { StillShow world.old world.new }
{
    let Some((tr, vis, import)) = unnamed else {
        return Ok(false);
    };
    world.push_unnamed_trait(m, tr, vis, import)?;
    Ok(true)
}

/// Has an import as `_` bring its trait, if it has yet to. Answers whether it had.
fn import_trait(
    world: &mut World,
    given: &Importing<'_>,
    ambiguous: &Slots<bool>,
    import: &NamedImport,
) -> Result<bool, AllocError>
    ensures world { OnOk result (world.new ≡ after_step (maps_with given.now ambiguous.now) (Import import.now) world.old) }
    ensures answer { IfOk result
        (λ written. written ≡ writes (maps_with given.now ambiguous.now) (Import import.now) world.old) }
    ensures same { IfOk result (λ written. written ≡ false → world.new ≡ world.old) }
    ensures none { IfOk result
        (λ written. written ≡ false → HasImported (maps_with given.now ambiguous.now world.old) import.now) }
    ensures shown { StillShow world.old world.new }
{
    let missing = missing_import(&maps_of(world, given, ambiguous), import);
    let written = put(world, import.home, missing)?;
    Ok(written)
}

/// Has imports as `_` bring the traits that they have yet to bring, once. Answers whether there were any.
pub(crate) fn import_traits(
    world: &mut World,
    given: &Importing<'_>,
    ambiguous: &Slots<bool>,
) -> Result<bool, AllocError>
    ensures same { IfOk result (λ written. written ≡ false → world.new ≡ world.old) }
    ensures none { IfOk result (λ written. written ≡ false
        → All (HasImported (maps_with given.now ambiguous.now world.old)) given.now.imports.now) }
    ensures reached { IfOk result (λ written. (x : Given) → x.imports ≡ given.now.imports.now
        → IsReached (maps_with given.now ambiguous.now) x (count written) world.old world.new) }
    ensures shown { StillShow world.old world.new }
{
    let mut written = false;
    for import in given.imports {
        written |= import_trait(world, given, ambiguous, import)?;
    }
    Ok(written)
}

/// Has a glob bring the unnamed trait at a place of its source, if it has yet to. Answers whether it had.
fn bring_at(
    world: &mut World,
    given: &Importing<'_>,
    ambiguous: &Slots<bool>,
    glob: &GlobImport,
    i: usize,
) -> Result<bool, AllocError>
    ensures world { OnOk result (world.new ≡ after_step (maps_with given.now ambiguous.now) (Bring glob.now i) world.old) }
    ensures answer { IfOk result
        (λ written. written ≡ writes (maps_with given.now ambiguous.now) (Bring glob.now i) world.old) }
    ensures same { IfOk result (λ written. written ≡ false → world.new ≡ world.old) }
    ensures none { IfOk result (λ written. written ≡ false
        → missing_glob (maps_with given.now ambiguous.now world.old) glob.now i ≡ None) }
    ensures shown { StillShow world.old world.new }
{
    let missing = missing_glob(&maps_of(world, given, ambiguous), glob, i);
    let written = put(world, glob.into, missing)?;
    Ok(written)
}

/// How many unnamed traits the source of a glob has.
fn source_count(
    world: &World,
    given: &Importing<'_>,
    ambiguous: &Slots<bool>,
    glob: &GlobImport,
) -> usize
    ensures { IsSourceCount (maps_with given.now ambiguous.now world.now) glob.now result }
{
    match module_meant(&maps_of(world, given, ambiguous), glob) {
        None => 0,
        Some(m) => unnamed_count(world, m),
    }
}

/// Has a glob bring the unnamed traits that it has yet to bring. Answers whether there were any.
fn bring(
    world: &mut World,
    given: &Importing<'_>,
    ambiguous: &Slots<bool>,
    glob: &GlobImport,
) -> Result<bool, AllocError>
    ensures same { IfOk result (λ written. written ≡ false → world.new ≡ world.old) }
    ensures none { IfOk result
        (λ written. written ≡ false → HasBrought (maps_with given.now ambiguous.now world.old) glob.now) }
    ensures reached { IfOk result (λ written. (x : Given) → Contains x.globs glob.now
        → IsReached (maps_with given.now ambiguous.now) x (count written) world.old world.new) }
    ensures shown { StillShow world.old world.new }
{
    let count = source_count(world, given, ambiguous, glob);
    let mut written = false;
    for i in 0..count {
        written |= bring_at(world, given, ambiguous, glob, i)?;
    }
    Ok(written)
}

/// Has globs do so, once. Answers whether there were any.
pub(crate) fn bring_all(
    world: &mut World,
    given: &Importing<'_>,
    ambiguous: &Slots<bool>,
) -> Result<bool, AllocError>
    ensures same { IfOk result (λ written. written ≡ false → world.new ≡ world.old) }
    ensures none { IfOk result (λ written. written ≡ false
        → All (HasBrought (maps_with given.now ambiguous.now world.old)) given.now.globs.now) }
    ensures reached { IfOk result (λ written. (x : Given) → x.globs ≡ given.now.globs.now
        → IsReached (maps_with given.now ambiguous.now) x (count written) world.old world.new) }
    ensures shown { StillShow world.old world.new }
{
    let mut written = false;
    for glob in given.globs {
        written |= bring(world, given, ambiguous, glob)?;
    }
    Ok(written)
}
