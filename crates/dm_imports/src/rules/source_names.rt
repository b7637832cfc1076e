//! The names of what a glob brings.
ghost use Rattle.std.specs.Prelude.{◌≡◌, ◌++◌, [], false, Contains, IfOk, IsTrue, OnOk, map};
ghost use Rattle.std.specs.Option.{option_map_or};
ghost use Rattle.dm_base.specs.Names.{Name};
ghost use Rattle.dm_maps.specs.GoesOn.{variants_if_known};
ghost use Rattle.dm_maps.specs.Known.{knows};
ghost use Rattle.dm_maps.specs.Readings.{variants_of};
ghost use Rattle.dm_maps.specs.World.{scope_of};
ghost use Rattle.dm_maps.specs.declared.check.held.HeldId.TheVariants as held;
ghost use Rattle.dm_scope.specs.Sorted.{AreNames, deref_entry, names_of, seen};
ghost use Rattle.dm_imports.specs.Supporting as spec;

use crate::container::Container;
use dm_base::ids::{EnumId, ModuleId};
use dm_base::name::Name;
use dm_base::per_ns::PerNs;
use dm_maps::world::World;
use dm_maps::world::variants::Variants;
use dm_scope::scope_tables::ScopeTables;
use std::alloc::{AllocError, Global};

/// Adds the names of entries.
fn add_names<'a>(names: &mut Vec<&'a Name>, entries: &[(&'a Name, PerNs)]) -> Result<(), AllocError>
    ensures { OnOk result
        (seen names.new.items ≡ seen names.old.items ++ map (λ e. e.0) (map deref_entry entries.now)) }
{
    for (name, _bound) in entries {
        names.push(*name)?;
    }
    Ok(())
}

/// Adds the names of variants.
fn add_variants<'a>(names: &mut Vec<&'a Name>, variants: Variants<'a>) -> Result<(), AllocError>
    ensures { OnOk result
        (seen names.new.items ≡ seen names.old.items ++ map (λ v. v.0) variants.entry) }
{
    for (name, _variant) in variants {
        names.push(name)?;
    }
    Ok(())
}

/// The names that a module binds, sorted, each once; none where the module is not the world's.
///
/// # Errors
///
/// Fails only where memory runs out.
pub fn module_names(alloc: Global, world: &World, m: ModuleId) -> Result<Vec<&Name>, AllocError>
    ensures names { IfOk result
        (λ names. IsTrue (knows world.now (held.Module m)) → AreNames (seen names.items) (scope_of world.now m)) }
    ensures none { IfOk result (λ names. knows world.now (held.Module m) ≡ false → names.items ≡ []) }
    ensures listed { IfOk result
        (λ names. (n : Name) → Contains (names_of (scope_of world.now m)) n → Contains (seen names.items) n) }
{
    let mut names = Vec::new(alloc);
    let Some(scope) = world.scope_of(m) else {
        return Ok(names);
    };
    let entries = scope.entries()?;
    add_names(&mut names, entries.as_slice())?;
    Ok(names)
}

/// The names of the variants of an enum.
///
/// Fails only where memory runs out.
pub(crate) fn variant_names(
    alloc: Global,
    world: &World,
    e: EnumId,
) -> Result<Vec<&Name>, AllocError>
    ensures { IfOk result
        (λ names. (n : Name) → Contains (option_map_or (map (λ v. v.0)) (variants_if_known world.now e) []) n
        → Contains (seen names.items) n) }
{
    let mut names = Vec::new(alloc);
    let Some(variants) = world.variants(e) else {
        return Ok(names);
    };
    add_variants(&mut names, variants)?;
    Ok(names)
}

/// All names of a source.
///
/// Fails only where memory runs out.
pub(crate) fn source_names(
    alloc: Global,
    world: &World,
    from: Container,
) -> Result<Vec<&Name>, AllocError>
    ensures { IfOk result
        (λ names. (n : Name) → Contains (spec.source_names world.now from) n → Contains (seen names.items) n) }
{
    match from {
        Container::Module(m) => module_names(alloc, world, m),
        Container::Enum(e) => variant_names(alloc, world, e),
    }
}
