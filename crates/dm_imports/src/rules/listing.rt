//! `Listing`: the names that all modules bind, listed once.
ghost use Rattle.std.specs.Prelude.{◌≡◌, ◌++◌, ◌<◌, Contains, IfOk, OnOk};
ghost use Rattle.dm_scope.specs.Sorted.{seen};
ghost use Rattle.dm_imports.specs.Supporting as spec;
ghost use Rattle.dm_imports.specs.Supporting.{IsListing, names_at};

use crate::container::Container;
use crate::rules::source_names::{module_names, variant_names};
use dm_base::ids::ModuleId;
use dm_base::name::Name;
use dm_maps::world::World;
use dm_scope::scope_tables::ScopeTables;
use std::alloc::{AllocError, Global};

/// The names that modules bind, by the numbers of the modules.
#[derive(Drop)]
pub(crate) struct Listing<'a> {
    pub(crate) modules: Vec<Vec<&'a Name>>,
}

/// Lists the names of all modules.
///
/// Fails only where memory runs out.
pub(crate) fn list<'a>(alloc: Global, world: &'a World) -> Result<Listing<'a>, AllocError>
    ensures { IfOk result (IsListing world.now) }
{
    let mut modules = Vec::new(alloc);
    for number in 0..u32::MAX {
        let m = ModuleId(number);
        if world.scope_of(m).is_none() {
            return Ok(Listing { modules });
        }
        modules.push(module_names(alloc, world, m)?)?;
    }
    modules.push(module_names(alloc, world, ModuleId(u32::MAX))?)?;
    Ok(Listing { modules })
}

/// Adds names.
fn add_names<'a>(names: &mut Vec<&'a Name>, more: &[&'a Name]) -> Result<(), AllocError>
    ensures { OnOk result (seen names.new.items ≡ seen names.old.items ++ seen more.now) }
{
    for name in more {
        names.push(*name)?;
    }
    Ok(())
}

/// The names that a listing has of the module of a number.
fn numbered<'a>(
    alloc: Global,
    listing: &Listing<'a>,
    number: u32,
) -> Result<Vec<&'a Name>, AllocError>
    ensures names { IfOk result
        (λ names. seen names.items ≡ names_at (λ ns. seen ns.items) listing.now.modules.items number) }
    ensures fits { number < 4294967296 }
{
    let mut names = Vec::new(alloc);
    if let Some(listed) = listing.modules.get(number as usize) {
        add_names(&mut names, listed.as_slice())?;
    }
    Ok(names)
}

/// The names that a listing has of a module.
///
/// Fails only where memory runs out.
pub(crate) fn names_in<'a>(
    alloc: Global,
    listing: &Listing<'a>,
    m: ModuleId,
) -> Result<Vec<&'a Name>, AllocError>
    ensures names { IfOk result (λ names. seen names.items ≡ spec.listed_in listing.now m) }

    // The number of a module is a `u32`.
    ensures fits { m.0 < 4294967296 }
{
    numbered(alloc, listing, m.0)
}

/// All names of a source.
///
/// Fails only where memory runs out.
pub(crate) fn listed_names<'a>(
    alloc: Global,
    world: &'a World,
    listing: &Listing<'a>,
    from: Container,
) -> Result<Vec<&'a Name>, AllocError>
    requires { IsListing world.now listing.now }
    ensures { IfOk result
        (λ names. (n : Name) → Contains (spec.source_names world.now from) n → Contains (seen names.items) n) }
{
    match from {
        Container::Module(m) => names_in(alloc, listing, m),
        Container::Enum(e) => variant_names(alloc, world, e),
    }
}
