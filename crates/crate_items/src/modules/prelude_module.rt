//! The module of a crate that is the standard prelude of an edition.
ghost use Rattle.std.specs.Prelude.{◌≡◌, Some};
ghost use Rattle.std.specs.Option.{option_copied};
ghost use Rattle.crate_items.specs.PreludeModules as spec;

use crate::modules::declared_module::{Declaration, DeclaredModule};
use dm_base::edition::Edition;
use dm_base::name::Name;

/// Whether something is declared in the module of a number, under a name.
fn is_declared_in(declaration: Option<&Declaration>, parent: usize, name: &[u8]) -> bool
    ensures { result ≡ spec.is_declared_in parent name.now (option_copied declaration.entry) }
{
    match declaration {
        None => false,
        Some(declaration) => {
            declaration.parent == parent && declaration.name.as_str().as_bytes() == name
        }
    }
}

/// The number of the first module of a name in the one of a number. One pass over the list.
pub fn child_named(modules: &[DeclaredModule], parent: usize, name: &[u8]) -> Option<usize>
    ensures { result ≡ spec.child_named modules.now parent name.now }
{
    modules.iter().position(|module| is_declared_in(module.declaration(), parent, name))
}

/// The number of the first module of a name in another, if there is that one.
fn child_of(modules: &[DeclaredModule], parent: Option<usize>, name: &Name) -> Option<usize>
    ensures { result ≡ spec.child_of modules.now parent name.now }
{
    match parent {
        None => None,
        Some(parent) => child_named(modules, parent, name.as_str().as_bytes()),
    }
}

/// The number of the module that some names lead down to from the module of a number, one after another.
pub fn module_behind(modules: &[DeclaredModule], start: usize, names: &[Name]) -> Option<usize>
    ensures { result ≡ spec.module_behind modules.now (Some start) names.now }
{
    let mut reached = Some(start);
    for name in names {
        reached = child_of(modules, reached, name);
    }
    reached
}

/// What an edition calls its prelude.
fn prelude_name(edition: Edition) -> &'static [u8]
    ensures { result.now ≡ spec.prelude_name edition }
{
    match edition {
        Edition::Edition2015 => b"rust_2015",
        Edition::Edition2018 => b"rust_2018",
        Edition::Edition2021 => b"rust_2021",
        Edition::Edition2024 => b"rust_2024",
    }
}

/// The number of the module that is the standard prelude of an edition, in the list of a crate that has preludes: in
/// `prelude` of its root the one that the edition names, or `v1` where that is all there is.
pub fn prelude_module(modules: &[DeclaredModule], edition: Edition) -> Option<usize>
    ensures { result ≡ spec.prelude_module modules.now edition }
{
    match child_named(modules, 0, b"prelude") {
        None => None,
        Some(preludes) => match child_named(modules, preludes, prelude_name(edition)) {
            Some(module) => Some(module),
            None => child_named(modules, preludes, b"v1"),
        },
    }
}
