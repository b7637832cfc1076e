//! Which modules of a crate have no preludes.
ghost use Rattle.std.specs.Prelude.{◌≡◌, IfOk};
ghost use Rattle.std.specs.List.{list_any};
ghost use Rattle.std.specs.Option.{option_copied};
ghost use Rattle.crate_items.specs.BareModules as spec;

use crate::items::item_attributes::{attributes_at, body_attributes_at, file_attributes};
use crate::modules::CrateModules;
use crate::modules::declared_module::{Declaration, DeclaredModule};
use item_tree::attributes::attribute_kind::AttributeKind;
use std::alloc::{AllocError, Global};

fn says_bare(kind: AttributeKind) -> bool
    ensures { result ≡ spec.says_bare kind }
{
    matches!(kind, AttributeKind::NoImplicitPrelude)
}

fn any_says_bare(kinds: &[AttributeKind]) -> bool
    ensures { result ≡ list_any spec.says_bare kinds.now }
{
    kinds.iter().any(|kind| says_bare(*kind))
}

/// Whether an active `no_implicit_prelude` stands before what declares a module.
fn is_under(
    alloc: Global,
    list: &CrateModules,
    declaration: Option<&Declaration>,
) -> Result<bool, AllocError>
    ensures { IfOk result (λ under. under ≡ spec.is_under list.now (option_copied declaration.entry)) }
{
    match declaration {
        None => Ok(false),
        Some(declaration) => {
            let kinds = attributes_at(alloc, list, declaration.file, declaration.item)?;
            Ok(any_says_bare(kinds.as_slice()))
        }
    }
}

/// Whether a module begins with an active `no_implicit_prelude`, in its file or in its braces.
fn begins_so(
    alloc: Global,
    list: &CrateModules,
    declared: &DeclaredModule,
) -> Result<bool, AllocError>
    ensures { IfOk result (λ begins. begins ≡
        spec.begins_so list.now declared.now.file declared.now.item) }
{
    let kinds = match declared.item() {
        Some(item) => body_attributes_at(alloc, list, declared.file(), item)?,
        None => file_attributes(alloc, list, declared.file())?,
    };
    Ok(any_says_bare(kinds.as_slice()))
}

/// Whether the module around has no preludes.
fn is_around(before: &[bool], declaration: Option<&Declaration>) -> bool
    ensures { result ≡ spec.is_around before.now (option_copied declaration.entry) }
{
    match declaration {
        None => false,
        Some(declaration) => match before.get(declaration.parent) {
            None => false,
            Some(bare) => *bare,
        },
    }
}

/// Whether a module has no preludes, by those before it.
fn is_bare(
    alloc: Global,
    list: &CrateModules,
    before: &[bool],
    declared: &DeclaredModule,
) -> Result<bool, AllocError>
    ensures { IfOk result (λ bare. bare ≡ spec.is_bare list.now before.now declared.now) }
{
    let under = is_under(alloc, list, declared.declaration())?;
    let begins = begins_so(alloc, list, declared)?;
    Ok(under || begins || is_around(before, declared.declaration()))
}

/// Of each module of a crate whether it has no preludes: a `no_implicit_prelude` stands before what declares it, or first in
/// its file or its braces, or the module around it has none. That is the rule of the Rust Reference on this attribute.
///
/// # Errors
///
/// Fails only where memory runs out.
pub fn bare_modules(alloc: Global, list: &CrateModules) -> Result<Vec<bool>, AllocError>
    ensures { IfOk result (λ bare. bare.items ≡ spec.bare_modules list.now) }
{
    let mut bare = Vec::new(alloc);
    for declared in list.modules() {
        let is_bare = is_bare(alloc, list, bare.as_slice(), declared)?;
        bare.push(is_bare)?;
    }
    Ok(bare)
}
