//! The `mod` items that declare a module.
ghost use Rattle.std.specs.Prelude.{◌≡◌, IfOk, OnOk, [], fold};
ghost use Rattle.def_diagnostics.specs.DeclaredMods as spec;

use crate_items::items::declared_item::DeclaredItem;
use crate_items::modules::CrateModules;
use crate_items::modules::declared_module::{DeclaredModule, ModuleFault};
use indexmap::IndexSet;
use std::alloc::{AllocError, Global};
use std::marker::Model;

/// The `mod` items of a crate that declare a module, there or not, each by the numbers of the module that it stands in
/// and of the item.
pub(crate) struct DeclaredMods {
    items: IndexSet<(usize, usize)>,
}

/// Hand-written `Drop`, to keep proofs small: dropping one is then a single call.
impl Drop for DeclaredMods {
    fn drop(self) {
        let DeclaredMods { items: _items } = self;
    }
}

impl Model for DeclaredMods {
    ghost use Rattle.std.specs.Prelude.{ℕ, List};

    ghost Value = { List (ℕ × ℕ) };

    ghost view = { λ d. d.items.keys };
}

/// Adds an item.
fn add(items: &mut IndexSet<(usize, usize)>, item: (usize, usize)) -> Result<(), AllocError>
    ensures { OnOk result (items.new.keys ≡ spec.with_item items.old.keys item) }
{
    items.insert(item)?;
    Ok(())
}

/// Adds the item that declares a module.
fn add_module(
    items: &mut IndexSet<(usize, usize)>,
    outer: &DeclaredModule,
) -> Result<(), AllocError>
    ensures { OnOk result (items.new.keys ≡ spec.with_module items.old.keys outer.now) }
{
    match outer.declaration() {
        None => Ok(()),
        Some(declaration) => add(items, (declaration.parent, declaration.item)),
    }
}

/// Adds the items that declare modules.
fn add_modules(
    items: &mut IndexSet<(usize, usize)>,
    modules: &[DeclaredModule],
) -> Result<(), AllocError>
    ensures { OnOk result (items.new.keys ≡ fold spec.with_module items.old.keys modules.now) }
{
    for outer in modules {
        add_module(items, outer)?;
    }
    Ok(())
}

/// Adds the items that declare modules which are not there.
fn add_faults(
    items: &mut IndexSet<(usize, usize)>,
    faults: &[ModuleFault],
) -> Result<(), AllocError>
    ensures { OnOk result (items.new.keys ≡ fold spec.with_fault items.old.keys faults.now) }
{
    for fault in faults {
        let declaration = fault.declaration();
        add(items, (declaration.parent, declaration.item))?;
    }
    Ok(())
}

impl DeclaredMods {
    /// Those of a crate.
    pub(crate) fn of(alloc: Global, list: &CrateModules) -> Result<DeclaredMods, AllocError>
        ensures { IfOk result (λ mods. mods ≡ spec.declared_mods list.now) }
    {
        let mut items = IndexSet::new(alloc);
        add_modules(&mut items, list.modules())?;
        add_faults(&mut items, list.faults())?;
        Ok(DeclaredMods { items })
    }

    /// Whether an item is one of them.
    pub(crate) fn has(&self, item: &DeclaredItem) -> bool
        ensures { result ≡ spec.has self.now item.now }
    {
        self.items.contains(&(item.module, item.item))
    }
}
