//! The modules of a crate's list, by the items that declare them.
ghost use Rattle.std.specs.Prelude.{◌≡◌, IfOk, OnOk, Some, if◌then◌else◌};
ghost use Rattle.crate_tables.specs.ModuleIndexes as spec;
ghost use Rattle.crate_tables.specs.declared.item_outline.ItemOutline.{ItemOutline};

use crate::item_outline::ItemOutline;
use crate_items::modules::declared_module::DeclaredModule;
use indexmap::IndexMap;
use std::alloc::{AllocError, Global};
use std::marker::Model;

/// The modules of a crate's list, each to be found by the numbers of the module that its item stands in, and of the item.
/// A contract sees the list.
#[derive(Drop)]
pub(crate) struct ModuleIndex<'a> {
    modules: &'a [DeclaredModule],
    numbers: IndexMap<(usize, usize), usize>,
}

impl<'a> Model for ModuleIndex<'a> {
    ghost use Rattle.std.specs.Prelude.{List};
    ghost use Rattle.crate_items.specs.DeclaredModules.{Module};
    ghost use Rattle.crate_tables.specs.ModuleIndexes.{AreNumbersOf};

    ghost Value = { List Module };

    ghost view = { λ i. i.modules.now };

    ghost invariant = { λ i. AreNumbersOf 0 i.modules.now i.numbers.entries };
}

/// Gives a module its number, in the place of one behind it that the same item declares.
fn number_module(
    numbers: &mut IndexMap<(usize, usize), usize>,
    number: usize,
    declared: &DeclaredModule,
) -> Result<(), AllocError>
    ensures { OnOk result ((x : ItemOutline) → spec.number_of numbers.new.entries x ≡
        (if spec.declares x declared.now.declaration then Some number else spec.number_of numbers.old.entries x)) }
{
    match declared.declaration() {
        None => Ok(()),
        Some(declaration) => {
            numbers.insert((declaration.parent, declaration.item), number)?;
            Ok(())
        }
    }
}

/// The numbers of modules, the last first, so that of two that one item declares the first is found.
fn numbers_of(
    alloc: Global,
    modules: &[DeclaredModule],
) -> Result<IndexMap<(usize, usize), usize>, AllocError>
    ensures { IfOk result (λ numbers. spec.AreNumbersOf 0 modules.now numbers.entries) }
{
    let mut numbers = IndexMap::new(alloc);
    let mut number = modules.len();
    while 0 < number {
        number -= 1;
        number_module(&mut numbers, number, &modules[number])?;
    }
    Ok(numbers)
}

impl<'a> ModuleIndex<'a> {
    /// The modules of a list.
    pub(crate) fn of(
        alloc: Global,
        modules: &'a [DeclaredModule],
    ) -> Result<ModuleIndex<'a>, AllocError>
        ensures { IfOk result (λ index. index ≡ modules.now) }
    {
        let numbers = numbers_of(alloc, modules)?;
        Ok(ModuleIndex { modules, numbers })
    }

    /// The number of the module that an item declares.
    pub(crate) fn declared_by(&self, outline: ItemOutline) -> Option<usize>
        ensures { result ≡ spec.declared_by self.now outline }
    {
        self.numbers.get(&(outline.home, outline.item)).copied()
    }
}
