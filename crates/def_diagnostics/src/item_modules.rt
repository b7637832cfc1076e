//! The module of a world that an item of a crate stands in.
ghost use Rattle.std.specs.Prelude.{◌≡◌, position, slice_get};
ghost use Rattle.def_diagnostics.specs.ItemModules as spec;
ghost use Rattle.crate_items.specs.FileItems as homes;
ghost use Rattle.crate_items.specs.Modules.{is_same};

use crate::macro_calls::id_at;
use crate_items::files::source::Source;
use crate_items::modules::CrateModules;
use crate_items::modules::declared_module::DeclaredModule;
use crate_items::modules::standing::Standing;
use dm_base::ids::{Crate, FileId, ModuleId};
use dm_base::source::Edition;
use item_tree::items::Item;
use item_tree::items::item_kind::ItemKind;
use std::marker::Model;

/// A crate of a world: its number there, its edition, the list of its modules, and the id of each that was not left out.
#[derive(Drop)]
pub struct MappedCrate<'a> {
    pub krate: Crate,
    pub edition: Edition,
    pub list: &'a CrateModules,
    pub ids: &'a [Option<ModuleId>],
}

impl<'a> Model for MappedCrate<'a> {
    ghost use Rattle.def_diagnostics.specs.ItemModules.{MappedCrate};

    ghost Value = { MappedCrate };

    ghost view = { λ c. record {
      krate = c.krate;
      edition = c.edition;
      list = c.list.now;
      ids = c.ids.now;
    } };
}

fn is_block_kind(kind: ItemKind) -> bool
    ensures { result ≡ homes.is_block_kind kind }
{
    matches!(kind, ItemKind::ExternBlock)
}

/// Whether the item of a number is an `extern` block.
fn is_block(items: &[Item], number: usize) -> bool
    ensures { result ≡ homes.is_block (slice_get items.now number) }
{
    match items.get(number) {
        None => false,
        Some(item) => is_block_kind(item.kind),
    }
}

/// The item that the one of a number stands in.
fn item_around(standings: &[Standing], number: usize) -> Option<usize>
    ensures { result ≡ homes.home_of (slice_get standings.now number) }
{
    match standings.get(number) {
        None => None,
        Some(standing) => standing.home,
    }
}

/// The item of the module that what is in an item stands in.
fn module_around(source: &Source, home: Option<usize>) -> Option<usize>
    ensures { result ≡ homes.module_around source.now home }
{
    match home {
        None => None,
        Some(number) => {
            if is_block(source.items(), number) {
                item_around(source.standings(), number)
            } else {
                Some(number)
            }
        }
    }
}

/// Whether two modules of a file are the same, by their items.
fn is_same(one: Option<usize>, other: Option<usize>) -> bool
    ensures { result ≡ is_same one other }
{
    match (one, other) {
        (None, None) => true,
        (Some(one), Some(other)) => one == other,
        _ => false,
    }
}

/// Whether a module is that of a file, or the inline one of an item in it.
fn is_module_of(file: FileId, home: Option<usize>, declared: &DeclaredModule) -> bool
    ensures { result ≡ spec.is_module_of file home declared.now }
{
    declared.file().0 == file.0 && is_same(declared.item(), home)
}

/// The number of the first such module.
fn position_of(modules: &[DeclaredModule], file: FileId, home: Option<usize>) -> Option<usize>
    ensures { result ≡ position (spec.is_module_of file home) modules.now }
{
    modules
        .iter()
        .position(|declared| is_module_of(file, home, declared))
}

/// The number of the module that an item of a file stands in; of two modules of that file the first.
fn module_number(list: &CrateModules, file: FileId, number: usize) -> Option<usize>
    ensures { result ≡ spec.module_number list.now file number }
{
    match list.sources().get(file) {
        None => None,
        Some(source) => {
            let around = item_around(source.standings(), number);
            position_of(list.modules(), file, module_around(source, around))
        }
    }
}

impl<'a> MappedCrate<'a> {
    /// The module that an item of a file stands in, by the file and the number of the item there; of two modules of one
    /// file the first. None where that was left out, and of what is in a trait or an implementation. Does not allocate.
    pub fn module_of(&self, file: FileId, item: usize) -> Option<ModuleId>
        ensures { result ≡ spec.module_of self.now file item }
    {
        match module_number(self.list, file, item) {
            None => None,
            Some(number) => id_at(self.ids, number),
        }
    }
}
