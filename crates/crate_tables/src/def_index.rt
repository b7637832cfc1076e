//! The definitions of a crate's table, by where they are written.
ghost use Rattle.std.specs.Prelude.{◌≡◌, ◌&&◌, false, true, IfOk, OnOk, Some, if◌then◌else◌};
ghost use Rattle.crate_tables.specs.DefIndexes as spec;

use crate::item_place::DefPlace;
use dm_base::ids::{FileId, ModuleId};
use dm_base::item_ids::{MacroId, ModuleDefId};
use indexmap::IndexMap;
use std::alloc::{AllocError, Global};
use std::marker::Model;

/// Where a definition is written: the numbers of its module, its file, and the item.
type Key = ((u32, u32), usize);

/// The definitions of a table, each to be found by where it is written: at a function that is a procedural macro, that macro
/// and the function. A contract sees the table's list.
#[derive(Drop)]
pub(crate) struct DefIndex<'a> {
    places: &'a [DefPlace],
    procedural: IndexMap<Key, ModuleDefId>,
    others: IndexMap<Key, ModuleDefId>,
}

impl<'a> Model for DefIndex<'a> {
    ghost use Rattle.std.specs.Prelude.{false, true, List};
    ghost use Rattle.crate_tables.specs.DefIndexes.{AreDefsOf};
    ghost use Rattle.crate_tables.specs.declared.item_place.DefPlace.{DefPlace};

    ghost Value = { List DefPlace };

    ghost view = { λ i. i.places.now };

    ghost invariant = { λ i. AreDefsOf true i.places.now i.procedural.entries × AreDefsOf false i.places.now i.others.entries };
}

fn is_procedural(def: ModuleDefId) -> bool
    ensures { result ≡ spec.is_procedural def }
{
    matches!(def, ModuleDefId::MacroId(MacroId::ProcMacroId(_)))
}

/// Whether a definition is one of those that are meant: procedural macros, or all others.
fn is_meant(procedural: bool, def: ModuleDefId) -> bool
    ensures { result ≡ spec.is_meant procedural def }
{
    if procedural {
        is_procedural(def)
    } else {
        !is_procedural(def)
    }
}

/// Puts a definition into a table of procedural macros, or of all others, in the place of one behind it that is written
/// there.
fn index_place(
    table: &mut IndexMap<Key, ModuleDefId>,
    procedural: bool,
    place: DefPlace,
) -> Result<(), AllocError>
    ensures { OnOk result ((k : spec.Key) → spec.found_in table.new.entries k ≡
        (if spec.is_at procedural k place then Some place.def else spec.found_in table.old.entries k)) }
{
    if is_meant(procedural, place.def) {
        table.insert(((place.home.0, place.file.0), place.item), place.def)?;
    }
    Ok(())
}

/// The procedural macros among some definitions, or all others, by where they are written. The last come first, so that of
/// two at one place the first is found.
fn table_of(
    alloc: Global,
    procedural: bool,
    places: &[DefPlace],
) -> Result<IndexMap<Key, ModuleDefId>, AllocError>
    ensures { IfOk result (λ table. spec.AreDefsOf procedural places.now table.entries) }
{
    let mut table = IndexMap::new(alloc);
    let mut number = places.len();
    while 0 < number {
        number -= 1;
        index_place(&mut table, procedural, places[number])?;
    }
    Ok(table)
}

impl<'a> DefIndex<'a> {
    /// The definitions of a table.
    pub(crate) fn of(alloc: Global, places: &'a [DefPlace]) -> Result<DefIndex<'a>, AllocError>
        ensures { IfOk result (λ index. index ≡ places.now) }
    {
        let procedural = table_of(alloc, true, places)?;
        let others = table_of(alloc, false, places)?;
        Ok(DefIndex {
            places,
            procedural,
            others,
        })
    }

    /// The definition that an item is, which is no procedural macro.
    pub(crate) fn def_at(&self, home: ModuleId, file: FileId, item: usize) -> Option<ModuleDefId>
        ensures { result ≡ spec.def_at false self.now (spec.key_at home file item) }
    {
        self.others.get(&((home.0, file.0), item)).copied()
    }

    /// The procedural macro that a function is.
    pub(crate) fn macro_at(&self, home: ModuleId, file: FileId, item: usize) -> Option<ModuleDefId>
        ensures { result ≡ spec.def_at true self.now (spec.key_at home file item) }
    {
        self.procedural.get(&((home.0, file.0), item)).copied()
    }
}
