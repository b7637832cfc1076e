//! Where items stand, as FILE:LINE:COLUMN.
ghost use Rattle.std.specs.Prelude.{◌≡◌, length};

use crate::crates::Crates;
use crate::offsets::{item_offset, leaf_offset};
use crate::rows::{Location, push_location};
use crate_items::files::file_table::FileTable;
use crate_items::files::line_index::LineIndex;
use crate_items::files::source::Source;
use crate_items::modules::CrateModules;
use dm_base::ids::{ExternCrateId, FileId, UseId, UseTreeIdx};
use dm_base::imports::ImportOrExternCrate;
use dm_base::item_ids::ModuleDefId;
use std::alloc::{AllocError, Global};

/// The crate, the file and the number there of an item.
#[derive(Clone, Copy)]
pub struct ItemPlace {
    pub krate: usize,
    pub file: FileId,
    pub item: usize,
}

/// The lines of a file.
#[derive(Drop)]
pub(crate) struct FileLines<'a> {
    path: &'a str,
    /// How long its text is.
    len: usize,
    index: LineIndex<'a>,
    ghost whole: { len ≡ length index },
}

/// The lines of all files, by their numbers.
pub struct Lines<'a> {
    files: Vec<FileLines<'a>>,
}

/// A hand-written `Drop`, to keep proofs small: what drops one has one call to prove.
impl<'a> Drop for Lines<'a> {
    fn drop(self) {
        let Lines { files: _files } = self;
    }
}

/// The lines of a text.
pub(crate) fn file_lines<'a>(
    alloc: Global,
    path: &'a [u8],
    text: &'a [u8],
) -> Result<FileLines<'a>, AllocError> {
    Ok(FileLines {
        path: std::str::from_utf8(path).unwrap_or("?"),
        len: text.len(),
        index: LineIndex::new(alloc, text)?,
    })
}

impl<'a> FileLines<'a> {
    /// The path of the file, and the line and the column of a byte.
    pub(crate) fn location(&self, offset: Option<usize>) -> Location<'a> {
        match offset {
            Some(offset) if offset <= self.len => {
                let at = self.index.line_col(offset);
                Location {
                    file: self.path,
                    line: at.line,
                    column: at.col,
                }
            }
            _ => nowhere(self.path),
        }
    }
}

impl<'a> Lines<'a> {
    pub fn new(alloc: Global, files: &'a FileTable) -> Result<Lines<'a>, AllocError> {
        let mut all = Vec::new(alloc);
        for number in 0..files.len() {
            let id = FileId(u32::try_from(number).unwrap_or(u32::MAX));
            if files.contains(id) {
                all.push(file_lines(alloc, files.path(id), files.text(id))?)?;
            }
        }
        Ok(Lines { files: all })
    }

    /// The path of the file of a spot, its line and its column. No line is 0.
    pub(crate) fn location(&self, spot: Spot) -> Location<'a> {
        match self.files.get(spot.file.0 as usize) {
            None => nowhere("?"),
            Some(lines) => lines.location(Some(spot.offset)),
        }
    }

    /// Adds the path of the file of a spot, its line and its column.
    pub(crate) fn push_place(&self, out: &mut String, spot: Spot) -> Result<(), AllocError> {
        push_location(out, self.location(spot))
    }
}

/// A file of which no line is told.
fn nowhere(file: &str) -> Location<'_> {
    Location {
        file,
        line: 0,
        column: 0,
    }
}

/// The same, by the bytes of its path.
pub(crate) fn file_location(path: &[u8]) -> Location<'_> {
    nowhere(std::str::from_utf8(path).unwrap_or("?"))
}

/// The file of an import, and the byte of it where the import begins.
#[derive(Clone, Copy)]
pub struct Spot {
    pub file: FileId,
    pub offset: usize,
}

/// The source of a file in a crate's list.
pub fn source_of(lists: &[CrateModules], krate: usize, file: FileId) -> Option<&Source> {
    lists.get(krate)?.sources().get(file)
}

/// Where a leaf of a `use` begins.
pub(crate) fn use_spot<C: Crates>(
    alloc: Global,
    crates: &C,
    use_: UseId,
    leaf: UseTreeIdx,
) -> Result<Option<Spot>, AllocError> {
    let Some(place) = crates.use_place(use_) else {
        return Ok(None);
    };
    let Some(source) = source_of(crates.lists(), place.krate, place.file) else {
        return Ok(None);
    };
    Ok(Some(Spot {
        file: place.file,
        offset: leaf_offset(alloc, source, place.item, leaf)?,
    }))
}

/// Where an item of a crate begins.
pub(crate) fn item_spot(
    lists: &[CrateModules],
    krate: usize,
    file: FileId,
    item: usize,
) -> Option<Spot> {
    let source = source_of(lists, krate, file)?;
    Some(Spot {
        file,
        offset: item_offset(source, item),
    })
}

/// Where an `extern crate` begins.
fn extern_spot<C: Crates>(crates: &C, id: ExternCrateId) -> Option<Spot> {
    let place = crates.extern_place(id)?;
    item_spot(crates.lists(), place.krate, place.file, place.item)
}

/// Where a definition is written; none of what is written nowhere.
pub(crate) fn definition_spot<C: Crates>(crates: &C, def: ModuleDefId) -> Option<Spot> {
    let place = crates.def_place(def)?;
    item_spot(crates.lists(), place.krate, place.file, place.item)
}

/// Where the import begins that brought something.
pub(crate) fn import_spot<C: Crates>(
    alloc: Global,
    crates: &C,
    import: ImportOrExternCrate,
) -> Result<Option<Spot>, AllocError> {
    match import {
        ImportOrExternCrate::Import(id) => use_spot(alloc, crates, id.use_, id.idx),
        ImportOrExternCrate::Glob(id) => use_spot(alloc, crates, id.use_, id.idx),
        ImportOrExternCrate::ExternCrate(id) => Ok(extern_spot(crates, id)),
    }
}

/// How an import is called.
pub(crate) fn import_word(import: ImportOrExternCrate) -> &'static str {
    match import {
        ImportOrExternCrate::Import(_) => "import",
        ImportOrExternCrate::Glob(_) => "glob",
        ImportOrExternCrate::ExternCrate(_) => "extern",
    }
}
