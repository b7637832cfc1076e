//! Files by their numbers: the path and the text of each.
ghost use Rattle.std.specs.Prelude.{◌≡◌, ◌<◌, ℕ, ◌^◌, ◌↔◌, ◌++◌, ◌∷◌, [], Some, None, IfErr, IfOk, IfSome, IsTrue, OnErr, OnOk, length, is_some, option_map, slice_get};
ghost use Rattle.std.specs.Global.{Vec};
ghost use Rattle.std.specs.Str.{bytes_eq};
ghost use Rattle.crate_items.specs.Files as spec;
ghost use Rattle.indexmap.specs.IndexMap.{get_by};

use dm_base::ids::FileId;
use indexmap::IndexMap;
use std::alloc::{AllocError, Global};
use std::marker::Model;

/// Paths and texts of files. A contract sees the list of the files, each at its number.
pub struct FileTable {
    texts: IndexMap<Vec<u8>, Vec<u8>>,
}

/// Hand-written `Drop`, to keep proofs small: dropping one is then a single call.
impl Drop for FileTable {
    fn drop(self) {
        let FileTable { texts: _texts } = self;
    }
}

impl Model for FileTable {
    ghost use Rattle.std.specs.Prelude.{List, ◌≤◌, ◌^◌, length};
    ghost use Rattle.crate_items.specs.Files.{SourceFile, files_of};

    ghost Value = { List SourceFile };

    ghost view = { λ t. files_of t.texts.entries };

    ghost invariant = { λ t. length t.texts.entries ≤ 2 ^ 32 };
}

/// Why a file was not added.
#[derive(Clone, Copy, PartialEq, Eq, Debug)]
pub enum AddFileError {
    /// There is a file of this path.
    PathExists,
    /// Memory ran out, or numbers of files did.
    OutOfMemory,
}

impl From<AllocError> for AddFileError {
    ghost use Rattle.crate_items.specs.declared.files.file_table.AddFileError.TheVariants.{OutOfMemory};

    ghost from_gives = { λ _ error. error ≡ OutOfMemory };

    fn from(_refused: AllocError) -> AddFileError {
        AddFileError::OutOfMemory
    }
}

/// The number of the next file, if it fits.
fn next_number(count: usize) -> Result<u32, AllocError>
    ensures { IfOk result (λ number. (number ≡ count) × (count < 2 ^ 32)) }
{
    match u32::try_from(count) {
        Ok(number) => Ok(number),
        Err(_) => Err(AllocError),
    }
}

/// The number of the file at a path.
fn number_of(texts: &IndexMap<Vec<u8>, Vec<u8>>, path: &[u8]) -> Option<usize>
    ensures exact { result ≡ spec.number_at (spec.files_of texts.now.entries) path.now }
    ensures within { IfSome result (λ number. number < length texts.now.entries) }
    ensures vacant { is_some result ≡
        is_some (get_by (λ (k : Vec ℕ). bytes_eq path.now k.items) texts.now) }
{
    texts.get_index_of(path)
}

/// Adds a file of another path than those that are there.
fn add_new(
    texts: &mut IndexMap<Vec<u8>, Vec<u8>>,
    path: Vec<u8>,
    text: Vec<u8>,
) -> Result<(), AllocError>
    requires { get_by (λ (k : Vec ℕ). bytes_eq path.items k.items) texts.old ≡ None }
    ensures ok { OnOk result (texts.new.entries ≡ texts.old.entries ++ (path, text) ∷ []) }
    ensures err { OnErr result (texts.new.entries ≡ texts.old.entries) }
{
    texts.insert(path, text)?;
    Ok(())
}

impl FileTable {
    /// A table of no files. Allocates nothing.
    pub fn new(alloc: Global) -> FileTable
        ensures { result ≡ [] }
    {
        FileTable {
            texts: IndexMap::new(alloc),
        }
    }

    /// Adds a file, which gets the next number.
    ///
    /// # Errors
    ///
    /// Fails where there is a file of this path, and where memory or numbers run out, and then changes nothing.
    pub fn add(&mut self, path: Vec<u8>, text: Vec<u8>) -> Result<FileId, AddFileError>
        ensures ok { OnOk result
            (self.new ≡ self.old ++ record { path = path.items; text = text.items } ∷ []) }
        ensures number { IfOk result (λ id. id.0 ≡ length self.old) }
        ensures vacant { OnOk result (spec.file_at self.old path.items ≡ None) }
        ensures taken { IfErr result
            (λ e. spec.is_taken e ≡ is_some (spec.file_at self.old path.items)) }
        ensures err { OnErr result (self.new ≡ self.old) }
    {
        if number_of(&self.texts, path.as_slice()).is_some() {
            return Err(AddFileError::PathExists);
        }
        let number = next_number(self.texts.len())?;
        add_new(&mut self.texts, path, text)?;
        Ok(FileId(number))
    }

    /// How many files there are.
    pub fn len(&self) -> usize
        ensures { result ≡ length self.now }
    {
        self.texts.len()
    }

    /// Whether there is no file.
    pub fn is_empty(&self) -> bool
        ensures { IsTrue result ↔ (self.now ≡ []) }
    {
        self.texts.is_empty()
    }

    /// Whether there is a file of this number.
    pub fn contains(&self, id: FileId) -> bool
        ensures { IsTrue result ↔ (id.0 < length self.now) }
    {
        (id.0 as usize) < self.texts.len()
    }

    /// The file at a path. The time does not depend on the number of files.
    pub fn file_at(&self, path: &[u8]) -> Option<FileId>
        ensures exact { result ≡ spec.file_at self.now path.now }
        ensures there { IfSome result (λ id. id.0 < length self.now) }
    {
        match number_of(&self.texts, path) {
            None => None,
            Some(number) => Some(FileId(number as u32)),
        }
    }

    /// The path of a file.
    pub fn path(&self, id: FileId) -> &[u8]
        requires { id.0 < length self.now }
        ensures { result.now ≡ spec.path_of self.now id }
    {
        match self.texts.get_index(id.0 as usize) {
            None => unreachable!(),
            Some((path, _)) => path.as_slice(),
        }
    }

    /// The text of a file.
    pub fn text(&self, id: FileId) -> &[u8]
        requires { id.0 < length self.now }
        ensures { result.now ≡ spec.text_of self.now id }
    {
        match self.texts.get_index(id.0 as usize) {
            None => unreachable!(),
            Some((_, text)) => text.as_slice(),
        }
    }
}
