//! Modules that a crate declares, and declarations that lead to none.
ghost use Rattle.std.specs.Prelude.{◌≡◌};
ghost use Rattle.std.specs.Option.{option_copied};

use crate::modules::mod_resolution::{Candidate, ModDir};
use dm_base::ids::FileId;
use dm_base::name::Name;
use item_tree::items::visibility::RawVisibility;
use std::marker::Model;

/// Where and how a module is declared.
pub struct Declaration {
    /// The number of the module that it stands in, in the list of the crate.
    pub parent: usize,
    /// Its name, without the `r#` of a raw one.
    pub name: Name,
    /// Its visibility, as it is written. The places are those of lexemes of the file.
    pub visibility: RawVisibility,
    /// The file that it stands in.
    pub file: FileId,
    /// The number of its item in the tree of that file.
    pub item: usize,
}

/// Hand-written `Drop`, to keep proofs small: dropping one is then a single call.
impl Drop for Declaration {
    fn drop(self) {
        let Declaration {
            parent: _parent,
            name: _name,
            visibility: _visibility,
            file: _file,
            item: _item,
        } = self;
    }
}

/// A module of a crate.
pub struct DeclaredModule {
    pub(crate) declaration: Option<Declaration>,
    pub(crate) file: FileId,
    pub(crate) item: Option<usize>,
    pub(crate) dir: ModDir,
    pub(crate) around: Vec<FileId>,
}

/// Hand-written `Drop`, to keep proofs small: dropping one is then a single call.
impl Drop for DeclaredModule {
    fn drop(self) {
        let DeclaredModule {
            declaration: _declaration,
            file: _file,
            item: _item,
            dir: _dir,
            around: _around,
        } = self;
    }
}

impl Model for DeclaredModule {
    ghost use Rattle.crate_items.specs.DeclaredModules.{Module};

    ghost Value = { Module };

    ghost view = { λ m. record {
      declaration = m.declaration;
      file = m.file;
      item = m.item;
      dir = m.dir;
      around = m.around.items;
    } };
}

/// A declaration that leads to no module, since it has no file of its own.
pub struct ModuleFault {
    pub(crate) declaration: Declaration,
    pub(crate) candidates: Vec<Candidate>,
    pub(crate) within: Option<FileId>,
}

/// Hand-written `Drop`, to keep proofs small: dropping one is then a single call.
impl Drop for ModuleFault {
    fn drop(self) {
        let ModuleFault {
            declaration: _declaration,
            candidates: _candidates,
            within: _within,
        } = self;
    }
}

impl Model for ModuleFault {
    ghost use Rattle.crate_items.specs.DeclaredModules.{Fault};

    ghost Value = { Fault };

    ghost view = { λ f. record {
      declaration = f.declaration;
      candidates = f.candidates.items;
      within = f.within;
    } };
}

impl DeclaredModule {
    /// How it is declared; none for the root of the crate.
    pub fn declaration(&self) -> Option<&Declaration>
        ensures { option_copied result ≡ self.now.declaration }
    {
        self.declaration.as_ref()
    }

    /// The file that its items stand in.
    pub fn file(&self) -> FileId
        ensures { result ≡ self.now.file }
    {
        self.file
    }

    /// The number of its item in that file, if it is inline; none where its items are those of the file.
    pub fn item(&self) -> Option<usize>
        ensures { result ≡ self.now.item }
    {
        self.item
    }

    /// Where the files of its children are looked for.
    pub fn mod_dir(&self) -> &ModDir
        ensures { result.now ≡ self.now.dir }
    {
        &self.dir
    }

    /// The files that it stands in, from that of the root to its own.
    pub fn files_around(&self) -> &[FileId]
        ensures { result.now ≡ self.now.around }
    {
        self.around.as_slice()
    }
}

impl ModuleFault {
    /// How the module is declared.
    pub fn declaration(&self) -> &Declaration
        ensures { result.now ≡ self.now.declaration }
    {
        &self.declaration
    }

    /// Where its file was looked for. None of these paths has a file, or two have, or the one that has is `within`.
    pub fn candidates(&self) -> &[Candidate]
        ensures { result.now ≡ self.now.candidates }
    {
        self.candidates.as_slice()
    }

    /// The file that is there, where the declaration itself stands in it.
    pub fn within(&self) -> Option<FileId>
        ensures { result ≡ self.now.within }
    {
        self.within
    }
}
