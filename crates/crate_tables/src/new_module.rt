//! Modules of a crate, as they are added to a builder.
ghost use Rattle.std.specs.Prelude.{◌≡◌, IfOk, IsTrue, slice_get};
ghost use Rattle.crate_items.specs.Files as table;
ghost use Rattle.crate_tables.specs.NewModules as spec;
ghost use Rattle.dm_def_map.specs.Origins.{is_child};

use crate_items::files::file_table::FileTable;
use crate_items::modules::CrateModules;
use crate_items::modules::declared_module::{Declaration, DeclaredModule};
use crate_items::modules::module_visibility::DeclaredVisibility;
use dm_base::ids::{Crate, FileAstId, FileId};
use dm_base::name::Name;
use dm_base::source::{Edition, EditionedFileId, HirFileId, TreeId};
use dm_maps::module_origin::ModuleOrigin;
use item_tree::cfg::CfgOptions;
use item_tree::items::visibility::RawVisibility;
use std::alloc::{AllocError, Global};
use std::marker::Model;

/// A crate: its number in a builder, its edition and options, whether it has procedural macros, the modules that it
/// declares, and the files.
#[derive(Drop)]
pub struct CrateView<'a> {
    pub krate: Crate,
    pub edition: Edition,
    pub options: &'a CfgOptions,
    pub is_proc_macro: bool,
    pub list: &'a CrateModules,
    pub files: &'a FileTable,
}

impl<'a> Model for CrateView<'a> {
    ghost use Rattle.crate_tables.specs.NewModules.{CrateView};

    ghost Value = { CrateView };

    ghost view = { λ v. record {
      krate = v.krate;
      edition = v.edition;
      options = v.options.now;
      is_proc_macro = v.is_proc_macro;
      list = v.list.now;
      files = v.files.now;
    } };
}

/// The file of a module, and whether it is a `mod.rs`.
#[derive(Clone, Copy, PartialEq, Eq, Debug)]
pub struct OwnFile {
    pub file: FileId,
    pub is_mod_rs: bool,
}

/// A module that is to be added.
#[derive(Drop)]
pub struct NewModule {
    /// The number of the module that it stands in, in the list of the crate.
    pub parent: usize,
    pub name: Name,
    /// The file that its declaration stands in, and the number of its item there.
    pub declared_in: FileId,
    pub item: usize,
    /// Its own file; none where it is inline.
    pub own_file: Option<OwnFile>,
    /// Its visibility, as it is written.
    pub written: RawVisibility,
    /// Whom that shows it to; none where it leads to no module around.
    pub shown: Option<DeclaredVisibility>,
}

/// The path of a file; nothing, where there is no such file.
fn path_of(files: &FileTable, id: FileId) -> &[u8]
    ensures { result.now ≡ table.path_of files.now id }
{
    if files.contains(id) {
        files.path(id)
    } else {
        &[]
    }
}

/// The text of a file; nothing, where there is no such file.
fn text_of(files: &FileTable, id: FileId) -> &[u8]
    ensures { result.now ≡ table.text_of files.now id }
{
    if files.contains(id) {
        files.text(id)
    } else {
        &[]
    }
}

fn is_mod_rs(path: &[u8]) -> bool
    ensures { result ≡ spec.is_mod_rs path.now }
{
    path.ends_with(b"/mod.rs")
}

/// The file of a module that is not inline.
fn own_file(files: &FileTable, id: FileId, item: Option<usize>) -> Option<OwnFile>
    ensures { result ≡ spec.own_file files.now id item }
{
    match item {
        Some(_) => None,
        None => Some(OwnFile {
            file: id,
            is_mod_rs: is_mod_rs(path_of(files, id)),
        }),
    }
}

impl<'a> CrateView<'a> {
    /// Whether the module of a number is the root of a crate of procedural macros.
    pub(crate) fn is_macro_root(&self, number: usize) -> bool
        ensures { result ≡ spec.is_macro_root self.now number }
    {
        self.is_proc_macro && number == 0
    }

    /// Whom a declaration shows its module to.
    fn shown(
        &self,
        alloc: Global,
        declaration: &Declaration,
    ) -> Result<Option<DeclaredVisibility>, AllocError>
        ensures { IfOk result (λ shown. shown ≡ spec.shown_in self.now declaration.now
            (slice_get self.now.list.modules declaration.now.parent)) }
    {
        match self.list.modules().get(declaration.parent) {
            None => Ok(None),
            Some(outer) => self.list.visibility(
                alloc,
                self.edition,
                text_of(self.files, outer.file()),
                declaration.parent,
                declaration.visibility,
            ),
        }
    }

    /// A module of this declaration.
    fn declared_so(
        &self,
        alloc: Global,
        declared: &DeclaredModule,
        declaration: &Declaration,
    ) -> Result<NewModule, AllocError>
        ensures { IfOk result (λ new. new ≡ spec.declared_so self.now declared.now declaration.now) }
    {
        Ok(NewModule {
            parent: declaration.parent,
            name: declaration.name.copy(alloc)?,
            declared_in: declaration.file,
            item: declaration.item,
            own_file: own_file(self.files, declared.file(), declared.item()),
            written: declaration.visibility,
            shown: self.shown(alloc, declaration)?,
        })
    }

    /// What is added for a module of the list; nothing for the root, which is declared nowhere.
    ///
    /// # Errors
    ///
    /// Fails only where memory runs out.
    pub fn new_module(
        &self,
        alloc: Global,
        declared: &DeclaredModule,
    ) -> Result<Option<NewModule>, AllocError>
        ensures { IfOk result (λ new. new ≡ spec.new_module self.now declared.now) }
    {
        match declared.declaration() {
            None => Ok(None),
            Some(declaration) => {
                let new = self.declared_so(alloc, declared, declaration)?;
                Ok(Some(new))
            }
        }
    }
}

/// A file, as an edition reads it.
pub(crate) fn in_edition(edition: Edition, file: FileId) -> EditionedFileId
    ensures { result ≡ spec.in_edition edition file }
{
    EditionedFileId { file, edition }
}

/// The item tree of a file.
fn tree_in(edition: Edition, file: FileId) -> TreeId
    ensures { result ≡ spec.tree_in edition file }
{
    TreeId {
        file: HirFileId::File(in_edition(edition, file)),
        block: None,
    }
}

/// Where a module comes from that an item in a file declares.
pub(crate) fn origin_by(
    edition: Edition,
    file: FileId,
    item: FileAstId,
    own_file: Option<OwnFile>,
) -> ModuleOrigin
    ensures exact { result ≡ spec.origin_by edition file item own_file }
    ensures child { IsTrue (is_child result) }
{
    match own_file {
        Some(own) => ModuleOrigin::File {
            is_mod_rs: own.is_mod_rs,
            declaration: item,
            declaration_tree_id: tree_in(edition, file),
            definition: in_edition(edition, own.file),
        },
        None => ModuleOrigin::Inline {
            definition_tree_id: tree_in(edition, file),
            definition: item,
        },
    }
}
