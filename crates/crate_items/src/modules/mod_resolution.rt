//! Where the files of modules are looked for.
ghost use Rattle.std.specs.Prelude.{◌≡◌, ◌++◌, ◌∷◌, [], Some, None, IfOk};
ghost use Rattle.crate_items.specs.ModDirs as spec;
ghost use Rattle.std.specs.Option.{option_copied};

use crate::files::paths::{enter_all, file_name, folder_of, is_absolute, joined};
use dm_base::name::Name;
use std::alloc::{AllocError, Global};
use std::marker::Model;

/// Where the files of a module's children are looked for.
pub struct ModDir {
    folder: Vec<u8>,
    own: Vec<u8>,
}

/// Hand-written `Drop`, to keep proofs small: dropping one is then a single call.
impl Drop for ModDir {
    fn drop(self) {
        let ModDir {
            folder: _folder,
            own: _own,
        } = self;
    }
}

impl Model for ModDir {
    ghost use Rattle.crate_items.specs.ModDirs.{Dir};

    ghost Value = { Dir };

    ghost view = { λ d. record { folder = d.folder.items; own = d.own.items } };
}

/// A path at which the file of a module may be.
pub struct Candidate {
    path: Vec<u8>,
    is_owner: bool,
}

/// Hand-written `Drop`, to keep proofs small: dropping one is then a single call.
impl Drop for Candidate {
    fn drop(self) {
        let Candidate {
            path: _path,
            is_owner: _is_owner,
        } = self;
    }
}

impl Model for Candidate {
    ghost use Rattle.crate_items.specs.ModDirs.{File};

    ghost Value = { File };

    ghost view = { λ c. record { path = c.path.items; is_owner = c.is_owner } };
}

/// A name without the `r#` of a raw one.
fn bare(name: &Name) -> &[u8]
    ensures { result.now ≡ spec.bare name.now }
{
    let text = name.as_str().as_bytes();
    if text.starts_with(b"r#") {
        return &text[2..];
    }
    text
}

impl ModDir {
    /// For the children of a crate's root, whose file has the path.
    ///
    /// # Errors
    ///
    /// Fails only where memory runs out.
    pub fn root(alloc: Global, path: &[u8]) -> Result<ModDir, AllocError>
        ensures { IfOk result (λ dir. dir ≡ spec.of_owner path.now) }
    {
        let folder = Vec::from_slice(alloc, folder_of(path))?;
        Ok(ModDir {
            folder,
            own: Vec::new(alloc),
        })
    }

    /// For the children of a module declared here whose file begins with this `#![path]`.
    ///
    /// # Errors
    ///
    /// Fails only where memory runs out.
    pub(crate) fn beside(&self, alloc: Global, path: &[u8]) -> Result<ModDir, AllocError>
        ensures { IfOk result (λ dir. dir ≡ spec.of_owner (spec.attr_file self.now path.now)) }
    {
        let file = self.attr_file(alloc, path)?;
        let dir = ModDir::root(alloc, file.as_slice())?;
        Ok(dir)
    }

    /// A copy.
    ///
    /// # Errors
    ///
    /// Fails only where memory runs out.
    pub(crate) fn copy(&self, alloc: Global) -> Result<ModDir, AllocError>
        ensures { IfOk result (λ dir. dir ≡ self.now) }
    {
        let folder = Vec::from_slice(alloc, self.folder.as_slice())?;
        let own = Vec::from_slice(alloc, self.own.as_slice())?;
        Ok(ModDir { folder, own })
    }

    /// For the children of the inline module `mod name { .. }`, which may have a `#[path]`.
    ///
    /// # Errors
    ///
    /// Fails only where memory runs out.
    pub fn descend_into_definition(
        &self,
        alloc: Global,
        name: &Name,
        attr_path: Option<&[u8]>,
    ) -> Result<ModDir, AllocError>
        ensures { IfOk result (λ dir. dir ≡ spec.inline self.now name.now (option_copied attr_path.entry)) }
    {
        let folder = match attr_path {
            None => self.child(alloc, name, b"/")?,
            Some(path) => self.attr_folder(alloc, path)?,
        };
        Ok(ModDir {
            folder,
            own: Vec::new(alloc),
        })
    }

    /// Where the file of `mod name;`, which may have a `#[path]`, is looked for: the paths in order.
    ///
    /// # Errors
    ///
    /// Fails only where memory runs out.
    pub fn candidates(
        &self,
        alloc: Global,
        name: &Name,
        attr_path: Option<&[u8]>,
    ) -> Result<Vec<Candidate>, AllocError>
        ensures { IfOk result (λ found. found.items ≡ spec.candidates self.now name.now (option_copied attr_path.entry)) }
    {
        let mut found = Vec::new(alloc);
        match attr_path {
            None => {
                let path = self.child(alloc, name, b".rs")?;
                found.push(Candidate {
                    path,
                    is_owner: false,
                })?;
                let path = self.child(alloc, name, b"/mod.rs")?;
                found.push(Candidate {
                    path,
                    is_owner: true,
                })?;
            }
            Some(attr_path) => {
                let path = self.attr_file(alloc, attr_path)?;
                found.push(Candidate {
                    path,
                    is_owner: true,
                })?;
            }
        }
        Ok(found)
    }

    /// What stands under a name in the folder of the children.
    fn child(&self, alloc: Global, name: &Name, ending: &[u8]) -> Result<Vec<u8>, AllocError>
        ensures { IfOk result (λ path. path.items ≡ spec.child self.now name.now ending.now) }
    {
        let path = joined(
            alloc,
            self.folder.as_slice(),
            self.own.as_slice(),
            bare(name),
            ending,
        )?;
        Ok(path)
    }

    /// The file that a `#[path]` names.
    fn attr_file(&self, alloc: Global, path: &[u8]) -> Result<Vec<u8>, AllocError>
        ensures { IfOk result (λ found. found.items ≡ spec.attr_file self.now path.now) }
    {
        if is_absolute(path) {
            let found = Vec::from_slice(alloc, path)?;
            return Ok(found);
        }
        let mut found = Vec::from_slice(alloc, self.folder.as_slice())?;
        enter_all(&mut found, folder_of(path))?;
        found.extend_from_slice(file_name(path))?;
        Ok(found)
    }

    /// The folder that a `#[path]` of an inline module names.
    fn attr_folder(&self, alloc: Global, path: &[u8]) -> Result<Vec<u8>, AllocError>
        ensures { IfOk result (λ found. found.items ≡ spec.attr_folder self.now path.now) }
    {
        if is_absolute(path) {
            let found = as_folder(alloc, path)?;
            return Ok(found);
        }
        let mut found = Vec::from_slice(alloc, self.folder.as_slice())?;
        enter_all(&mut found, path)?;
        Ok(found)
    }
}

/// A path with a slash at its end.
fn as_folder(alloc: Global, path: &[u8]) -> Result<Vec<u8>, AllocError>
    ensures { IfOk result (λ folder. folder.items ≡ spec.as_folder path.now) }
{
    let mut folder = Vec::from_slice(alloc, path)?;
    if !path.ends_with(b"/") {
        folder.push(b'/')?;
    }
    Ok(folder)
}

impl Candidate {
    /// The path.
    pub fn path(&self) -> &[u8]
        ensures { result.now ≡ self.now.path }
    {
        self.path.as_slice()
    }

    /// Whether the file would be a directory owner: whether the files of its children stand beside it.
    pub fn is_directory_owner(&self) -> bool
        ensures { result ≡ self.now.is_owner }
    {
        self.is_owner
    }

    /// For the children of the module of this name, if its file has this path.
    ///
    /// # Errors
    ///
    /// Fails only where memory runs out.
    pub fn mod_dir(&self, alloc: Global, name: &Name) -> Result<ModDir, AllocError>
        ensures { IfOk result (λ dir. dir ≡ spec.of_file self.now name.now) }
    {
        let folder = Vec::from_slice(alloc, folder_of(self.path.as_slice()))?;
        let own = if self.is_owner {
            Vec::new(alloc)
        } else {
            joined(alloc, b"", b"", bare(name), b"/")?
        };
        Ok(ModDir { folder, own })
    }
}
