//! The files of crates, read by the modules that they declare.
use crate::complaints::Complaints;
use crate::outlines::{Outline, outlines_of};
use crate::progress::Progress;
use crate::reading::{FileText, file_text, unread_line};
use crate_items::files::file_table::{AddFileError, FileTable};
use crate_items::files::source::Source;
use crate_items::modules::mod_resolution::{Candidate, ModDir};
use dm_base::ids::FileId;
use dm_base::source::Edition;
use indexmap::IndexSet;
use item_tree::cfg::CfgOptions;
use std::alloc::{AllocError, Global};
use std::rt::{Clock, Files};

/// The files that were read, and those that were looked for.
pub(crate) struct Loader {
    pub(crate) files: FileTable,
    tried: IndexSet<Vec<u8>>,
    pub(crate) complaints: Complaints,
    pub(crate) progress: Progress,
}

/// A hand-written `Drop`, to keep proofs small: what drops one has one call to prove.
impl Drop for Loader {
    fn drop(self) {
        let Loader {
            files: _files,
            tried: _tried,
            complaints: _complaints,
            progress: _progress,
        } = self;
    }
}

/// How a crate reads its files.
#[derive(Clone, Copy)]
pub(crate) struct Manner<'a> {
    pub(crate) edition: Edition,
    pub(crate) options: &'a CfgOptions,
    /// How many files it may have.
    pub(crate) limit: u32,
}

/// A file of a crate, as the one of some module.
struct Visit {
    file: FileId,
    dir: ModDir,
    /// The number of the visit of the file that declares the module.
    around: Option<usize>,
}

/// A hand-written `Drop`, to keep proofs small: what drops one has one call to prove.
impl Drop for Visit {
    fn drop(self) {
        let Visit {
            file: _file,
            dir: _dir,
            around: _around,
        } = self;
    }
}

/// Whether a file is that of a visit or one around it.
fn is_around(visits: &[Visit], number: usize, file: FileId) -> bool {
    let mut next = number;
    for _visit in 0..visits.len() {
        let Some(visit) = visits.get(next) else {
            return false;
        };
        if visit.file == file {
            return true;
        }
        let Some(around) = visit.around else {
            return false;
        };
        next = around;
    }
    false
}

impl Loader {
    pub(crate) fn new(alloc: Global) -> Loader {
        Loader {
            files: FileTable::new(alloc),
            tried: IndexSet::new(alloc),
            complaints: Complaints::new(alloc),
            progress: Progress::silent(),
        }
    }

    /// The files that were read, and what could not be.
    pub(crate) fn into_parts(self) -> (FileTable, Complaints) {
        let Loader {
            files,
            tried: _tried,
            complaints,
            progress: _progress,
        } = self;
        (files, complaints)
    }

    /// Adds a file with its text, unless one of this path is there.
    pub(crate) fn add(
        &mut self,
        alloc: Global,
        path: &str,
        text: Vec<u8>,
    ) -> Result<Option<FileId>, AllocError> {
        let bytes = Vec::from_slice(alloc, path.as_bytes())?;
        match self.files.add(bytes, text) {
            Ok(id) => Ok(Some(id)),
            Err(AddFileError::PathExists) => Ok(self.files.file_at(path.as_bytes())),
            Err(AddFileError::OutOfMemory) => Err(AllocError),
        }
    }

    /// Reads the file of a path, unless that was tried before.
    fn read<R: Files + AllocGlobal + Clock + Eprint>(
        &mut self,
        rt: &R,
        path: &[u8],
    ) -> Result<(), AllocError> {
        let alloc = rt.alloc();
        if !self.tried.insert(Vec::from_slice(alloc, path)?)? {
            return Ok(());
        }
        let Ok(path) = std::str::from_utf8(path) else {
            return Ok(());
        };
        self.progress.see(rt, path);
        match file_text(rt, path) {
            FileText::Missing => {}
            FileText::Text(text) => {
                self.add(alloc, path, text)?;
            }
            FileText::Unreadable(reason) => {
                self.complaints.add(unread_line(alloc, path, reason)?)?;
            }
        }
        Ok(())
    }

    /// Reads the root of a crate. None where there is no such text, which is complained of.
    pub(crate) fn read_root<R: Files + AllocGlobal + Clock + Eprint>(
        &mut self,
        rt: &R,
        path: &str,
    ) -> Result<Option<FileId>, AllocError> {
        let before = self.complaints.lines().len();
        self.read(rt, path.as_bytes())?;
        let found = self.files.file_at(path.as_bytes());
        if found.is_none() && self.complaints.lines().len() == before {
            let reason = "no such file: give the file of a crate's root";
            self.complaints.add(unread_line(rt.alloc(), path, reason)?)?;
        }
        Ok(found)
    }

    /// Reads the files at candidates. Answers with the one that is there, if no other is.
    fn only_there<'a, R: Files + AllocGlobal + Clock + Eprint>(
        &mut self,
        rt: &R,
        candidates: &'a [Candidate],
    ) -> Result<Option<(FileId, &'a Candidate)>, AllocError> {
        let mut only = None;
        let mut count = 0usize;
        for candidate in candidates {
            self.read(rt, candidate.path())?;
            if let Some(file) = self.files.file_at(candidate.path()) {
                only = Some((file, candidate));
                count = count.saturating_add(1);
            }
        }
        Ok(if count == 1 { only } else { None })
    }

    /// The modules of a visited file whose items stand in files of their own.
    fn outlines(
        &self,
        alloc: Global,
        visit: &Visit,
        manner: Manner<'_>,
    ) -> Result<Vec<Outline>, AllocError> {
        if !self.files.contains(visit.file) {
            return Ok(Vec::new(alloc));
        }
        let text = self.files.text(visit.file);
        let source = Source::read(alloc, manner.edition, manner.options, text)?;
        outlines_of(alloc, &source, text, &visit.dir)
    }

    /// Reads the files of the modules that a visited file declares, and adds the visits of these.
    fn follow<R: Files + AllocGlobal + Clock + Eprint>(
        &mut self,
        rt: &R,
        visits: &mut Vec<Visit>,
        number: usize,
        manner: Manner<'_>,
    ) -> Result<(), AllocError> {
        let alloc = rt.alloc();
        let Some(visit) = visits.get(number) else {
            return Ok(());
        };
        for outline in &self.outlines(alloc, visit, manner)? {
            let found = self.only_there(rt, outline.candidates.as_slice())?;
            let Some((file, candidate)) = found else {
                continue;
            };
            if is_around(visits.as_slice(), number, file) {
                continue;
            }
            visits.push(Visit {
                file,
                dir: candidate.mod_dir(alloc, &outline.name)?,
                around: Some(number),
            })?;
        }
        Ok(())
    }

    /// Reads the files of the modules of a crate whose root was read, at most as many as it may have.
    pub(crate) fn read_modules<R: Files + AllocGlobal + Clock + Eprint>(
        &mut self,
        rt: &R,
        root: FileId,
        manner: Manner<'_>,
    ) -> Result<(), AllocError> {
        let alloc = rt.alloc();
        if !self.files.contains(root) {
            return Ok(());
        }
        let mut visits = Vec::new(alloc);
        visits.push(Visit {
            file: root,
            dir: ModDir::root(alloc, self.files.path(root))?,
            around: None,
        })?;
        for number in 0..manner.limit as usize {
            if number >= visits.len() {
                break;
            }
            self.follow(rt, &mut visits, number, manner)?;
        }
        Ok(())
    }
}
