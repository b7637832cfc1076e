//! The files of Rust below a folder, by the names in it and in those below.
use crate::orphans::{LeftOut, Orphans};
use crate::reached::Reached;
use crate::shown_name::shown_name;
use std::alloc::{AllocError, Global};
use std::fs::{FileType, symlink_metadata};
use std::io::{self, BufRead, BufReader};
use std::rt::Files;

/// A folder, whose files are listed.
pub(crate) struct Folder {
    alloc: Global,
    /// Its path without links, and as it is shown; each ends in a slash, or is empty.
    pub(crate) whole: String,
    pub(crate) shown: String,
    /// The folders below that are still to be listed, by their paths from it, which end in a slash.
    left: Vec<String>,
    /// The files of Rust, by their paths from it.
    pub(crate) files: Vec<String>,
    /// Whether it has a manifest of cargo.
    pub(crate) is_package: bool,
    /// What could not be listed.
    pub(crate) unread: Vec<String>,
}

/// A hand-written `Drop`, to keep proofs small: what drops one has one call to prove.
impl Drop for Folder {
    fn drop(self) {
        let Folder {
            alloc: _alloc,
            whole: _whole,
            shown: _shown,
            left: _left,
            files: _files,
            is_package: _is_package,
            unread: _unread,
        } = self;
    }
}

/// The names in a folder, in their order.
fn names_in<R: Files + AllocGlobal>(rt: &R, folder: &str) -> io::Result<Vec<Vec<u8>>> {
    let alloc = rt.alloc();
    let listing = BufReader::new(alloc, rt.open_dir(folder)?)?;
    let mut names = Vec::new(alloc);
    for name in listing.split(alloc, 0) {
        names.push(name?)?;
    }
    names.sort()?;
    Ok(names)
}

/// Whether some names have one.
fn has_name(names: &[Vec<u8>], wanted: &[u8]) -> bool {
    for name in names {
        if name.as_slice() == wanted {
            return true;
        }
    }
    false
}

/// Why what stands in a folder of this name is left out, if it is.
fn reason_of(name: &str) -> Option<LeftOut> {
    if name.starts_with('.') {
        Some(LeftOut::Hidden)
    } else if name == "target" {
        Some(LeftOut::Target)
    } else {
        None
    }
}

fn is_rust(name: &[u8]) -> bool {
    name.ends_with(b".rs")
}

/// Whether a link leads to a folder.
fn leads_to_folder<R: Files>(rt: &R, path: &str) -> bool {
    match rt.metadata(path) {
        Ok(metadata) => metadata.is_dir(),
        Err(_error) => false,
    }
}

impl Folder {
    pub(crate) fn new(alloc: Global, whole: String, shown: String) -> Result<Folder, AllocError> {
        let mut left = Vec::new(alloc);
        left.push(String::new(alloc))?;
        Ok(Folder {
            alloc,
            whole,
            shown,
            left,
            files: Vec::new(alloc),
            is_package: false,
            unread: Vec::new(alloc),
        })
    }

    /// Goes over a folder below.
    fn meet_folder(
        &mut self,
        orphans: &mut Orphans,
        reached: &Reached,
        path: &str,
        name: &str,
    ) -> Result<(), AllocError> {
        let below = format!(in self.alloc; "{path}/")?;
        let whole = format!(in self.alloc; "{}{below}", self.whole)?;
        match reason_of(name) {
            Some(reason) if !reached.has_below(whole.as_str()) => return orphans.leave_out(reason),
            _ => self.left.push(below)?,
        }
        Ok(())
    }

    /// Goes over what is at a path.
    fn meet_there<R: Files>(
        &mut self,
        rt: &R,
        orphans: &mut Orphans,
        reached: &Reached,
        kind: FileType,
        path: &str,
        name: &str,
    ) -> Result<(), AllocError> {
        if kind.is_dir() {
            return self.meet_folder(orphans, reached, path, name);
        }
        if kind.is_symlink() {
            let whole = format!(in self.alloc; "{}{path}", self.whole)?;
            if is_rust(name.as_bytes()) || leads_to_folder(rt, whole.as_str()) {
                orphans.leave_out(LeftOut::Link)?;
            }
        } else if is_rust(name.as_bytes()) {
            self.files.push(String::from_str(self.alloc, path)?)?;
        }
        Ok(())
    }

    /// Goes over a name that is no text: no module has such a file, and no such folder can be listed.
    fn meet_odd(
        &mut self,
        orphans: &mut Orphans,
        below: &str,
        name: &[u8],
    ) -> Result<(), AllocError> {
        if is_rust(name) {
            let shown = shown_name(self.alloc, name)?;
            orphans.add(format!(in self.alloc; "{}{below}{shown}", self.shown)?)
        } else {
            orphans.leave_out(LeftOut::OddName)
        }
    }

    /// Goes over a name in a folder below.
    fn meet<R: Files>(
        &mut self,
        rt: &R,
        orphans: &mut Orphans,
        reached: &Reached,
        below: &str,
        name: &[u8],
    ) -> Result<(), AllocError> {
        if name == b".".as_slice() || name == b"..".as_slice() {
            return Ok(());
        }
        let Ok(text) = std::str::from_utf8(name) else {
            return self.meet_odd(orphans, below, name);
        };
        let path = format!(in self.alloc; "{below}{text}")?;
        let whole = format!(in self.alloc; "{}{path}", self.whole)?;
        match symlink_metadata(rt, whole.as_str()) {
            Ok(metadata) => {
                let kind = metadata.file_type();
                self.meet_there(rt, orphans, reached, kind, path.as_str(), text)
            }
            Err(_error) => self.complain(path.as_str()),
        }
    }

    /// Complains of what could not be looked at.
    fn complain(&mut self, path: &str) -> Result<(), AllocError> {
        let told = format!(in self.alloc;
            "{}{path}: cannot be listed: change who may read it",
            self.shown
        )?;
        self.unread.push(told)?;
        Ok(())
    }

    /// Goes over the names in a folder below, unless that is another package's.
    fn meet_all<R: Files>(
        &mut self,
        rt: &R,
        orphans: &mut Orphans,
        reached: &Reached,
        below: &str,
        names: &[Vec<u8>],
    ) -> Result<(), AllocError> {
        let is_package = has_name(names, b"Cargo.toml");
        if below.is_empty() {
            self.is_package = is_package;
        } else if is_package {
            return orphans.leave_out(LeftOut::Package);
        }
        for name in names {
            self.meet(rt, orphans, reached, below, name.as_slice())?;
        }
        Ok(())
    }

    /// Lists it, and all folders below.
    pub(crate) fn list<R: Files + AllocGlobal>(
        &mut self,
        rt: &R,
        orphans: &mut Orphans,
        reached: &Reached,
    ) -> Result<(), AllocError> {
        for _folder in 0..u64::MAX {
            let Some(below) = self.left.pop() else {
                break;
            };
            let whole = format!(in self.alloc; "{}{below}", self.whole)?;
            match names_in(rt, whole.as_str()) {
                Ok(names) => {
                    self.meet_all(rt, orphans, reached, below.as_str(), names.as_slice())?;
                }
                Err(_error) => self.complain(below.as_str())?,
            }
        }
        Ok(())
    }
}
