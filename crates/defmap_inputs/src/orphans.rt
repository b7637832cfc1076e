//! The files of Rust below the folder of a crate's root that nothing reaches.
ghost use Rattle.std.specs.Prelude.{◌≡◌, map};
ghost use Rattle.std.specs.String.{string_bytes};

use crate::arguments::{Arguments, Question, Wish};
use crate::failure::{Failure, Status};
use crate::folders::Folder;
use crate::inputs::Inputs;
use crate::plan::CratePlan;
use crate::reached::{By, Reached};
use crate::reading::whole_path;
use crate_items::files::file_table::FileTable;
use dm_base::ids::FileId;
use std::alloc::{AllocError, Global};
use std::marker::Model;
use std::rt::Files;

/// Why a file or a folder is left out.
#[derive(Clone, Copy, PartialEq, Eq, Debug)]
pub enum LeftOut {
    /// A folder whose name begins with a dot.
    Hidden,
    /// A folder `target`.
    Target,
    /// A folder with a manifest of its own.
    Package,
    /// A link to a file of Rust, or to a folder.
    Link,
    /// A name that is no UTF-8, and may be a folder's.
    OddName,
    /// A file that another target of the package reaches.
    OtherTarget,
    /// A file that words name which `cfg` takes away, that stand in a macro call, or that include it.
    Named,
}

/// The files that nothing reaches, and what was left out.
pub struct Orphans {
    files: Vec<String>,
    left_out: Vec<LeftOut>,
}

/// A hand-written `Drop`, to keep proofs small: what drops one has one call to prove.
impl Drop for Orphans {
    fn drop(self) {
        let Orphans {
            files: _files,
            left_out: _left_out,
        } = self;
    }
}

impl Model for Orphans {
    ghost use Rattle.std.specs.Prelude.{map};
    ghost use Rattle.std.specs.String.{string_bytes};
    ghost use Rattle.defmap_inputs.specs.Orphans.{Found};

    ghost Value = { Found };

    ghost view = { λ o. record {
      files = map string_bytes o.files.items;
      left_out = o.left_out.items;
    } };
}

impl Orphans {
    pub(crate) fn none(alloc: Global) -> Orphans {
        Orphans {
            files: Vec::new(alloc),
            left_out: Vec::new(alloc),
        }
    }

    /// The files, by their paths.
    pub fn files(&self) -> &[String]
        ensures { map string_bytes result.now ≡ self.now.files }
    {
        self.files.as_slice()
    }

    /// The reason of each file and folder that was left out.
    pub fn left_out(&self) -> &[LeftOut]
        ensures { result.now ≡ self.now.left_out }
    {
        self.left_out.as_slice()
    }

    pub(crate) fn add(&mut self, path: String) -> Result<(), AllocError> {
        self.files.push(path)?;
        Ok(())
    }

    pub(crate) fn leave_out(&mut self, reason: LeftOut) -> Result<(), AllocError> {
        self.left_out.push(reason)?;
        Ok(())
    }

    /// Adds a listed file, by what reaches it.
    fn judge(&mut self, by: Option<By>, path: String) -> Result<(), AllocError> {
        match by {
            None => self.add(path),
            Some(By::Crates) => Ok(()),
            Some(By::Targets) => self.leave_out(LeftOut::OtherTarget),
            Some(By::Words) => self.leave_out(LeftOut::Named),
        }
    }
}

/// The folder of a file, by its path; it ends in a slash, or is empty.
fn folder_of(path: &str) -> &str {
    match path.rfind('/') {
        None => "",
        Some(slash) => path.get(..=slash).unwrap_or(""),
    }
}

/// The path of a folder without links; it ends in a slash.
fn whole_folder<R: Files + AllocGlobal>(rt: &R, folder: &str) -> Result<String, AllocError> {
    let mut whole = whole_path(rt, if folder.is_empty() { "." } else { folder })?;
    if !whole.as_str().ends_with('/') {
        whole.push('/')?;
    }
    Ok(whole)
}

/// Adds the files that the crates reach.
fn add_files<R: Files + AllocGlobal>(
    rt: &R,
    reached: &mut Reached,
    files: &FileTable,
) -> Result<(), AllocError> {
    for number in 0..u32::try_from(files.len()).unwrap_or(u32::MAX) {
        let file = FileId(number);
        if files.contains(file) {
            if let Ok(path) = std::str::from_utf8(files.path(file)) {
                reached.add(rt, path, By::Crates)?;
            }
        }
    }
    Ok(())
}

/// Whether cargo takes a file for the root of a target, by its path from the folder of another one: of a package's own
/// folder that of tests, examples, benchmarks and a build script, too.
fn is_target(path: &str, is_package: bool) -> bool {
    match path.split_once('/') {
        None => path == "lib.rs" || path == "main.rs" || (is_package && path == "build.rs"),
        Some((folder, below)) => {
            let has_targets = match folder {
                "bin" => true,
                "tests" | "examples" | "benches" => is_package,
                _ => false,
            };
            has_targets && (!below.contains('/') || is_main(below))
        }
    }
}

/// Whether a path is that of `main.rs` in a folder.
fn is_main(path: &str) -> bool {
    match path.split_once('/') {
        None => false,
        Some((_folder, name)) => name == "main.rs",
    }
}

/// Adds what other targets reach that cargo finds by their names.
fn follow_found<R: Files + AllocGlobal>(
    rt: &R,
    reached: &mut Reached,
    folder: &Folder,
    own: &CratePlan,
    limit: u32,
) -> Result<(), AllocError> {
    let alloc = rt.alloc();
    for path in &folder.files {
        let whole = format!(in alloc; "{}{path}", folder.whole)?;
        if reached.by(&whole).is_none() && is_target(path.as_str(), folder.is_package) {
            let root = format!(in alloc; "{}{path}", folder.shown)?;
            reached.follow(rt, root.as_str(), own.edition, limit, By::Targets)?;
        }
    }
    Ok(())
}

/// Adds what the targets reach that the metadata names, but for the one of a root.
fn follow_named<R: Files + AllocGlobal>(
    rt: &R,
    reached: &mut Reached,
    targets: &[String],
    own: &CratePlan,
    limit: u32,
) -> Result<(), AllocError> {
    let root = whole_path(rt, own.root.as_str())?;
    for target in targets {
        if target.as_str() != root.as_str() {
            reached.follow(rt, target.as_str(), own.edition, limit, By::Targets)?;
        }
    }
    Ok(())
}

/// Adds what the words of the crates below a folder name.
fn follow_plans<R: Files + AllocGlobal>(
    rt: &R,
    reached: &mut Reached,
    folder: &str,
    plans: &[CratePlan],
    limit: u32,
) -> Result<(), AllocError> {
    for plan in plans {
        let whole = whole_path(rt, plan.root.as_str())?;
        if whole.as_str().starts_with(folder) {
            reached.follow(rt, plan.root.as_str(), plan.edition, limit, By::Words)?;
        }
    }
    Ok(())
}

/// Judges the files that were listed.
fn judge_all(
    alloc: Global,
    orphans: &mut Orphans,
    reached: &Reached,
    folder: &Folder,
) -> Result<(), AllocError> {
    for path in &folder.files {
        let whole = format!(in alloc; "{}{path}", folder.whole)?;
        let shown = format!(in alloc; "{}{path}", folder.shown)?;
        orphans.judge(reached.by(&whole), shown)?;
    }
    orphans.files.sort()
}

/// Complains of the folders that could not be listed.
fn complain(inputs: &mut Inputs, unread: &[String]) -> Result<(), AllocError> {
    for line in unread {
        inputs.loader.complaints.add(line.clone()?)?;
    }
    Ok(())
}

/// The files of Rust below the folder of the root of the first plan that nothing reaches.
fn orphans_of<R: Files + AllocGlobal>(
    rt: &R,
    inputs: &mut Inputs,
    limit: u32,
) -> Result<Orphans, AllocError> {
    let alloc = rt.alloc();
    let mut orphans = Orphans::none(alloc);
    let Some(own) = inputs.plans.first() else {
        return Ok(orphans);
    };
    let shown = folder_of(own.root.as_str());
    let whole = whole_folder(rt, shown)?;
    let mut reached = Reached::new(alloc);
    add_files(rt, &mut reached, &inputs.loader.files)?;
    follow_named(rt, &mut reached, inputs.targets.as_slice(), own, limit)?;
    let mut folder = Folder::new(alloc, whole, String::from_str(alloc, shown)?)?;
    folder.list(rt, &mut orphans, &reached)?;
    if inputs.targets.is_empty() {
        follow_found(rt, &mut reached, &folder, own, limit)?;
    }
    let plans = inputs.plans.as_slice();
    follow_plans(rt, &mut reached, folder.whole.as_str(), plans, limit)?;
    judge_all(alloc, &mut orphans, &reached, &folder)?;
    complain(inputs, folder.unread.as_slice())?;
    Ok(orphans)
}

/// Refuses a root that is in no folder.
fn no_folder<T>(alloc: Global, what: &str) -> Result<T, Failure> {
    let told = format!(in alloc; "{what} is in no folder: give the file of a crate's root")?;
    Err(Failure::Told(Status::Misused, told))
}

/// The files that nothing reaches, where these are asked for.
pub(crate) fn asked_orphans<R: Files + AllocGlobal>(
    rt: &R,
    given: &Arguments<'_>,
    inputs: &mut Inputs,
) -> Result<Orphans, Failure> {
    let alloc = rt.alloc();
    match given.wish {
        Wish::OfCrates(Question::Orphans) => {}
        _ => return Ok(Orphans::none(alloc)),
    }
    if given.fixture.is_some() {
        return no_folder(alloc, "a fixture");
    }
    if given.root == "-" && given.package.is_none() {
        return no_folder(alloc, "standard input");
    }
    Ok(orphans_of(rt, inputs, given.limit)?)
}
