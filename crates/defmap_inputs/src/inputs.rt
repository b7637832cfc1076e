//! What is read before anything is collected: options, plans of crates, and their files.
use crate::arguments::Arguments;
use crate::cfg_file::{LINUX, cfg_line, first_fault, options_of};
use crate::complaints::Complaints;
use crate::extern_crates::planned;
use crate::failure::{Failure, Status};
use crate::loader::{Loader, Manner};
use crate::metadata::{Planned, planned_by};
use crate::plan::CratePlan;
use crate::progress::Progress;
use crate::reading::{FileText, INPUT, input_text, needed_text, unread_line};
use crate::sysroot::{add_sysroot, library_folder};
use dm_base::ids::FileId;
use std::alloc::{AllocError, Global};
use std::rt::{Clock, Files};

/// Crates whose files were read.
#[derive(Drop)]
pub(crate) struct Inputs {
    /// The options of all crates, as lines.
    pub(crate) cfgs: String,
    pub(crate) plans: Vec<CratePlan>,
    pub(crate) loader: Loader,
    /// The file of the root of each plan.
    pub(crate) roots: Vec<Option<FileId>>,
    /// The roots of the targets of the package that is asked about, if that is known.
    pub(crate) targets: Vec<String>,
}

/// The lines of a file of options.
fn file_cfgs<R: Files + AllocGlobal>(rt: &R, path: &str) -> Result<String, Failure> {
    let text = needed_text(rt, path)?;
    match first_fault(text.as_str()) {
        None => Ok(text),
        Some((number, line)) => {
            let alloc = rt.alloc();
            let told = format!(in alloc;
                "{path}:{number}: no option {line}: give NAME or NAME=\"VALUE\""
            )?;
            Err(Failure::Told(Status::Unreadable, told))
        }
    }
}

/// The lines of the options of all crates.
fn shared_cfgs<R: Files + AllocGlobal>(rt: &R, given: &Arguments<'_>) -> Result<String, Failure> {
    match given.cfg_file {
        None => Ok(String::from_str(rt.alloc(), LINUX)?),
        Some(path) => file_cfgs(rt, path),
    }
}

/// Adds the options that are given to those of the crate that is asked about.
fn add_cfgs(alloc: Global, own: &mut CratePlan, given: &Arguments<'_>) -> Result<(), Failure> {
    for word in &given.cfgs {
        if cfg_line(*word).is_none() {
            let told = format!(in alloc;
                "no option {word}: give --cfg NAME or --cfg NAME=\"VALUE\""
            )?;
            return Err(Failure::Told(Status::Misused, told));
        }
        own.set(*word)?;
    }
    Ok(())
}

fn misused(alloc: Global, line: &str) -> Result<(), Failure> {
    Err(Failure::Told(Status::Misused, String::from_str(alloc, line)?))
}

/// Refuses a target of no package, and the standard input twice.
fn look_at_words(alloc: Global, given: &Arguments<'_>) -> Result<(), Failure> {
    if given.package.is_some() {
        return Ok(());
    }
    if given.target.is_some() {
        return misused(
            alloc,
            "--target-name is a target of a package: give it with --package",
        );
    }
    if given.root == "-" && given.metadata == Some("-") {
        return misused(
            alloc,
            "standard input is read once: give the root or the metadata by a file",
        );
    }
    Ok(())
}

/// Refuses a manifest in place of a root.
fn look_at_root(alloc: Global, given: &Arguments<'_>) -> Result<(), Failure> {
    if given.root.ends_with(".toml") && given.package.is_none() {
        let root = given.root;
        let told = format!(in alloc;
            "{root}: no root of a crate: give the file that rustc is given, as src/lib.rs, or a package \
by --metadata FILE --package NAME"
        )?;
        return Err(Failure::Told(Status::Misused, told));
    }
    Ok(())
}

/// What is planned by the root, or by the metadata.
fn first_plans<R: Files + Input + AllocGlobal>(
    rt: &R,
    given: &Arguments<'_>,
    cfgs: &str,
) -> Result<Planned, Failure> {
    match given.metadata {
        None => Ok(Planned {
            plans: planned(rt.alloc(), given)?,
            warning: None,
            targets: Vec::new(rt.alloc()),
        }),
        Some(path) => planned_by(rt, given, path, cfgs),
    }
}

/// The plans of all crates, that of the crate that is asked about first.
fn plans_of<R: Files + Input + AllocGlobal>(
    rt: &R,
    given: &Arguments<'_>,
    cfgs: &str,
) -> Result<Planned, Failure> {
    let alloc = rt.alloc();
    look_at_words(alloc, given)?;
    look_at_root(alloc, given)?;
    let mut planned = first_plans(rt, given, cfgs)?;
    if let Some(own) = planned.plans.first_mut() {
        add_cfgs(alloc, own, given)?;
    }
    if let Some(sysroot) = given.sysroot {
        let folder = library_folder(rt, sysroot)?;
        add_sysroot(rt, &mut planned.plans, folder.as_str())?;
    }
    Ok(planned)
}

/// Reads the root of the crate that is asked about from the standard input.
fn read_input<R: Input + AllocGlobal>(
    rt: &R,
    loader: &mut Loader,
) -> Result<Option<FileId>, Failure> {
    let alloc = rt.alloc();
    match input_text(rt) {
        FileText::Text(text) => Ok(loader.add(alloc, INPUT, text)?),
        FileText::Missing => Ok(None),
        FileText::Unreadable(reason) => {
            loader.complaints.add(unread_line(alloc, INPUT, reason)?)?;
            Ok(None)
        }
    }
}

/// Reads the files of a plan's crate. Answers with that of its root.
fn read_plan<R: Files + Input + AllocGlobal + Clock + Eprint>(
    rt: &R,
    loader: &mut Loader,
    plan: &CratePlan,
    cfgs: &str,
    limit: u32,
) -> Result<Option<FileId>, Failure> {
    let alloc = rt.alloc();
    if plan.root.as_str() == "-" {
        return read_input(rt, loader);
    }
    let Some(root) = loader.read_root(rt, plan.root.as_str())? else {
        return Ok(None);
    };
    let options = options_of(alloc, cfgs, plan.cfgs.as_str())?;
    let manner = Manner {
        edition: plan.edition,
        options: &options,
        limit,
    };
    loader.read_modules(rt, root, manner)?;
    Ok(Some(root))
}

/// The failure of the first complaint.
fn first_complaint(alloc: Global, complaints: &Complaints) -> Result<Failure, AllocError> {
    let line = match complaints.lines().first() {
        None => String::from_str(
            alloc,
            "nothing could be read: see whether the root is a file",
        )?,
        Some(line) => line.clone()?,
    };
    Ok(Failure::Told(Status::Unreadable, line))
}

/// Reads the files of all plans' crates. Answers with those of their roots. Fails where the first of these is not read.
fn read_roots<R: Files + Input + AllocGlobal + Clock + Eprint>(
    rt: &R,
    loader: &mut Loader,
    plans: &[CratePlan],
    cfgs: &str,
    limit: u32,
) -> Result<Vec<Option<FileId>>, Failure> {
    let mut roots = Vec::new(rt.alloc());
    for plan in plans {
        let root = read_plan(rt, loader, plan, cfgs, limit)?;
        if root.is_none() && roots.is_empty() {
            return Err(first_complaint(rt.alloc(), &loader.complaints)?);
        }
        roots.push(root)?;
    }
    Ok(roots)
}

/// Reads all that the command line names. Fails where the root of the crate that is asked about is not read.
pub(crate) fn read_inputs<R: Files + Input + AllocGlobal + Clock + Eprint>(
    rt: &R,
    given: &Arguments<'_>,
) -> Result<Inputs, Failure> {
    let cfgs = shared_cfgs(rt, given)?;
    let Planned {
        plans,
        warning,
        targets,
    } = plans_of(rt, given, cfgs.as_str())?;
    let mut loader = Loader::new(rt.alloc());
    loader.progress = Progress::begin(rt, given.shown.has_progress);
    if let Some(line) = warning {
        loader.complaints.warn(line)?;
    }
    let roots = read_roots(
        rt,
        &mut loader,
        plans.as_slice(),
        cfgs.as_str(),
        given.limit,
    );
    loader.progress.end(rt);
    let roots = roots?;
    Ok(Inputs {
        cfgs,
        plans,
        loader,
        roots,
        targets,
    })
}
