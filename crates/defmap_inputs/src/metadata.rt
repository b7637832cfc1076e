//! The plans of crates by what `cargo metadata` prints.
use crate::arguments::{Arguments, edition_of};
use crate::build_messages::{add_built, build_messages};
use crate::cargo_target::{
    CargoTarget, TargetKind, first_target, has_build_script, holds, is_asked, library_of, list_of,
    target_at, target_named, target_roots, text_of,
};
use crate::failure::{Failure, Status};
use crate::plan::CratePlan;
use crate::reading::{given_text, shown_path, whole_path};
use dm_base::source::Edition;
use indexmap::IndexMap;
use serde_json::Value;
use std::alloc::{AllocError, Global};
use std::fmt::Write;
use std::rt::Files;

/// A package, and what was resolved of it.
#[derive(Clone, Copy)]
struct Package<'a> {
    package: &'a Value,
    node: &'a Value,
}

/// The packages of a workspace, by their ids.
struct Workspace<'a> {
    alloc: Global,
    packages: IndexMap<&'a str, Package<'a>>,
    /// The messages about build scripts that ran.
    built: &'a [Value],
    /// The options that dependencies of a platform are tested by.
    cfgs: &'a str,
}

/// A hand-written `Drop`, to keep proofs small: what drops one has one call to prove.
impl<'a> Drop for Workspace<'a> {
    fn drop(self) {
        let Workspace {
            alloc: _alloc,
            packages: _packages,
            built: _built,
            cfgs: _cfgs,
        } = self;
    }
}

/// Plans, and the packages whose dependencies are still to be planned.
#[derive(Drop)]
struct Planning<'a> {
    plans: Vec<CratePlan>,
    /// The plan of the library of each package.
    libraries: IndexMap<&'a str, usize>,
    /// The package of each plan, and its target.
    sources: Vec<(&'a str, CargoTarget<'a>)>,
}

fn failed<T>(line: String) -> Result<T, Failure> {
    Err(Failure::Told(Status::Unreadable, line))
}

/// The packages of the metadata, by their ids.
fn described_in<'a>(
    alloc: Global,
    metadata: &'a Value,
) -> Result<IndexMap<&'a str, &'a Value>, AllocError> {
    let mut described = IndexMap::new(alloc);
    for package in list_of(metadata, "packages") {
        described.insert(text_of(package, "id"), package)?;
    }
    Ok(described)
}

/// Adds the package of what was resolved.
fn add_package<'a>(
    packages: &mut IndexMap<&'a str, Package<'a>>,
    described: &IndexMap<&'a str, &'a Value>,
    node: &'a Value,
) -> Result<(), AllocError> {
    let id = text_of(node, "id");
    if let Some(package) = described.get(&id) {
        let package = *package;
        packages.insert(id, Package { package, node })?;
    }
    Ok(())
}

/// The packages of the metadata, each with what was resolved of it.
fn packages_of<'a>(
    alloc: Global,
    metadata: &'a Value,
) -> Result<IndexMap<&'a str, Package<'a>>, AllocError> {
    let described = described_in(alloc, metadata)?;
    let mut packages = IndexMap::new(alloc);
    if let Some(resolved) = metadata.get("resolve") {
        for node in list_of(resolved, "nodes") {
            add_package(&mut packages, &described, node)?;
        }
    }
    Ok(packages)
}

/// Whether a package has a name, or a name, `@` and a version.
fn is_named(package: &Value, word: &str) -> bool {
    match word.split_once('@') {
        None => text_of(package, "name") == word,
        Some((name, version)) => {
            text_of(package, "name") == name && text_of(package, "version") == version
        }
    }
}

impl<'a> Workspace<'a> {
    /// The package and the target whose root is at a path.
    fn asked(&self, path: &str) -> Option<(&'a str, CargoTarget<'a>)> {
        for (id, package) in self.packages.iter() {
            if let Some(target) = target_at(package.package, path) {
                return Some((*id, target));
            }
        }
        None
    }

    /// The package of a name, or of a name, `@` and a version; of several the first, and whether there are more.
    fn named(&self, word: &str) -> (Option<(&'a str, Package<'a>)>, bool) {
        let mut found = None;
        for (id, package) in self.packages.iter() {
            if is_named(package.package, word) {
                if found.is_some() {
                    return (found, true);
                }
                found = Some((*id, *package));
            }
        }
        (found, false)
    }

    /// The plan of a target.
    fn made_plan(
        &self,
        id: &'a str,
        target: CargoTarget<'a>,
        root: &str,
        edition: Edition,
    ) -> Result<CratePlan, AllocError> {
        let mut plan = CratePlan::new(self.alloc, target.name, root, edition)?;
        plan.is_proc_macro = target.is_proc_macro();
        if let Some(package) = self.packages.get(&id) {
            for feature in list_of(package.node, "features") {
                plan.enable(feature.as_str().unwrap_or(""))?;
            }
        }
        if target.kind != TargetKind::BuildScript {
            add_built(&mut plan, self.built, id)?;
        }
        if target.is_test() {
            plan.set("test")?;
        }
        Ok(plan)
    }

    /// Adds the plan of a target.
    fn add_plan(
        &self,
        planning: &mut Planning<'a>,
        id: &'a str,
        target: CargoTarget<'a>,
        root: &str,
        edition: Edition,
    ) -> Result<usize, AllocError> {
        let number = planning.plans.len();
        planning
            .plans
            .push(self.made_plan(id, target, root, edition)?)?;
        planning.sources.push((id, target))?;
        if target.is_library() {
            planning.libraries.insert(id, number)?;
        }
        Ok(number)
    }

    /// The plan of the library of a package. None where it has none.
    fn library_plan(
        &self,
        planning: &mut Planning<'a>,
        id: &'a str,
    ) -> Result<Option<usize>, AllocError> {
        if let Some(number) = planning.libraries.get(&id) {
            return Ok(Some(*number));
        }
        let Some(package) = self.packages.get(&id) else {
            return Ok(None);
        };
        let Some(target) = library_of(package.package) else {
            return Ok(None);
        };
        let number = self.add_plan(planning, id, target, target.root, target.edition)?;
        Ok(Some(number))
    }

    /// Adds what the plan of a number depends on by one entry of its package.
    fn add_entry(
        &self,
        planning: &mut Planning<'a>,
        number: usize,
        name: &str,
        id: &'a str,
    ) -> Result<(), AllocError> {
        let Some(used) = self.library_plan(planning, id)? else {
            return Ok(());
        };
        match planning.plans.get_mut(number) {
            None => Ok(()),
            Some(plan) => plan.depend(self.alloc, name, used, true),
        }
    }

    /// Whether an entry counts for a target.
    fn counts(&self, target: CargoTarget<'a>, entry: &Value) -> Result<bool, AllocError> {
        let kinds = list_of(entry, "dep_kinds");
        if kinds.is_empty() {
            return Ok(true);
        }
        for kind in kinds {
            let is_for = is_asked(target, kind.get("kind").and_then(Value::as_str));
            let platform = kind.get("target").and_then(Value::as_str);
            if is_for && holds(self.alloc, self.cfgs, platform)? {
                return Ok(true);
            }
        }
        Ok(false)
    }

    /// Adds all that the plan of a number depends on.
    fn add_entries(&self, planning: &mut Planning<'a>, number: usize) -> Result<(), AllocError> {
        let Some((id, target)) = planning.sources.get(number).copied() else {
            return Ok(());
        };
        let Some(package) = self.packages.get(&id) else {
            return Ok(());
        };
        if target.knows_library() {
            if let Some(library) = library_of(package.package) {
                self.add_entry(planning, number, library.name, id)?;
            }
        }
        for entry in list_of(package.node, "deps") {
            if self.counts(target, entry)? {
                self.add_entry(
                    planning,
                    number,
                    text_of(entry, "name"),
                    text_of(entry, "pkg"),
                )?;
            }
        }
        Ok(())
    }
}

/// What is planned of the crate that is asked about.
#[derive(Drop)]
pub(crate) struct Planned {
    pub(crate) plans: Vec<CratePlan>,
    /// What is not known of it.
    pub(crate) warning: Option<String>,
    /// The roots of the targets of its package, if that is known.
    pub(crate) targets: Vec<String>,
}

/// What is told where packages have build scripts whose options are not given.
fn build_scripts(
    alloc: Global,
    workspace: &Workspace<'_>,
    sources: &[(&str, CargoTarget<'_>)],
) -> Result<Option<String>, AllocError> {
    let mut names = String::new(alloc);
    for (id, _target) in sources {
        if let Some(package) = workspace.packages.get(id) {
            if has_build_script(package.package) {
                push_word(&mut names, text_of(package.package, "name"))?;
            }
        }
    }
    if names.is_empty() {
        return Ok(None);
    }
    let told = format!(in alloc;
        "no options of build scripts are known, as of {names}: give what \
`cargo check --message-format json` prints by --build"
    )?;
    Ok(Some(told))
}

/// The plans of the crate of a root and of all that it depends on.
fn plans_in<'a>(
    workspace: &Workspace<'a>,
    given: &Arguments<'_>,
    root: &str,
    id: &'a str,
    target: CargoTarget<'a>,
) -> Result<Planned, AllocError> {
    let alloc = workspace.alloc;
    let mut planning = Planning {
        plans: Vec::new(alloc),
        libraries: IndexMap::new(alloc),
        sources: Vec::new(alloc),
    };
    let edition = given.edition.unwrap_or(target.edition);
    workspace.add_plan(&mut planning, id, target, root, edition)?;
    for number in 0..usize::MAX {
        if number >= planning.plans.len() {
            break;
        }
        workspace.add_entries(&mut planning, number)?;
    }
    let Planning {
        plans,
        libraries: _libraries,
        sources,
    } = planning;
    let warning = if given.build.is_none() {
        build_scripts(alloc, workspace, sources.as_slice())?
    } else {
        None
    };
    let targets = match workspace.packages.get(&id) {
        None => Vec::new(alloc),
        Some(package) => target_roots(alloc, package.package)?,
    };
    Ok(Planned {
        plans,
        warning,
        targets,
    })
}

fn no_metadata<T>(alloc: Global, path: &str) -> Result<T, Failure> {
    failed(format!(in alloc;
        "{path}: no metadata: give what `cargo metadata --format-version 1` prints"
    )?)
}

fn no_resolved<T>(alloc: Global, path: &str) -> Result<T, Failure> {
    failed(format!(in alloc;
        "{path}: it says not what depends on what: give what `cargo metadata --format-version 1` prints, \
without --no-deps"
    )?)
}

/// The metadata in a file, or in the standard input.
fn metadata_at<R: Files + Input + AllocGlobal>(rt: &R, path: &str) -> Result<Value, Failure> {
    let alloc = rt.alloc();
    let text = given_text(rt, path)?;
    match Value::from_str(alloc, text.as_str()) {
        Ok(metadata) if metadata.get("packages").is_some() => {
            match metadata.get("resolve") {
                Some(resolved) if !resolved.is_null() => Ok(metadata),
                _ => no_resolved(alloc, shown_path(path)),
            }
        }
        Ok(_) | Err(_) => no_metadata(alloc, shown_path(path)),
    }
}

fn no_target<T>(alloc: Global, path: &str, root: &str) -> Result<T, Failure> {
    failed(format!(in alloc;
        "{path}: no target has the root {root}: give the metadata of its package, or the root of a target"
    )?)
}

/// Adds a word to others, with a comma between.
fn push_word(words: &mut String, word: &str) -> Result<(), AllocError> {
    let between = if words.is_empty() { "" } else { ", " };
    write!(words, "{between}{word}")
}

/// The names of packages.
fn names_in(alloc: Global, packages: &[Value]) -> Result<String, AllocError> {
    let mut names = String::new(alloc);
    for package in packages {
        push_word(&mut names, text_of(package, "name"))?;
    }
    Ok(names)
}

/// The kinds and names of targets.
fn targets_in(alloc: Global, targets: &[Value]) -> Result<String, AllocError> {
    let mut words = String::new(alloc);
    for target in targets {
        let kind = list_of(target, "kind").first().and_then(Value::as_str);
        let word = format!(in alloc; "{}:{}", kind.unwrap_or(""), text_of(target, "name"))?;
        push_word(&mut words, word.as_str())?;
    }
    Ok(words)
}

/// The target that is asked for of a package.
fn target_asked<'a>(
    alloc: Global,
    given: &Arguments<'_>,
    word: &str,
    package: &'a Value,
) -> Result<CargoTarget<'a>, Failure> {
    let found = match given.target {
        None => first_target(package),
        Some(name) => target_named(package, name),
    };
    match found {
        Some(target) => Ok(target),
        None => {
            let wanted = given.target.unwrap_or("at all");
            let words = targets_in(alloc, list_of(package, "targets"))?;
            failed(format!(in alloc; "package {word} has no target {wanted}: it has {words}")?)
        }
    }
}

/// The plans of the target of a package that is asked for by its name.
fn planned_package(
    alloc: Global,
    given: &Arguments<'_>,
    word: &str,
    metadata: &Value,
    workspace: &Workspace<'_>,
) -> Result<Planned, Failure> {
    match workspace.named(word) {
        (Some((id, package)), false) => {
            let target = target_asked(alloc, given, word, package.package)?;
            Ok(plans_in(workspace, given, target.root, id, target)?)
        }
        (Some((_id, package)), true) => {
            let version = text_of(package.package, "version");
            failed(format!(in alloc; "several packages {word}: give one as {word}@{version}")?)
        }
        (None, _) => {
            let names = names_in(alloc, list_of(metadata, "packages"))?;
            failed(format!(in alloc; "no package {word}: there are {names}")?)
        }
    }
}

/// The plans of the crates that a workspace has of the crate that is asked about. What it was read of has a path.
fn planned_in<R: Files + AllocGlobal>(
    rt: &R,
    given: &Arguments<'_>,
    path: &str,
    metadata: &Value,
    workspace: &Workspace<'_>,
) -> Result<Planned, Failure> {
    let alloc = rt.alloc();
    if let Some(word) = given.package {
        return planned_package(alloc, given, word, metadata, workspace);
    }
    let root = whole_path(rt, given.root)?;
    match workspace.asked(root.as_str()) {
        Some((id, target)) => Ok(plans_in(workspace, given, given.root, id, target)?),
        None => no_target(alloc, path, root.as_str()),
    }
}

/// The same, of metadata and of messages about build scripts.
fn planned_of<R: Files + AllocGlobal>(
    rt: &R,
    given: &Arguments<'_>,
    path: &str,
    metadata: &Value,
    built: &[Value],
    cfgs: &str,
) -> Result<Planned, Failure> {
    let alloc = rt.alloc();
    let workspace = Workspace {
        alloc,
        packages: packages_of(alloc, metadata)?,
        built,
        cfgs,
    };
    planned_in(rt, given, path, metadata, &workspace)
}

/// The same, of the metadata in a file.
pub(crate) fn planned_by<R: Files + Input + AllocGlobal>(
    rt: &R,
    given: &Arguments<'_>,
    path: &str,
    cfgs: &str,
) -> Result<Planned, Failure> {
    let metadata = metadata_at(rt, path)?;
    let built = build_messages(rt, given.build)?;
    planned_of(
        rt,
        given,
        shown_path(path),
        &metadata,
        built.as_slice(),
        cfgs,
    )
}
