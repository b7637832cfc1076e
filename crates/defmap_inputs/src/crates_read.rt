//! The crates that a command line names, with what was read of them.
use crate::arguments::{Arguments, Question, Wish};
use crate::complaints::Complaints;
use crate::failure::Failure;
use crate::fixture::read_fixture;
use crate::graph::ordered_graph;
use crate::inputs::{Inputs, read_inputs};
use crate::orphans::{Orphans, asked_orphans};
use crate::plan::CratePlan;
use crate_items::files::crate_graph::CrateGraph;
use crate_items::files::file_table::FileTable;
use dm_base::ids::Crate;
use std::alloc::{AllocError, Global};
use std::rt::{Clock, Files};

/// Crates whose files were read.
#[derive(Drop)]
pub struct CratesRead {
    pub graph: CrateGraph,
    pub files: FileTable,
    /// The name of each crate of the graph.
    pub names: Vec<String>,
    /// What could not be read.
    pub complaints: Complaints,
    /// The crate that is asked about; none where all are.
    pub asked: Option<Crate>,
    /// The files that nothing reaches, where these are asked for.
    pub orphans: Orphans,
}

/// The names of the crates of a graph.
fn names_of(
    alloc: Global,
    plans: &[CratePlan],
    plans_of: &[usize],
) -> Result<Vec<String>, AllocError> {
    let mut names = Vec::new(alloc);
    for number in plans_of {
        if let Some(plan) = plans.get(*number) {
            names.push(plan.name.clone()?)?;
        }
    }
    Ok(names)
}

/// The crate of a fixture in which a path is resolved: the one named `main`, or the last.
fn main_or_last(names: &[String]) -> Crate {
    let mut found = Crate(0);
    for (number, name) in names.iter().enumerate() {
        found = Crate(u32::try_from(number).unwrap_or(u32::MAX));
        if name.as_str() == "main" {
            return found;
        }
    }
    found
}

/// The crate that is asked about; none where all are.
fn asked_of(given: &Arguments<'_>, names: &[String]) -> Option<Crate> {
    match (given.fixture, given.wish) {
        (None, _) => Some(Crate(0)),
        (Some(_path), Wish::OfCrates(Question::Resolve { .. })) => Some(main_or_last(names)),
        (Some(_path), _) => None,
    }
}

/// The graph of what was read, with the files and the names, and which crate is asked about.
fn in_graph(
    alloc: Global,
    inputs: Inputs,
    given: &Arguments<'_>,
    orphans: Orphans,
) -> Result<CratesRead, AllocError> {
    let Inputs {
        cfgs,
        mut plans,
        loader,
        roots,
        targets: _targets,
    } = inputs;
    let (files, mut complaints) = loader.into_parts();
    let made = ordered_graph(
        alloc,
        cfgs.as_str(),
        &mut plans,
        roots.as_slice(),
        &mut complaints,
    )?;
    let names = names_of(alloc, plans.as_slice(), made.plans_of.as_slice())?;
    Ok(CratesRead {
        graph: made.into_graph(),
        files,
        asked: asked_of(given, names.as_slice()),
        names,
        complaints,
        orphans,
    })
}

/// Reads all that the command line names. Fails where the root of the crate that is asked about is
/// not read, or a fixture, where a word of the command line or a file says nothing that it may say,
/// and where memory runs out. What else is not read is complained of.
pub fn read_crates<R: Files + Input + AllocGlobal + Clock + Eprint>(
    rt: &R,
    given: &Arguments<'_>,
) -> Result<CratesRead, Failure> {
    let mut inputs = match given.fixture {
        None => read_inputs(rt, given)?,
        Some(path) => read_fixture(rt, path)?,
    };
    let orphans = asked_orphans(rt, given, &mut inputs)?;
    Ok(in_graph(rt.alloc(), inputs, given, orphans)?)
}
