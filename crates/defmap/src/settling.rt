//! From what was read to the settled world of the crates.
use crate::settled::{NotSettled, Settled, world_of};
use crate_items::files::crate_graph::CrateGraph;
use crate_items::files::file_table::FileTable;
use crate_tables::crate_filling::Reading;
use defmap_inputs::complaints::Complaints;
use defmap_inputs::crates_read::CratesRead;
use defmap_inputs::failure::{Failure, Status};
use defmap_inputs::orphans::Orphans;
use dm_base::ids::Crate;
use dm_collector::collected::Collected;
use std::alloc::{AllocError, Global};

/// The settled crates, and what could not be read of them.
pub(crate) struct SettledInputs {
    pub(crate) settled: Settled,
    pub(crate) graph: CrateGraph,
    pub(crate) complaints: Complaints,
    pub(crate) orphans: Orphans,
}

/// A hand-written `Drop`, to keep proofs small: what drops one has one call to prove.
impl Drop for SettledInputs {
    fn drop(self) {
        let SettledInputs {
            settled: _settled,
            graph: _graph,
            complaints: _complaints,
            orphans: _orphans,
        } = self;
    }
}

/// Why there is no settled world, in a line.
fn line_of(
    alloc: Global,
    names: &[String],
    limit: u32,
    why: NotSettled,
) -> Result<String, AllocError> {
    match why {
        NotSettled::OutOfMemory => Err(AllocError),
        NotSettled::TooManyModules(krate) => {
            let name = match names.get(krate.0 as usize) {
                None => "?",
                Some(name) => name.as_str(),
            };
            format!(in alloc;
                "the crate {name} has more than {limit} modules: give a greater --limit"
            )
        }
        NotSettled::Unfit => String::from_str(
            alloc,
            "what the crates declare does not fit together: please report this crate",
        ),
    }
}

/// The crates of a graph, collected and settled, or a line that says why they are not.
fn collected_of(
    alloc: Global,
    graph: &CrateGraph,
    reading: &Reading<'_>,
    names: &[String],
) -> Result<(Collected, Vec<usize>), Failure> {
    match world_of(alloc, graph, reading) {
        Ok(settled) => Ok(settled),
        Err(why) => {
            let line = line_of(alloc, names, reading.limit, why)?;
            Err(Failure::Told(Status::Unreadable, line))
        }
    }
}

/// The same, with their files and names.
fn settle_graph(
    alloc: Global,
    graph: &CrateGraph,
    files: FileTable,
    names: Vec<String>,
    asked: Option<Crate>,
    limit: u32,
) -> Result<Settled, Failure> {
    let reading = Reading {
        files: &files,
        limit,
    };
    let collected = collected_of(alloc, graph, &reading, names.as_slice())?;
    let settled = Settled::of_graph(alloc, graph, files, names, collected, asked)?;
    Ok(settled)
}

/// Collects the crates that were read, and settles them.
pub(crate) fn settle_crates(
    alloc: Global,
    crates: CratesRead,
    limit: u32,
) -> Result<SettledInputs, Failure> {
    let CratesRead {
        graph,
        files,
        names,
        complaints,
        asked,
        orphans,
    } = crates;
    let settled = settle_graph(alloc, &graph, files, names, asked, limit)?;
    Ok(SettledInputs {
        settled,
        graph,
        complaints,
        orphans,
    })
}
