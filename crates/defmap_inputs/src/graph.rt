//! The crate graph of some plans.
use crate::cfg_file::options_of;
use crate::complaints::Complaints;
use crate::plan::CratePlan;
use crate_items::files::crate_data::CrateData;
use crate_items::files::crate_graph::CrateGraph;
use crate_items::files::crate_order::OrderFault;
use crate_items::files::dependency::Dependency;
use dm_base::ids::{Crate, FileId};
use dm_base::name::Name;
use std::alloc::{AllocError, Global};
use std::fmt::Write;

/// A graph, and the number in it of each plan whose root was read.
pub(crate) struct PlannedGraph {
    pub(crate) graph: CrateGraph,
    pub(crate) numbers: Vec<Option<Crate>>,
    /// The plan of each crate of the graph.
    pub(crate) plans_of: Vec<usize>,
}

/// Hand-written `Drop`, to keep proofs small: dropping one is then a single call.
impl Drop for PlannedGraph {
    fn drop(self) {
        let PlannedGraph {
            graph: _graph,
            numbers: _numbers,
            plans_of: _plans_of,
        } = self;
    }
}

impl PlannedGraph {
    /// The graph alone.
    pub(crate) fn into_graph(self) -> CrateGraph {
        let PlannedGraph {
            graph,
            numbers: _numbers,
            plans_of: _plans_of,
        } = self;
        graph
    }
}

fn number_of(numbers: &[Option<Crate>], plan: usize) -> Option<Crate> {
    numbers.get(plan).copied().flatten()
}

/// Adds what a crate depends on, of what is in the graph.
fn add_dependencies(
    graph: &mut CrateGraph,
    alloc: Global,
    numbers: &[Option<Crate>],
    number: usize,
    plan: &CratePlan,
) -> Result<(), AllocError> {
    let Some(from) = number_of(numbers, number) else {
        return Ok(());
    };
    for planned in &plan.dependencies {
        let Some(crate_id) = number_of(numbers, planned.krate) else {
            continue;
        };
        let dependency = Dependency {
            crate_id,
            name: Name::new(alloc, planned.name.as_str())?,
            prelude: planned.prelude,
        };
        if graph.contains(from) && graph.contains(crate_id) {
            graph.add_dep(from, dependency)?;
        }
    }
    Ok(())
}

/// Adds the crate of a plan, where its root was read.
fn add_crate(
    made: &mut PlannedGraph,
    alloc: Global,
    cfgs: &str,
    plan: &CratePlan,
    number: usize,
    root: Option<FileId>,
) -> Result<(), AllocError> {
    let Some(root) = root else {
        made.numbers.push(None)?;
        return Ok(());
    };
    let options = options_of(alloc, cfgs, plan.cfgs.as_str())?;
    let added = CrateData::new(
        root,
        plan.edition,
        options,
        plan.is_proc_macro,
        Vec::new(alloc),
    );
    if made.graph.knows(&added) {
        let id = made.graph.add_crate(added)?;
        made.numbers.push(Some(id))?;
        made.plans_of.push(number)?;
    }
    Ok(())
}

/// The graph of plans whose roots have these files.
pub(crate) fn graph_of(
    alloc: Global,
    cfgs: &str,
    plans: &[CratePlan],
    roots: &[Option<FileId>],
) -> Result<PlannedGraph, AllocError> {
    let mut made = PlannedGraph {
        graph: CrateGraph::new(alloc),
        numbers: Vec::new(alloc),
        plans_of: Vec::new(alloc),
    };
    for (number, plan) in plans.iter().enumerate() {
        let root = roots.get(number).copied().flatten();
        add_crate(&mut made, alloc, cfgs, plan, number, root)?;
    }
    for (number, plan) in plans.iter().enumerate() {
        let numbers = made.numbers.as_slice();
        add_dependencies(&mut made.graph, alloc, numbers, number, plan)?;
    }
    Ok(made)
}

/// The plan of a crate of a graph, by its number among some plans; no such number where it has none.
fn plan_of(plans_of: &[usize], krate: Crate) -> usize {
    plans_of
        .get(krate.0 as usize)
        .copied()
        .unwrap_or(usize::MAX)
}

/// The name of the crate of a number in a graph.
fn name_in<'a>(plans: &'a [CratePlan], plans_of: &[usize], krate: Crate) -> &'a str {
    match plans.get(plan_of(plans_of, krate)) {
        None => "?",
        Some(plan) => plan.name.as_str(),
    }
}

/// A line that names the crates of a circle.
fn circle_line(
    alloc: Global,
    plans: &[CratePlan],
    plans_of: &[usize],
    circle: &[Crate],
) -> Result<String, AllocError> {
    let mut line = String::from_str(alloc, "crates depend on each other in a circle: ")?;
    for krate in circle {
        write!(line, "{} on ", name_in(plans, plans_of, *krate))?;
    }
    let first = match circle.first() {
        None => "",
        Some(first) => name_in(plans, plans_of, *first),
    };
    write!(
        line,
        "{first}: take one of these dependencies away (the last was left out)"
    )?;
    Ok(line)
}

/// Complains of a circle, and takes away the dependency that closes it.
fn complain_of(
    alloc: Global,
    plans: &mut [CratePlan],
    plans_of: &[usize],
    circle: &[Crate],
    complaints: &mut Complaints,
) -> Result<(), AllocError> {
    complaints.add(circle_line(alloc, plans, plans_of, circle)?)?;
    let (Some(first), Some(last)) = (circle.first(), circle.last()) else {
        return Ok(());
    };
    if let Some(plan) = plans.get_mut(plan_of(plans_of, *last)) {
        plan.forget(plan_of(plans_of, *first));
    }
    Ok(())
}

/// How many dependencies the plans have.
fn dependency_count(plans: &[CratePlan]) -> usize {
    let mut count = 0usize;
    for plan in plans {
        count = count.saturating_add(plan.dependencies.len());
    }
    count
}

/// The graph of plans, without the dependencies that close circles, which are complained of.
pub(crate) fn ordered_graph(
    alloc: Global,
    cfgs: &str,
    plans: &mut Vec<CratePlan>,
    roots: &[Option<FileId>],
    complaints: &mut Complaints,
) -> Result<PlannedGraph, AllocError> {
    for _dependency in 0..dependency_count(plans.as_slice()) {
        let made = graph_of(alloc, cfgs, plans.as_slice(), roots)?;
        match made.graph.crates_in_topological_order(alloc) {
            Ok(_order) => return Ok(made),
            Err(OrderFault::OutOfMemory) => return Err(AllocError),
            Err(OrderFault::Cycle(circle)) => complain_of(
                alloc,
                plans.as_mut_slice(),
                made.plans_of.as_slice(),
                circle.as_slice(),
                complaints,
            )?,
        }
    }
    graph_of(alloc, cfgs, plans.as_slice(), roots)
}
