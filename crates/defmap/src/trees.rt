//! The modules of the crates that are asked about, crate by crate, and what else is asked of them.
use crate::assocs::push_assocs;
use crate::diagnostics::push_diagnostics;
use crate::lists::push_scope_lists;
use crate::settled::Settled;
use crate::settling::SettledInputs;
use defmap_answers::crates::{asked_crates, crate_name};
use defmap_answers::dot::dot_text;
use defmap_answers::module_paths::module_in;
use defmap_answers::survey::Survey;
use defmap_answers::tree::{TreePart, tree_text};
use defmap_inputs::arguments::TreeForm;
use defmap_inputs::failure::Failure;
use dm_base::ids::Crate;
use dm_maps::world::World;
use dm_maps::world::maps_of::{AskWorld, crate_def_map};
use std::alloc::{AllocError, Global};
use std::fmt::Write;

/// The own dump of the def map of a crate.
fn dump_of(alloc: Global, world: &World, krate: Crate) -> Result<String, AllocError> {
    if world.has_crate(krate) {
        let map = crate_def_map(world, krate);
        map.dump(world)
    } else {
        Ok(String::new(alloc))
    }
}

/// Adds the own dump of the def map of each crate, behind its name.
fn push_dumps(out: &mut String, alloc: Global, settled: &Settled) -> Result<(), AllocError> {
    for krate in &asked_crates(alloc, settled)? {
        write!(out, "# {}\n", crate_name(settled, *krate))?;
        let dump = dump_of(alloc, settled.world(), *krate)?;
        out.push_str(dump.as_str())?;
    }
    Ok(())
}

/// Adds the modules of each crate and which uses which, as a graph.
fn push_graphs(out: &mut String, survey: &Survey<'_, Settled>) -> Result<(), AllocError> {
    for krate in &asked_crates(survey.alloc(), survey.crates())? {
        let graph = dot_text(survey, *krate)?;
        out.push_str(graph.as_str())?;
    }
    Ok(())
}

/// What of a tree is shown.
fn part_of<'a>(form: TreeForm<'a>) -> TreePart<'a> {
    TreePart {
        depth: form.depth,
        kinds: form.kinds,
        only_public: form.only_public,
        has_variants: form.has_variants,
        has_assoc: form.has_assoc,
    }
}

/// Adds the modules of each crate, from the module of a path on, which one of them has to have.
fn push_trees(
    out: &mut String,
    survey: &Survey<'_, Settled>,
    form: TreeForm<'_>,
) -> Result<(), Failure> {
    let (alloc, settled) = (survey.alloc(), survey.crates());
    let mut missing = None;
    let mut is_found = false;
    for krate in &asked_crates(alloc, settled)? {
        match module_in(survey, *krate, form.focus) {
            Ok(m) => {
                is_found = true;
                let modules = tree_text(survey, *krate, m, part_of(form))?;
                out.push_str(modules.as_str())?;
            }
            Err(failure) => missing = Some(failure),
        }
    }
    match missing {
        Some(failure) if !is_found => Err(failure),
        _ => Ok(()),
    }
}

/// Adds what modules hold without a name, and the associated items.
fn push_lists(out: &mut String, alloc: Global, settled: &Settled) -> Result<(), AllocError> {
    push_scope_lists(out, alloc, settled)?;
    push_assocs(out, alloc, settled)
}

/// The modules of the crates, and what is told of them.
pub(crate) fn trees_text(
    made: &SettledInputs,
    survey: &Survey<'_, Settled>,
    form: TreeForm<'_>,
) -> Result<String, Failure> {
    let (alloc, settled) = (survey.alloc(), survey.crates());
    let mut out = String::new(alloc);
    if form.is_dump {
        push_dumps(&mut out, alloc, settled)?;
    } else if form.is_dot {
        push_graphs(&mut out, survey)?;
    } else {
        push_trees(&mut out, survey, form)?;
    }
    if form.has_diagnostics {
        push_diagnostics(&mut out, alloc, settled, &made.graph)?;
    }
    if form.has_lists {
        push_lists(&mut out, alloc, settled)?;
    }
    Ok(out)
}
