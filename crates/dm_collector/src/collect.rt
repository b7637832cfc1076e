//! Crates, collected into a world: their modules and items declared, and imports and globs bound as the rules say.
ghost use Rattle.std.specs.Prelude.{◌≡◌, ◌↔◌, ℕ, false, true, All, IfErr, IfOk, IsTrue, List, OnOk, map};
ghost use Rattle.crate_items.specs.CrateGraphs.{IsOrder, rows};
ghost use Rattle.crate_tables.specs.CrateFillings.{Reading as Given};
ghost use Rattle.dm_collector.specs.CollectFaults.{IsFault};
ghost use Rattle.dm_collector.specs.Collecting as spec;
ghost use Rattle.dm_collector.specs.MacroPreludes.{HasMacros};
ghost use Rattle.dm_collector.specs.Steps.{Given as Imports, maps_with};
ghost use Rattle.dm_collector.specs.UnnamedTraits.{HasBrought, HasImported};
ghost use Rattle.dm_imports.specs.Asked.{meanings_of};
ghost use Rattle.dm_imports.specs.Grounding.{slots_of};
ghost use Rattle.dm_imports.specs.Marking.{AreThoseDependent};
ghost use Rattle.dm_imports.specs.Rules.{AreImportsKnown};

use crate::begin::begin;
use crate::bind_crates::bind_crates;
use crate::collect_fault::{CollectFault, of_order};
use crate::collected::Collected;
use crate::macro_uses::MacroUses;
use crate::settle::settle;
use crate::support::find_support;
use crate_items::files::crate_graph::CrateGraph;
use crate_tables::crate_filling::Reading;
use dm_base::ids::Crate;
use dm_imports::importing::Importing;
use dm_imports::rules::meanings::ImportMeanings;
use dm_imports::slots::Slots;
use dm_maps::world::World;
use dm_scope::glob_imports::PerNsGlobImports;
use std::alloc::{AllocError, Global};

/// The crates of a graph, each behind those that it depends on.
fn ordered(alloc: Global, graph: &CrateGraph) -> Result<Vec<Crate>, CollectFault>
    ensures order { OnOk result ((order : List ℕ) × IsOrder (rows graph.now) order) }
    ensures fault { IfErr result (λ fault. (r : Given) → IsFault r graph.now fault) }
{
    match graph.crates_in_topological_order(alloc) {
        Ok(order) => Ok(order),
        Err(fault) => Err(of_order(fault)),
    }
}

/// What is told of a world in which all is imported.
#[derive(Drop)]
struct Imported {
    meanings: Vec<ImportMeanings>,
    order_dependent: Slots<bool>,
    is_supported: bool,
    is_settled: bool,
}

/// Binds what imports and globs bring, crate by crate, and then imports unnamed traits.
fn import(
    world: &mut World,
    flags: &mut PerNsGlobImports,
    ambiguous: &mut Slots<bool>,
    alloc: Global,
    given: &Importing<'_>,
    uses: &[MacroUses],
    order: &[Crate],
) -> Result<Imported, AllocError>
    ensures imported { OnOk result ((x : Imports) → x.imports ≡ given.now.imports.now
        → x.globs ≡ given.now.globs.now → x.uses ≡ uses.now
        → spec.IsImported (maps_with given.now ambiguous.new) 0 x (record { world = world.old; flags = flags.old })
        (record { world = world.new; flags = flags.new })) }
    ensures limited { IfOk result (λ made. made.is_settled ≡ false → (x : Imports) → x.imports ≡ given.now.imports.now
        → x.globs ≡ given.now.globs.now → x.uses ≡ uses.now
        → spec.IsImported (maps_with given.now ambiguous.new) 4294967295 x
        (record { world = world.old; flags = flags.old }) (record { world = world.new; flags = flags.new })) }
    ensures right { IfOk result
        (λ made. IsTrue made.is_supported ↔ spec.AreRight (maps_with given.now ambiguous.new world.new)) }
    ensures dependent { IfOk result (λ made. AreImportsKnown (maps_with given.now ambiguous.new world.new)
        → AreThoseDependent (maps_with given.now ambiguous.new world.new) (slots_of made.order_dependent)) }
    ensures meanings { IfOk result (λ made. AreImportsKnown (maps_with given.now ambiguous.new world.new)
        → made.meanings.items
        ≡ map (meanings_of (maps_with given.now ambiguous.new world.new)) given.now.imports.now) }
    ensures traits { IfOk result (λ made. made.is_settled ≡ true
        → All (HasImported (maps_with given.now ambiguous.new world.new)) given.now.imports.now) }
    ensures brought { IfOk result (λ made. made.is_settled ≡ true
        → All (HasBrought (maps_with given.now ambiguous.new world.new)) given.now.globs.now) }
    ensures used { IfOk result (λ made. made.is_settled ≡ true → All (HasMacros world.new) uses.now) }
{
    let mut steps = Vec::new(alloc);
    bind_crates(
        world, flags, ambiguous, &mut steps, alloc, given, uses, order,
    )?;
    let is_settled = settle(world, given, ambiguous, uses, u32::MAX, alloc)?;
    let support = find_support(alloc, world, given, ambiguous, steps.as_slice())?;
    Ok(Imported {
        meanings: support.meanings,
        order_dependent: support.order_dependent,
        is_supported: support.is_right,
        is_settled,
    })
}

/// Imports what is imported in crates that were begun.
fn finish(made: &mut Collected, alloc: Global, order: &[Crate]) -> Result<(), AllocError>
    ensures imported { OnOk result (spec.IsImported (spec.maps_in made.new) 0 (spec.given_in made.old)
        (spec.state_of made.old) (spec.state_of made.new)) }
    ensures limited { OnOk result (made.new.is_settled ≡ false → spec.IsImported (spec.maps_in made.new) 4294967295
        (spec.given_in made.old) (spec.state_of made.old) (spec.state_of made.new)) }
    ensures right { OnOk result
        (IsTrue made.new.is_supported ↔ spec.AreRight (spec.maps_in made.new made.new.world)) }
    ensures dependent { OnOk result (AreImportsKnown (spec.maps_in made.new made.new.world)
        → AreThoseDependent (spec.maps_in made.new made.new.world) (slots_of made.new.order_dependent)) }
    ensures meanings { OnOk result (AreImportsKnown (spec.maps_in made.new made.new.world)
        → made.new.meanings.items
        ≡ map (meanings_of (spec.maps_in made.new made.new.world)) made.new.imports.items) }
    ensures traits { OnOk result (made.new.is_settled ≡ true
        → All (HasImported (spec.maps_in made.new made.new.world)) made.new.imports.items) }
    ensures brought { OnOk result (made.new.is_settled ≡ true
        → All (HasBrought (spec.maps_in made.new made.new.world)) made.new.globs.items) }
    ensures used { OnOk result (made.new.is_settled ≡ true → All (HasMacros made.new.world) made.new.uses.items) }
    ensures kept { spec.kept_in made.new ≡ spec.kept_in made.old }
    ensures given { spec.given_in made.new ≡ spec.given_in made.old }
{
    let given = Importing {
        imports: made.imports.as_slice(),
        globs: made.globs.as_slice(),
        declarations: &made.declarations,
    };
    let found = import(
        &mut made.world,
        &mut made.flags,
        &mut made.ambiguous,
        alloc,
        &given,
        made.uses.as_slice(),
        order,
    )?;
    made.meanings = found.meanings;
    made.order_dependent = found.order_dependent;
    made.is_supported = found.is_supported;
    made.is_settled = found.is_settled;
    Ok(())
}

/// Collects the crates of a graph: reads their files, lists their modules and items, declares them in one world, and binds
/// imports, globs and `macro_use` preludes there, crate by crate.
///
/// # Errors
///
/// Fails where crates depend on each other in a circle, where the file of a crate's root is not there, where a crate has
/// more modules than asked for, and where memory or numbers run out.
pub fn collect(
    alloc: Global,
    graph: &CrateGraph,
    reading: &Reading<'_>,
) -> Result<Collected, CollectFault>
    // The crates are in no circle.
    ensures order { OnOk result ((order : List ℕ) × IsOrder (rows graph.now) order) }

    // The def maps were reached from those of the crates' own declarations: names were bound there by imports and globs,
    // stage by stage, then traits without a name were imported, and nothing else was written.
    ensures collected { IfOk result (λ made. spec.IsCollected (spec.maps_in made) 0 reading.now graph.now
        (spec.kept_in made) (spec.given_in made) (spec.state_of made)) }

    // Where it is not settled, as many steps as a number of 32 bits counts brought traits or macros.
    ensures limited { IfOk result (λ made. made.is_settled ≡ false → spec.IsCollected (spec.maps_in made) 4294967295
        reading.now graph.now (spec.kept_in made) (spec.given_in made) (spec.state_of made)) }

    // It tells exactly whether the def maps are what the rules of imports give of them, and follow from declarations: each
    // name is what its module declares, else what an import by name brings, else what globs bring together.
    ensures supported { IfOk result
        (λ made. IsTrue made.is_supported ↔ spec.AreRight (spec.maps_in made made.world)) }

    // Of the slots of modules those are listed that have not what the rules give, or that some closed set lacks: which
    // definition they have depends on the order in which imports were taken.
    ensures dependent { IfOk result (λ made. AreImportsKnown (spec.maps_in made made.world)
        → AreThoseDependent (spec.maps_in made made.world) (slots_of made.order_dependent)) }

    // What each import means, by the rules, where all that imports and globs name is the world's.
    ensures meanings { IfOk result (λ made. AreImportsKnown (spec.maps_in made made.world)
        → made.meanings.items ≡ map (meanings_of (spec.maps_in made made.world)) made.imports.items) }

    // Where it is settled, no import and no glob has an unnamed trait to bring, and no `macro_use` prelude would get a macro.
    ensures traits { IfOk result (λ made. made.is_settled ≡ true
        → All (HasImported (spec.maps_in made made.world)) made.imports.items) }
    ensures brought { IfOk result (λ made. made.is_settled ≡ true
        → All (HasBrought (spec.maps_in made made.world)) made.globs.items) }
    ensures used { IfOk result (λ made. made.is_settled ≡ true → All (HasMacros made.world) made.uses.items) }

    // Where it fails, it is so as the fault says: these crates are a circle, the root of that crate has no file, or it has
    // more modules than asked for.
    ensures fault { IfErr result (IsFault reading.now graph.now) }
{
    let order = ordered(alloc, graph)?;
    let mut made = begin(alloc, graph, reading)?;
    finish(&mut made, alloc, order.as_slice())?;
    Ok(made)
}
