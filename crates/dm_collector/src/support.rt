//! Whether def maps are what the rules of imports give of them.
ghost use Rattle.std.specs.Prelude.{◌≡◌, ◌↔◌, IfOk, IsTrue, map};
ghost use Rattle.dm_collector.specs.Collecting.{AreRight};
ghost use Rattle.dm_collector.specs.Steps.{maps_with};
ghost use Rattle.dm_imports.specs.Asked.{meanings_of};
ghost use Rattle.dm_imports.specs.Grounding.{slots_of};
ghost use Rattle.dm_imports.specs.Marking.{AreThoseDependent};
ghost use Rattle.dm_imports.specs.Rules.{AreImportsKnown};

use dm_imports::def_maps::DefMaps;
use dm_imports::importing::Importing;
use dm_imports::marks::Marks;
use dm_imports::rules::examine::examine;
use dm_imports::rules::meanings::ImportMeanings;
use dm_imports::slots::Slots;
use dm_imports::step::Step;
use dm_maps::world::World;
use std::alloc::{AllocError, Global};

/// What the rules of imports say of def maps.
#[derive(Drop)]
pub(crate) struct Support {
    /// Whether they are what the rules give of them, and follow from declarations.
    pub(crate) is_right: bool,
    /// The slots that are not so, or do not follow.
    pub(crate) order_dependent: Slots<bool>,
    /// What each import brings.
    pub(crate) meanings: Vec<ImportMeanings>,
}

/// What the rules of imports say of def maps. `steps` are the imports and globs in the order in which they brought names:
/// no answer depends on it.
///
/// Fails only where memory runs out.
pub(crate) fn find_support(
    alloc: Global,
    world: &World,
    given: &Importing<'_>,
    ambiguous: &Slots<bool>,
    steps: &[Step],
) -> Result<Support, AllocError>
    ensures right { IfOk result
        (λ found. IsTrue found.is_right ↔ AreRight (maps_with given.now ambiguous.now world.now)) }
    ensures dependent { IfOk result (λ found. AreImportsKnown (maps_with given.now ambiguous.now world.now)
        → AreThoseDependent (maps_with given.now ambiguous.now world.now) (slots_of found.order_dependent)) }
    ensures meanings { IfOk result (λ found. AreImportsKnown (maps_with given.now ambiguous.now world.now)
        → found.meanings.items
        ≡ map (meanings_of (maps_with given.now ambiguous.now world.now)) given.now.imports.now) }
{
    let maps = DefMaps {
        world,
        imports: given.imports,
        globs: given.globs,
        declarations: given.declarations,
        ambiguous: Marks {
            table: ambiguous,
            is_all_but: false,
        },
    };
    if !maps.are_imports_known() {
        return Ok(Support {
            is_right: false,
            order_dependent: Slots::new(alloc),
            meanings: Vec::new(alloc),
        });
    }
    let found = examine(alloc, &maps, steps)?;
    Ok(Support {
        is_right: found.is_supported && found.is_grounded,
        order_dependent: found.order_dependent,
        meanings: found.meanings,
    })
}
