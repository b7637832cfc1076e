//! What the rules say of def maps, all at once.
ghost use Rattle.std.specs.Prelude.{◌≡◌, ◌↔◌, IfOk, IsTrue, map};
ghost use Rattle.dm_imports.specs.Asked.{meanings_of};
ghost use Rattle.dm_imports.specs.Grounded.{IsGrounded};
ghost use Rattle.dm_imports.specs.Grounding.{slots_of};
ghost use Rattle.dm_imports.specs.Marking.{AreThoseDependent};
ghost use Rattle.dm_imports.specs.Rules.{AreImportsKnown, IsSupported};
ghost use Rattle.dm_imports.specs.Tables.{of_tables};

use crate::def_maps::DefMaps;
use crate::rules::grounded::{none_open, open_ways};
use crate::rules::listing::list;
use crate::rules::meanings::ImportMeanings;
use crate::rules::order_dependent::order_dependent;
use crate::rules::supported::all_given;
use crate::rules::unsupported::judge;
use crate::slots::Slots;
use crate::step::Step;
use std::alloc::{AllocError, Global};

/// What the rules say of def maps.
#[derive(Drop)]
pub struct Examined {
    /// Whether each slot has what the rules give of these def maps themselves.
    pub is_supported: bool,
    /// Whether each meaning follows from declarations.
    pub is_grounded: bool,
    /// The slots of modules that have not what the rules give, or do not follow from declarations.
    pub order_dependent: Slots<bool>,
    /// What each import brings, in the order of the imports.
    pub meanings: Vec<ImportMeanings>,
}

/// What `is_supported`, `is_grounded` and `import_meanings` say, for less: what globs bring is looked up once. Where one of
/// the first two does not hold, it is said of which slots.
///
/// Imports and globs have to stand in modules of the world's, and so have those to be that their visibilities name:
/// `DefMaps::are_imports_known` tests it.
///
/// # Errors
///
/// Fails only where memory runs out.
pub fn examine(alloc: Global, maps: &DefMaps<'_>, steps: &[Step]) -> Result<Examined, AllocError>
    requires { AreImportsKnown (of_tables maps.now) }
    ensures supported { IfOk result (λ found. IsTrue found.is_supported ↔ IsSupported (of_tables maps.now)) }
    ensures grounded { IfOk result (λ found. IsTrue found.is_grounded ↔ IsGrounded (of_tables maps.now)) }
    ensures dependent { IfOk result
        (λ found. AreThoseDependent (of_tables maps.now) (slots_of found.order_dependent)) }
    ensures meanings { IfOk result
        (λ found. found.meanings.items ≡ map (meanings_of (of_tables maps.now)) maps.now.imports) }
{
    let listing = list(alloc, maps.world)?;
    let given = all_given(alloc, maps, &listing)?;
    let judged = judge(alloc, maps, &listing, &given)?;
    let is_supported = judged.is_supported;
    let left = open_ways(alloc, maps, &given.globs, &listing, steps)?;
    let open = left.as_slice();
    let order_dependent = order_dependent(judged, maps, open)?;
    Ok(Examined {
        is_supported,
        is_grounded: none_open(maps, open),
        order_dependent,
        meanings: given.into_meanings(),
    })
}
