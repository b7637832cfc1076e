//! Whether each slot of def maps has what the rules give of them.
ghost use Rattle.std.specs.Prelude.{◌≡◌, ◌↔◌, IfOk, IsTrue};
ghost use Rattle.std.specs.Option.{option_map};
ghost use Rattle.dm_base.specs.PerNs.{keep};
ghost use Rattle.dm_maps.specs.World.{scope_of};
ghost use Rattle.dm_scope.specs.Scope.{bound_in};
ghost use Rattle.dm_imports.specs.Brought.{AreAllNamed};
ghost use Rattle.dm_imports.specs.Paths as paths;
ghost use Rattle.dm_imports.specs.Rules as spec;
ghost use Rattle.dm_imports.specs.Rules.{AreImportsKnown, AreMapsKnown, IsSupported};
ghost use Rattle.dm_imports.specs.Supporting.{AreGiven, IsListing, given_by};
ghost use Rattle.dm_imports.specs.Meanings.{is_declared, joined};
ghost use Rattle.dm_imports.specs.Slots.{slot_at};
ghost use Rattle.dm_imports.specs.Tables.{of_tables};

use crate::def_maps::DefMaps;
use crate::joined::{Joined, together};
use crate::meaning::{Meaning, Source};
use crate::paths::shown::item_at;
use crate::rules::all_imports::{ByName, all_imports};
use crate::rules::all_offers::all_offers;
use crate::rules::listing::{Listing, list};
use crate::rules::meanings::ImportMeanings;
use crate::rules::unsupported::judge;
use crate::slots::Slots;
use dm_base::ids::ModuleId;
use dm_base::name::Name;
use dm_base::per_ns::{Namespace, PerNs};
use std::alloc::{AllocError, Global};
use std::marker::Model;

/// What imports and globs bring.
pub(crate) struct Given {
    pub(crate) imports: Slots<Meaning>,
    /// What each import brings, in the order of the imports.
    pub(crate) meanings: Vec<ImportMeanings>,
    pub(crate) globs: Slots<Joined>,
}

/// Hand-written `Drop`, to keep proofs small: dropping one is then a single call.
impl Drop for Given {
    fn drop(self) {
        let Given {
            imports: _imports,
            meanings: _meanings,
            globs: _globs,
        } = self;
    }
}

impl Model for Given {
    ghost use Rattle.dm_imports.specs.Supporting.{GivenTables};

    ghost Value = { GivenTables };

    ghost view = { λ g. record { imports = g.imports; meanings = g.meanings.items; globs = g.globs } };
}

impl Given {
    /// What each import brings, in the order of the imports.
    pub(crate) fn into_meanings(self) -> Vec<ImportMeanings>
        ensures { result.items ≡ self.meanings }
    {
        let Given {
            imports: _imports,
            meanings,
            globs: _globs,
        } = self;
        meanings
    }
}

/// What is declared.
fn declared(found: Option<Meaning>) -> Option<Meaning>
    ensures { result ≡ keep is_declared found }
{
    let found = found?;
    if matches!(found.source, Source::Declaration) {
        Some(found)
    } else {
        None
    }
}

/// What globs bring to a slot.
pub(crate) fn brought(
    globs: &Slots<Joined>,
    m: ModuleId,
    name: &Name,
    namespace: Namespace,
) -> Option<Meaning>
    ensures { result ≡ option_map joined (slot_at globs.now m name.now namespace) }
{
    let all = globs.get(m, name, namespace)?;
    Some(together(all))
}

/// What the rules give a slot, which has `bound`.
fn given_at(
    given: &Given,
    m: ModuleId,
    name: &Name,
    namespace: Namespace,
    bound: Option<Meaning>,
) -> Option<Meaning>
    ensures { result ≡ given_by given.now m name.now namespace bound }
{
    let own = declared(bound);
    if own.is_some() {
        return own;
    }
    let named = given.imports.get(m, name, namespace);
    if named.is_some() {
        return named;
    }
    brought(&given.globs, m, name, namespace)
}

/// Whether two meanings are one.
fn same_meaning(one: Option<Meaning>, two: Option<Meaning>) -> bool
    ensures { IsTrue result ↔ (one ≡ two) }
{
    one == two
}

/// Whether a slot has what the rules give, where its module binds `items` under its name.
pub(crate) fn agrees_in(
    maps: &DefMaps<'_>,
    given: &Given,
    m: ModuleId,
    name: &Name,
    items: &PerNs,
    namespace: Namespace,
) -> bool
    requires given { AreGiven (of_tables maps.now) given.now }
    requires items { items.now ≡ bound_in (scope_of maps.now.world m) name.now }
    ensures { IsTrue result ↔ (paths.at (of_tables maps.now) m name.now namespace
        ≡ spec.given (of_tables maps.now) m name.now namespace) }
{
    let bound = item_at(maps, m, name, items, namespace);
    let by_rules = given_at(given, m, name, namespace, bound);
    same_meaning(bound, by_rules)
}

/// What imports and globs bring.
pub(crate) fn all_given(
    alloc: Global,
    maps: &DefMaps<'_>,
    listing: &Listing<'_>,
) -> Result<Given, AllocError>
    requires known { AreMapsKnown (of_tables maps.now) }
    requires listing { IsListing maps.now.world listing.now }
    ensures value { IfOk result (AreGiven (of_tables maps.now)) }
    ensures named { IfOk result (λ given. AreAllNamed maps.now.world given.globs) }
{
    let globs = all_offers(alloc, maps, listing)?;
    let ByName {
        slots: imports,
        each: meanings,
    } = all_imports(alloc, maps, &globs)?;
    Ok(Given {
        imports,
        meanings,
        globs,
    })
}

/// Whether each slot of def maps has what the rules give of these def maps themselves.
///
/// Imports and globs have to stand in modules of the world's, and so have those to be that their visibilities name:
/// `DefMaps::are_imports_known` tests it.
///
/// # Errors
///
/// Fails only where memory runs out.
pub fn is_supported(alloc: Global, maps: &DefMaps<'_>) -> Result<bool, AllocError>
    requires { AreImportsKnown (of_tables maps.now) }
    ensures { IfOk result (λ yes. IsTrue yes ↔ IsSupported (of_tables maps.now)) }
{
    let listing = list(alloc, maps.world)?;
    let given = all_given(alloc, maps, &listing)?;
    let judged = judge(alloc, maps, &listing, &given)?;
    Ok(judged.is_supported)
}
