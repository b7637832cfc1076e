//! Which slots of def maps have not what the rules give of them.
ghost use Rattle.std.specs.Prelude.{◌≡◌, ◌↔◌, ◌&&◌, All, IfOk, IsTrue, OnOk, not};
ghost use Rattle.dm_base.specs.declared.ids.ModuleId.{ModuleId};
ghost use Rattle.dm_base.specs.declared.per_ns.Namespace.{Namespace};
ghost use Rattle.dm_base.specs.Names.{Name};
ghost use Rattle.dm_base.specs.PerNs.{is_empty};
ghost use Rattle.dm_maps.specs.World.{scope_of};
ghost use Rattle.dm_scope.specs.Scope.{bound_in};
ghost use Rattle.dm_imports.specs.Grounding.{slots_of};
ghost use Rattle.dm_imports.specs.Marking as spec;
ghost use Rattle.dm_imports.specs.Marking.{AreAllJudged, Marks};
ghost use Rattle.dm_imports.specs.Paths.{AreVariantsNamed};
ghost use Rattle.dm_imports.specs.Rules as rules;
ghost use Rattle.dm_imports.specs.Rules.{AreMapsKnown, IsModule, IsSupported};
ghost use Rattle.dm_imports.specs.Supporting.{AreGiven, IsListing};
ghost use Rattle.dm_imports.specs.Tables.{of_tables};

use crate::def_maps::DefMaps;
use crate::glob_import::GlobImport;
use crate::named_import::NamedImport;
use crate::rules::listing::{Listing, listed_names, names_in};
use crate::rules::offers::source_of;
use crate::rules::supported::{Given, agrees_in};
use crate::slots::Slots;
use dm_base::ids::ModuleId;
use dm_base::name::Name;
use dm_base::per_ns::{Namespace, PerNs};
use dm_scope::scope_tables::ScopeTables;
use std::alloc::{AllocError, Global};

/// What was found of the slots of def maps.
#[derive(Drop)]
pub(crate) struct Judged {
    /// Those that have not what the rules give.
    pub(crate) unsupported: Slots<bool>,
    /// Whether there are none.
    pub(crate) is_supported: bool,
}

/// Marks a slot that has not what the rules give, where its module binds `items` under its name.
fn mark_in(
    found: &mut Judged,
    maps: &DefMaps<'_>,
    given: &Given,
    m: ModuleId,
    name: &Name,
    items: &PerNs,
    namespace: Namespace,
) -> Result<(), AllocError>
    requires given { AreGiven (of_tables maps.now) given.now }
    requires items { items.now ≡ bound_in (scope_of maps.now.world m) name.now }
    requires home { IsModule (of_tables maps.now) m }
    ensures marks { OnOk result (Marks (of_tables maps.now) found.old found.new) }
    ensures judged { OnOk result (spec.IsJudged (of_tables maps.now) (slots_of found.new.unsupported) m name.now namespace) }
{
    if agrees_in(maps, given, m, name, items, namespace) {
        return Ok(());
    }
    found.unsupported.put(m, name, namespace, true)?;
    found.is_supported = false;
    Ok(())
}

/// Whether a name is passed over under which its module binds `items`: where it binds any, and such names are judged.
fn is_passed_over(items: &PerNs, are_bound_judged: bool) -> bool
    ensures { result ≡ (are_bound_judged && not (is_empty items.now)) }
{
    are_bound_judged && !items.is_none()
}

/// Marks the slots of a name that have not. One that the module binds is passed over where those are judged already.
fn mark_name(
    found: &mut Judged,
    maps: &DefMaps<'_>,
    given: &Given,
    m: ModuleId,
    name: &Name,
    are_bound_judged: bool,
) -> Result<(), AllocError>
    requires given { AreGiven (of_tables maps.now) given.now }
    requires home { IsModule (of_tables maps.now) m }
    requires bound { IsTrue are_bound_judged → AreAllJudged (of_tables maps.now) (slots_of found.old.unsupported) }
    ensures marks { OnOk result (Marks (of_tables maps.now) found.old found.new) }
    ensures judged { OnOk result (spec.AreJudged (of_tables maps.now) (slots_of found.new.unsupported) m name.now) }
{
    let items = maps.world.bound_in(m, name);
    if is_passed_over(&items, are_bound_judged) {
        return Ok(());
    }
    mark_in(found, maps, given, m, name, &items, Namespace::Types)?;
    mark_in(found, maps, given, m, name, &items, Namespace::Values)?;
    mark_in(found, maps, given, m, name, &items, Namespace::Macros)?;
    Ok(())
}

/// Does so with some names.
fn mark_names(
    found: &mut Judged,
    maps: &DefMaps<'_>,
    given: &Given,
    m: ModuleId,
    names: &[&Name],
    are_bound_judged: bool,
) -> Result<(), AllocError>
    requires given { AreGiven (of_tables maps.now) given.now }
    requires home { IsModule (of_tables maps.now) m }
    requires bound { IsTrue are_bound_judged → AreAllJudged (of_tables maps.now) (slots_of found.old.unsupported) }
    ensures marks { OnOk result (Marks (of_tables maps.now) found.old found.new) }
    ensures judged { OnOk result
        (All (λ n. spec.AreJudged (of_tables maps.now) (slots_of found.new.unsupported) m n.now) names.now) }
{
    for name in names {
        mark_name(found, maps, given, m, *name, are_bound_judged)?;
    }
    Ok(())
}

/// Marks those of the names that a module binds.
fn mark_module(
    found: &mut Judged,
    alloc: Global,
    maps: &DefMaps<'_>,
    listing: &Listing<'_>,
    given: &Given,
    m: ModuleId,
) -> Result<(), AllocError>
    requires listing { IsListing maps.now.world listing.now }
    requires given { AreGiven (of_tables maps.now) given.now }
    requires home { IsModule (of_tables maps.now) m }
    ensures marks { OnOk result (Marks (of_tables maps.now) found.old found.new) }
    ensures judged { OnOk result (spec.AreJudgedIn (of_tables maps.now) (slots_of found.new.unsupported) m) }
{
    let names = names_in(alloc, listing, m)?;
    mark_names(found, maps, given, m, names.as_slice(), false)?;
    Ok(())
}

/// Marks those of all modules.
fn mark_modules(
    found: &mut Judged,
    alloc: Global,
    maps: &DefMaps<'_>,
    listing: &Listing<'_>,
    given: &Given,
) -> Result<(), AllocError>
    requires listing { IsListing maps.now.world listing.now }
    requires given { AreGiven (of_tables maps.now) given.now }
    ensures marks { OnOk result (Marks (of_tables maps.now) found.old found.new) }
    ensures judged { OnOk result (spec.AreAllJudged (of_tables maps.now) (slots_of found.new.unsupported)) }
{
    for number in 0..u32::MAX {
        let m = ModuleId(number);
        if maps.world.scope_of(m).is_none() {
            return Ok(());
        }
        mark_module(found, alloc, maps, listing, given, m)?;
    }
    Ok(())
}

/// Marks those of some imports, where the names that modules bind are judged.
fn mark_imports(
    found: &mut Judged,
    maps: &DefMaps<'_>,
    given: &Given,
    imports: &[NamedImport],
) -> Result<(), AllocError>
    requires given { AreGiven (of_tables maps.now) given.now }
    requires bound { AreAllJudged (of_tables maps.now) (slots_of found.old.unsupported) }
    requires imports { All (rules.IsImportKnown (of_tables maps.now)) imports.now }
    ensures marks { OnOk result (Marks (of_tables maps.now) found.old found.new) }
    ensures judged { OnOk result
        (All (λ i. spec.AreJudged (of_tables maps.now) (slots_of found.new.unsupported) i.home i.name) imports.now) }
{
    for import in imports {
        mark_name(found, maps, given, import.home, &import.name, true)?;
    }
    Ok(())
}

/// Marks those of what a glob brings, where the names that modules bind are judged.
fn mark_glob(
    found: &mut Judged,
    alloc: Global,
    maps: &DefMaps<'_>,
    listing: &Listing<'_>,
    given: &Given,
    glob: &GlobImport,
) -> Result<(), AllocError>
    requires listing { IsListing maps.now.world listing.now }
    requires given { AreGiven (of_tables maps.now) given.now }
    requires bound { AreAllJudged (of_tables maps.now) (slots_of found.old.unsupported) }
    requires variants { AreVariantsNamed (of_tables maps.now) }
    requires into { IsModule (of_tables maps.now) glob.now.into }
    ensures marks { OnOk result (Marks (of_tables maps.now) found.old found.new) }
    ensures judged { OnOk result (spec.IsGlobJudged (of_tables maps.now) (slots_of found.new.unsupported) glob.now) }
{
    match source_of(maps, glob) {
        None => Ok(()),
        Some(source) => {
            let names = listed_names(alloc, maps.world, listing, source)?;
            mark_names(found, maps, given, glob.into, names.as_slice(), true)?;
            Ok(())
        }
    }
}

/// Does so with those of what some globs bring.
fn mark_globs(
    found: &mut Judged,
    alloc: Global,
    maps: &DefMaps<'_>,
    listing: &Listing<'_>,
    given: &Given,
    globs: &[GlobImport],
) -> Result<(), AllocError>
    requires listing { IsListing maps.now.world listing.now }
    requires given { AreGiven (of_tables maps.now) given.now }
    requires bound { AreAllJudged (of_tables maps.now) (slots_of found.old.unsupported) }
    requires variants { AreVariantsNamed (of_tables maps.now) }
    requires globs { All (rules.IsGlobKnown (of_tables maps.now)) globs.now }
    ensures marks { OnOk result (Marks (of_tables maps.now) found.old found.new) }
    ensures judged { OnOk result (All (spec.IsGlobJudged (of_tables maps.now) (slots_of found.new.unsupported)) globs.now) }
{
    for glob in globs {
        mark_glob(found, alloc, maps, listing, given, glob)?;
    }
    Ok(())
}

/// Looks which slots have not what the rules give: all names that are bound, and all that could be.
///
/// Fails only where memory runs out.
pub(crate) fn judge(
    alloc: Global,
    maps: &DefMaps<'_>,
    listing: &Listing<'_>,
    given: &Given,
) -> Result<Judged, AllocError>
    requires listing { IsListing maps.now.world listing.now }
    requires given { AreGiven (of_tables maps.now) given.now }
    requires known { AreMapsKnown (of_tables maps.now) }
    ensures just { IfOk result (spec.IsJust (of_tables maps.now)) }
    ensures all { IfOk result (λ found. (m : ModuleId) → IsModule (of_tables maps.now) m → (n : Name)
        → spec.AreJudged (of_tables maps.now) (slots_of found.unsupported) m n) }
    ensures supported { IfOk result (λ found. IsTrue found.is_supported ↔ IsSupported (of_tables maps.now)) }
{
    let unsupported = Slots::new(alloc);
    let mut found = Judged {
        unsupported,
        is_supported: true,
    };
    mark_modules(&mut found, alloc, maps, listing, given)?;
    mark_imports(&mut found, maps, given, maps.imports)?;
    mark_globs(&mut found, alloc, maps, listing, given, maps.globs)?;
    Ok(found)
}
