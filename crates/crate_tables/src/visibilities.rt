//! Whom a module or an item of a crate is shown to, by the modules of a builder.
ghost use Rattle.std.specs.Prelude.{◌≡◌, IsTrue, unwrap_or};
ghost use Rattle.dm_maps.specs.Holding.{vis_holds};
ghost use Rattle.dm_maps.specs.declared.check.held.HeldId.TheVariants as held;
ghost use Rattle.dm_maps.specs.Known.{knows, KnowsAll};
ghost use Rattle.crate_tables.specs.CrateTables.{IsTableOf};
ghost use Rattle.crate_tables.specs.Visibilities as spec;

use crate::crate_table::CrateTable;
use crate_items::modules::module_visibility::DeclaredVisibility;
use dm_base::ids::{Crate, ModuleId};
use dm_base::visibility::{Visibility, VisibilityExplicitness};
use dm_maps::builder::WorldBuilder;
use item_tree::items::visibility::RawVisibility;

/// The id of the module of a number in the list of a crate, unless it was left out.
pub fn id_at(ids: &[Option<ModuleId>], number: usize) -> Option<ModuleId>
    ensures { result ≡ spec.id_at ids.now number }
{
    match ids.get(number) {
        None => None,
        Some(id) => *id,
    }
}

/// A visibility is explicit where something is written.
fn explicitness(written: RawVisibility) -> VisibilityExplicitness
    ensures { result ≡ spec.explicitness written }
{
    match written {
        RawVisibility::Inherited => VisibilityExplicitness::Implicit,
        _ => VisibilityExplicitness::Explicit,
    }
}

/// What is written shows to a module, or to the crate.
fn within(krate: Crate, m: ModuleId, written: RawVisibility) -> Visibility
    ensures { result ≡ spec.within krate m written }
{
    match written {
        RawVisibility::PubCrate => Visibility::PubCrate(krate),
        _ => Visibility::Module(m, explicitness(written)),
    }
}

/// The id of the module of a number, or another where it was left out.
fn id_or(ids: &[Option<ModuleId>], number: usize, m: ModuleId) -> ModuleId
    ensures { result ≡ unwrap_or (spec.id_at ids.now number) m }
{
    match id_at(ids, number) {
        None => m,
        Some(id) => id,
    }
}

/// The visibility of what is public: in the root of a crate of procedural macros, which is closed, that of the crate.
fn public_in(is_closed: bool, krate: Crate) -> Visibility
    ensures { result ≡ spec.public_in is_closed krate }
{
    if is_closed {
        Visibility::PubCrate(krate)
    } else {
        Visibility::Public
    }
}

/// The same in a builder that has the crate: it names what is the builder's.
pub(crate) fn known_public(
    builder: &WorldBuilder,
    is_closed: bool,
    krate: Crate,
    table: &CrateTable,
) -> Visibility
    requires { IsTableOf builder.now krate table.now }
    ensures exact { result ≡ spec.public_in is_closed krate }
    ensures known { KnowsAll builder.now (vis_holds result) }
{
    let _world = builder;
    let _table = table;
    public_in(is_closed, krate)
}

/// The visibility of what is written so in a module. Where it leads nowhere, all see it.
fn visibility_of(
    is_closed: bool,
    krate: Crate,
    ids: &[Option<ModuleId>],
    m: ModuleId,
    written: RawVisibility,
    shown: Option<DeclaredVisibility>,
) -> Visibility
    ensures { result ≡ spec.visibility_of is_closed krate ids.now m written shown }
{
    match shown {
        None | Some(DeclaredVisibility::Public) => public_in(is_closed, krate),
        Some(DeclaredVisibility::Within(number)) => within(krate, id_or(ids, number, m), written),
    }
}

/// The same in a module of a builder, by what a crate has there: it names what is the builder's.
pub(crate) fn known_visibility(
    builder: &WorldBuilder,
    is_closed: bool,
    krate: Crate,
    table: &CrateTable,
    m: ModuleId,
    written: RawVisibility,
    shown: Option<DeclaredVisibility>,
) -> Visibility
    requires table { IsTableOf builder.now krate table.now }
    requires home { IsTrue (knows builder.now (held.Module m)) }
    ensures exact { result ≡ spec.visibility_of is_closed krate table.now.ids m written shown }
    ensures known { KnowsAll builder.now (vis_holds result) }
{
    let _world = builder;
    visibility_of(is_closed, krate, table.ids(), m, written, shown)
}
