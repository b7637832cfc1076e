//! The name of the standard library that the root of a crate of the edition 2015 binds without an item.
ghost use Rattle.std.specs.Prelude.{◌≡◌, true, IfErr, IfOk, IfSome, IsTrue, None, OnOk, Some};
ghost use Rattle.crate_tables.specs.CrateRoots as roots;
ghost use Rattle.crate_tables.specs.CrateTables.{IsTableOf, with_named};
ghost use Rattle.crate_tables.specs.LibraryNames as spec;
ghost use Rattle.crate_tables.specs.StandardPreludes.{crate_named};
ghost use Rattle.dm_base.specs.PerNs.{type_alone};
ghost use Rattle.dm_base.specs.declared.item_ids.ModuleDefId.TheVariants as def;
ghost use Rattle.dm_maps.specs.Holding.{vis_holds};
ghost use Rattle.dm_maps.specs.Known.{knows, KnowsAll};
ghost use Rattle.dm_maps.specs.declared.check.held.HeldId.TheVariants as held;
ghost use Rattle.dm_maps.specs.declared.build_fault.BuildFault.TheVariants.{OutOfMemory};

use crate::crate_roots::{any_no_core, any_no_std, root_id};
use crate::crate_table::CrateTable;
use crate::new_module::CrateView;
use crate::standard_prelude::crate_named;
use crate::visibilities::known_public;
use crate_items::files::dependency::Dependency;
use crate_items::items::crate_attributes::CrateAttribute;
use dm_base::ids::{Crate, ModuleId};
use dm_base::item_ids::ModuleDefId;
use dm_base::name::Name;
use dm_base::per_ns::PerNs;
use dm_base::source::Edition;
use dm_base::visibility::Visibility;
use dm_maps::build_fault::BuildFault;
use dm_maps::builder::WorldBuilder;
use std::alloc::{AllocError, Global};

/// A crate that a root binds without an item, and the name that it is bound under.
#[derive(Drop)]
pub struct LibraryName {
    pub name: Name,
    pub krate: Crate,
}

fn library_word(attributes: &[CrateAttribute]) -> &'static str
    ensures { result.now ≡ spec.library_word attributes.now }
{
    if any_no_std(attributes) {
        "core"
    } else {
        "std"
    }
}

/// The dependency of a name in the extern prelude, as a root binds it.
fn known_as(
    alloc: Global,
    attributes: &[CrateAttribute],
    dependencies: &[Dependency],
    word: &str,
) -> Result<Option<LibraryName>, AllocError>
    ensures { IfOk result (λ found. found ≡
        spec.known_as word.now (crate_named attributes.now dependencies.now word.now)) }
{
    match crate_named(attributes, dependencies, word.as_bytes()) {
        None => Ok(None),
        Some(krate) => {
            let name = Name::new(alloc, word)?;
            Ok(Some(LibraryName { name, krate }))
        }
    }
}

/// What a root binds where it binds a library.
fn bound_library(
    alloc: Global,
    attributes: &[CrateAttribute],
    dependencies: &[Dependency],
) -> Result<Option<LibraryName>, AllocError>
    ensures { IfOk result (λ found. found ≡ spec.bound_library attributes.now dependencies.now) }
{
    if any_no_core(attributes) {
        return Ok(None);
    }
    known_as(alloc, attributes, dependencies, library_word(attributes))
}

/// What the root of a crate with these attributes and dependencies binds without an item: in the edition 2015 `std`, or
/// `core` under `no_std`, and nothing under `no_core`. In later editions no root binds a crate so.
pub(crate) fn library_name(
    alloc: Global,
    edition: Edition,
    attributes: &[CrateAttribute],
    dependencies: &[Dependency],
) -> Result<Option<LibraryName>, AllocError>
    ensures { IfOk result (λ found. found ≡ spec.library_name edition attributes.now dependencies.now) }
{
    match edition {
        Edition::Edition2015 => bound_library(alloc, attributes, dependencies),
        _ => Ok(None),
    }
}

/// Declares the root of a crate in a module, as a type that no item brings.
fn declare_root(
    builder: &WorldBuilder,
    table: &mut CrateTable,
    krate: Crate,
    home: ModuleId,
    name: Name,
    root: ModuleId,
    visibility: Visibility,
) -> Result<(), BuildFault>
    requires table { IsTableOf builder.now krate table.old }
    requires home { IsTrue (knows builder.now (held.Module home)) }
    requires root { IsTrue (knows builder.now (held.Module root)) }
    requires seen { KnowsAll builder.now (vis_holds visibility) }
    ensures table { OnOk result (table.new ≡
        with_named table.old home (Some name) (type_alone (def.ModuleId root) visibility None)) }
    ensures kept { OnOk result (IsTableOf builder.now krate table.new) }
    ensures fault { IfErr result (λ fault. fault ≡ OutOfMemory) }
{
    let _world = builder;
    let items = PerNs::types(ModuleDefId::ModuleId(root), visibility, None);
    table.push_named(home, Some(name), items)?;
    Ok(())
}

/// Declares in the root of a crate what it binds without an item, seen by the crate.
pub(crate) fn declare_library(
    builder: &WorldBuilder,
    table: &mut CrateTable,
    view: &CrateView<'_>,
    library: Option<LibraryName>,
) -> Result<(), BuildFault>
    requires table { IsTableOf builder.now view.now.krate table.old }
    requires root { IsTrue (knows builder.now (held.Module (roots.root_id view.now.krate))) }
    requires known { IfSome library (λ l. IsTrue (knows builder.now (held.Module (roots.root_id l.krate)))) }
    ensures table { OnOk result (table.new ≡ spec.with_library view.now.krate library table.old) }
    ensures kept { OnOk result (IsTableOf builder.now view.now.krate table.new) }
    ensures fault { IfErr result (λ fault. fault ≡ OutOfMemory) }
{
    match library {
        None => Ok(()),
        Some(library) => {
            let krate = view.krate;
            let visibility = known_public(builder, true, krate, table);
            let root = root_id(library.krate);
            let home = root_id(krate);
            declare_root(builder, table, krate, home, library.name, root, visibility)
        }
    }
}
