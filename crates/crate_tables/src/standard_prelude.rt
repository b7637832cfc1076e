//! The standard prelude of a crate in a builder, and what its attributes set there.
ghost use Rattle.std.specs.Prelude.{◌≡◌, ◌++◌, ◌∷◌, [], true, IfErr, IfOk, IsTrue, OnOk, map, slice_get};
ghost use Rattle.std.specs.Option.{option_map};
ghost use Rattle.crate_tables.specs.StandardPreludes as spec;
ghost use Rattle.dm_maps.specs.declared.check.held.HeldId.TheVariants as held;
ghost use Rattle.dm_maps.specs.Added.{IsGrown};
ghost use Rattle.dm_maps.specs.BuildCrateData.{with_crate_settings};
ghost use Rattle.dm_maps.specs.BuildMaps.{AnswersFree, map_fault};
ghost use Rattle.dm_maps.specs.Known.{knows};
ghost use Rattle.dm_maps.specs.declared.build_fault.BuildFault.TheVariants.{OutOfMemory};

use crate::crate_roots::{any_no_core, is_named};
use crate::crate_table::CrateTable;
use crate::visibilities::id_at;
use crate_items::files::dependency::Dependency;
use crate_items::items::crate_attributes::CrateAttribute;
use crate_items::modules::CrateModules;
use crate_items::modules::prelude_module::prelude_module;
use dm_base::ids::{Crate, MapId, ModuleId, UseId};
use dm_base::source::Edition;
use dm_maps::build_fault::BuildFault;
use dm_maps::builder::WorldBuilder;
use dm_maps::crate_setting::CrateSetting;
use dm_maps::laws::settings_keep_scopes;
use std::alloc::{AllocError, Global};

/// An attribute of a crate, as its def map has it.
fn setting_of(attribute: CrateAttribute) -> CrateSetting
    ensures { result ≡ spec.setting_of attribute }
{
    match attribute {
        CrateAttribute::NoStd => CrateSetting::NoStd,
        CrateAttribute::NoCore => CrateSetting::NoCore,
        CrateAttribute::CoherenceIsCore => CrateSetting::CoherenceIsCore,
        CrateAttribute::RecursionLimit(limit) => CrateSetting::RecursionLimit(limit),
        CrateAttribute::Feature(feature) => CrateSetting::Feature(feature),
    }
}

/// Attributes of a crate, as its def map has them.
fn settings_of(
    alloc: Global,
    attributes: Vec<CrateAttribute>,
) -> Result<Vec<CrateSetting>, AllocError>
    ensures { IfOk result (λ settings. settings.items ≡ map spec.setting_of attributes.items) }
{
    let mut settings = Vec::new(alloc);
    for attribute in attributes {
        settings.push(setting_of(attribute))?;
    }
    Ok(settings)
}

/// Sets what these say for a crate.
pub(crate) fn set_all(
    builder: &mut WorldBuilder,
    krate: Crate,
    settings: Vec<CrateSetting>,
) -> Result<(), BuildFault>
    requires { IsTrue (knows builder.old (held.Crate krate)) }
    ensures world { OnOk result (builder.new ≡ with_crate_settings builder.old krate settings.items) }
    ensures grown { IsGrown builder.old builder.new }
    ensures fault { IfErr result (λ fault. fault ≡ OutOfMemory) }
{
    settings_keep_scopes();
    builder.set_crate_data(krate, settings)
}

/// Sets what the attributes of a crate say, as `crate_attributes` gives them: `no_std`, `no_core`, its recursion limit, its
/// features, and whether it is `core` where traits are implemented.
///
/// # Errors
///
/// Fails only where memory runs out, and then changes nothing.
pub fn set_attributes(
    builder: &mut WorldBuilder,
    alloc: Global,
    krate: Crate,
    attributes: Vec<CrateAttribute>,
) -> Result<(), BuildFault>
    requires { IsTrue (knows builder.old (held.Crate krate)) }
    ensures world { OnOk result (builder.new ≡ spec.with_attributes builder.old krate attributes.items) }
    ensures grown { IsGrown builder.old builder.new }
    ensures fault { IfErr result (λ fault. fault ≡ OutOfMemory) }
{
    let settings = settings_of(alloc, attributes)?;
    set_all(builder, krate, settings)
}

/// The crate of the first dependency that has a name in the extern prelude of a crate with these attributes.
pub(crate) fn crate_named(
    attributes: &[CrateAttribute],
    dependencies: &[Dependency],
    name: &[u8],
) -> Option<Crate>
    ensures { result ≡ spec.crate_named attributes.now dependencies.now name.now }
{
    match dependencies.iter().find(|dependency| {
        is_named(attributes, dependency) && dependency.name.as_str().as_bytes() == name
    }) {
        None => None,
        Some(dependency) => Some(dependency.crate_id),
    }
}

/// The crate that has the preludes: `std`, if that is in the extern prelude, and else `core`.
fn library_in(attributes: &[CrateAttribute], dependencies: &[Dependency]) -> Option<Crate>
    ensures { result ≡ spec.library_in attributes.now dependencies.now }
{
    match crate_named(attributes, dependencies, b"std") {
        Some(krate) => Some(krate),
        None => crate_named(attributes, dependencies, b"core"),
    }
}

/// The library of a crate with these attributes and dependencies, which has the preludes and whose macros it has:
/// `std`, and where that is not in the extern prelude, as under `no_std`, `core`. A crate with `no_core` has none.
pub fn library(attributes: &[CrateAttribute], dependencies: &[Dependency]) -> Option<Crate>
    ensures { result ≡ spec.library attributes.now dependencies.now }
{
    if any_no_core(attributes) {
        return None;
    }
    library_in(attributes, dependencies)
}

/// The id of a module, by its number in the list of a crate.
fn id_of(tables: &[CrateTable], krate: Crate, number: usize) -> Option<ModuleId>
    ensures { result ≡ spec.id_of (slice_get tables.now krate.0) number }
{
    match tables.get(krate.0 as usize) {
        None => None,
        Some(table) => id_at(table.ids(), number),
    }
}

/// The same, if there is a number.
pub(crate) fn id_in(tables: &[CrateTable], krate: Crate, number: Option<usize>) -> Option<ModuleId>
    ensures { result ≡ spec.id_in tables.now krate number }
{
    match number {
        None => None,
        Some(number) => id_of(tables, krate, number),
    }
}

/// The module of a crate that is the standard prelude of an edition.
fn prelude_of(
    lists: &[CrateModules],
    tables: &[CrateTable],
    edition: Edition,
    krate: Crate,
) -> Option<ModuleId>
    ensures { result ≡ spec.prelude_of tables.now krate edition (slice_get lists.now krate.0) }
{
    match lists.get(krate.0 as usize) {
        None => None,
        Some(list) => id_in(tables, krate, prelude_module(list.modules(), edition)),
    }
}

/// The same, if there is a crate.
fn prelude_in(
    lists: &[CrateModules],
    tables: &[CrateTable],
    edition: Edition,
    krate: Option<Crate>,
) -> Option<ModuleId>
    ensures { result ≡ spec.prelude_in lists.now tables.now edition krate }
{
    match krate {
        None => None,
        Some(krate) => prelude_of(lists, tables, edition, krate),
    }
}

/// The module that is the standard prelude of a crate with these attributes, edition and dependencies: the module for its
/// edition in its library. Without such a crate or module there is none.
///
/// The lists and the tables are those of all crates, each at its number.
pub fn standard_prelude(
    lists: &[CrateModules],
    tables: &[CrateTable],
    edition: Edition,
    attributes: &[CrateAttribute],
    dependencies: &[Dependency],
) -> Option<ModuleId>
    ensures { result ≡
        spec.standard_prelude lists.now tables.now edition attributes.now dependencies.now }
{
    prelude_in(lists, tables, edition, library(attributes, dependencies))
}

/// A prelude that no use named.
pub(crate) fn unnamed(prelude: Option<ModuleId>) -> Option<(ModuleId, Option<UseId>)>
    ensures { result ≡ option_map spec.unnamed prelude }
{
    match prelude {
        None => None,
        Some(m) => Some((m, None)),
    }
}

/// Sets the prelude of a crate, with the use that names it, or none. Takes no memory.
///
/// # Errors
///
/// `NoSuchCrate` of a crate that is not the builder's, which is then as it was.
pub fn set_crate_prelude(
    builder: &mut WorldBuilder,
    krate: Crate,
    prelude: Option<(ModuleId, Option<UseId>)>,
) -> Result<(), BuildFault>
    ensures world { OnOk result (builder.new ≡ spec.with_crate_prelude builder.old krate prelude) }
    ensures grown { IsGrown builder.old builder.new }
    ensures fault { AnswersFree (map_fault builder.old (spec.own_map krate)) result }
{
    settings_keep_scopes();
    let map = MapId { krate, block: None };
    builder.set_prelude(map, prelude)
}
