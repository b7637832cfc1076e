//! The crates of a graph, added to a builder: each with its root alone, and their extern preludes.
ghost use Rattle.std.specs.Prelude.{◌≡◌, ◌<◌, [], true, IfErr, IfOk, IsTrue, OnErr, OnOk, length, take};
ghost use Rattle.std.specs.List.{list_any};
ghost use Rattle.crate_items.specs.declared.files.dependency.Dependency.{Dependency as Dep};
ghost use Rattle.dm_maps.specs.declared.check.held.HeldId.TheVariants as held;
ghost use Rattle.crate_tables.specs.CrateRoots as spec;
ghost use Rattle.crate_tables.specs.NewModules.{in_edition};
ghost use Rattle.dm_base.specs.declared.ids.ModuleId.{ModuleId};
ghost use Rattle.dm_maps.specs.Added.{IsAddedCrate, IsGrown};
ghost use Rattle.dm_maps.specs.Build.{next_crate, no_world, with_crate};
ghost use Rattle.dm_maps.specs.Known.{knows};
ghost use Rattle.dm_maps.specs.World.{scope_of};
ghost use Rattle.dm_scope.specs.Scope.{no_scope};
ghost use Rattle.dm_maps.specs.declared.build_fault.BuildFault.TheVariants.{OutOfMemory};
ghost use Rattle.crate_tables.specs.Numbers.{has_too_many, is_shortage};

use crate::new_module::in_edition;
use crate_items::files::crate_data::CrateData;
use crate_items::files::crate_graph::CrateGraph;
use crate_items::files::dependency::Dependency;
use crate_items::items::crate_attributes::CrateAttribute;
use dm_base::ids::{Crate, ModuleId};
use dm_base::name::Name;
use dm_maps::build_fault::BuildFault;
use dm_maps::builder::WorldBuilder;
use std::alloc::Global;

/// Adds a crate with its root.
fn add_root(builder: &mut WorldBuilder, krate: &CrateData) -> Result<(), BuildFault>
    ensures world { OnOk result (builder.new ≡ with_crate builder.old krate.now.edition
        (in_edition krate.now.edition krate.now.root_file_id)) }
    ensures added { OnOk result (IsAddedCrate builder.old builder.new (next_crate builder.old)) }
    ensures fault { IfErr result
        (λ fault. is_shortage (has_too_many (with_crate builder.old krate.now.edition (in_edition krate.now.edition krate.now.root_file_id)))
        fault ≡ true) }
{
    let file = in_edition(krate.edition(), krate.root_file_id());
    builder.add_crate(krate.edition(), file)?;
    Ok(())
}

/// A builder of the crates of a graph, each with its root alone. Crates have the numbers that they have in the graph,
/// and the root of each is the module of the same number. No module binds anything.
///
/// # Errors
///
/// Fails where memory or numbers run out.
pub fn crate_roots(alloc: Global, graph: &CrateGraph) -> Result<WorldBuilder, BuildFault>
    ensures world { IfOk result (λ builder. builder ≡ spec.with_roots no_world graph.now) }
    ensures roots { IfOk result (λ builder. spec.HasRoots builder (length graph.now)) }
    ensures empty { IfOk result (λ builder. (m : ModuleId) → scope_of builder m ≡ no_scope) }
    ensures fault { IfErr result
        (λ fault. is_shortage (has_too_many (spec.with_roots no_world graph.now)) fault ≡ true) }
{
    let mut builder = WorldBuilder::new(alloc);
    for krate in graph.crates() {
        add_root(&mut builder, krate)?;
    }
    Ok(builder)
}

/// The root of a crate.
pub fn root_id(krate: Crate) -> ModuleId
    ensures { result ≡ spec.root_id krate }
{
    ModuleId(krate.0)
}

fn is_no_std(attribute: &CrateAttribute) -> bool
    ensures { result ≡ spec.is_no_std attribute.now }
{
    matches!(attribute, CrateAttribute::NoStd)
}

fn is_no_core(attribute: &CrateAttribute) -> bool
    ensures { result ≡ spec.is_no_core attribute.now }
{
    matches!(attribute, CrateAttribute::NoCore)
}

pub(crate) fn any_no_std(attributes: &[CrateAttribute]) -> bool
    ensures { result ≡ list_any spec.is_no_std attributes.now }
{
    attributes.iter().any(|attribute| is_no_std(attribute))
}

pub(crate) fn any_no_core(attributes: &[CrateAttribute]) -> bool
    ensures { result ≡ list_any spec.is_no_core attributes.now }
{
    attributes.iter().any(|attribute| is_no_core(attribute))
}

/// Whether the attributes of a crate take a name out of its extern prelude: `std` under `no_std`, `core` under `no_core`.
fn is_without(attributes: &[CrateAttribute], name: &Name) -> bool
    ensures { result ≡ spec.is_without attributes.now name.now }
{
    let bytes = name.as_str().as_bytes();
    (any_no_std(attributes) && bytes == b"std".as_slice())
        || (any_no_core(attributes) && bytes == b"core".as_slice())
}

/// Whether the name of a dependency is in the extern prelude of a crate with these attributes.
pub(crate) fn is_named(attributes: &[CrateAttribute], dependency: &Dependency) -> bool
    ensures { result ≡ spec.is_named attributes.now dependency.now }
{
    dependency.prelude && !is_without(attributes, &dependency.name)
}

/// Whether some dependencies have a name in the extern prelude.
fn is_taken(dependencies: &[Dependency], name: &Name) -> bool
    ensures { result ≡ spec.is_taken dependencies.now name.now }
{
    dependencies.iter().any(|dependency| dependency.prelude && dependency.name == *name)
}

/// Adds a dependency to the extern prelude of a crate, behind some others, if it is there.
fn push_extern(
    builder: &mut WorldBuilder,
    alloc: Global,
    krate: Crate,
    attributes: &[CrateAttribute],
    before: &[Dependency],
    dependency: &Dependency,
) -> Result<(), BuildFault>
    requires { IsTrue (knows builder.old (held.Crate krate)) }
    ensures world { OnOk result (builder.new ≡ spec.with_extern builder.old krate attributes.now before.now dependency.now) }
    ensures kept { OnOk result (IsTrue (knows builder.new (held.Crate krate))) }
    ensures grown { IsGrown builder.old builder.new }
    ensures fault { IfErr result (λ fault. fault ≡ OutOfMemory) }
{
    if !is_named(attributes, dependency) || is_taken(before, &dependency.name) {
        return Ok(());
    }
    let name = dependency.name.copy(alloc)?;
    builder.add_extern(krate, name, root_id(dependency.crate_id), None)?;
    Ok(())
}

/// The dependencies before a place.
fn before(dependencies: &[Dependency], place: usize) -> &[Dependency]
    requires { place < length dependencies.now }
    ensures { result.now ≡ take place dependencies.now }
{
    &dependencies[..place]
}

/// Fills the extern prelude of a crate with these attributes: each of these dependencies that is there gives its name to
/// the root of its crate. Under `no_std` none of the name `std` is there, and under `no_core` none of the name `core`. Of
/// two of the same name the first counts.
///
/// # Errors
///
/// Fails only where memory runs out. What was added before stays.
pub fn add_externs(
    builder: &mut WorldBuilder,
    alloc: Global,
    krate: Crate,
    attributes: &[CrateAttribute],
    dependencies: &[Dependency],
) -> Result<(), BuildFault>
    requires { IsTrue (knows builder.old (held.Crate krate)) }
    ensures world { OnOk result (builder.new ≡ spec.with_externs builder.old krate attributes.now dependencies.now) }
    ensures grown { IsGrown builder.old builder.new }
    ensures fault { IfErr result (λ fault. fault ≡ OutOfMemory) }
{
    for (place, dependency) in dependencies.iter().enumerate() {
        push_extern(
            builder,
            alloc,
            krate,
            attributes,
            before(dependencies, place),
            dependency,
        )?;
    }
    Ok(())
}
