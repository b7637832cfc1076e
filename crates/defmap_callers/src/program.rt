//! An example program, shown in docs/USING.md: from the tables of a crate to the answer of a path.
ghost use Rattle.std.specs.Prelude.{◌≡◌, ◌∷◌, [], IfOk, None, Some};
ghost use Rattle.defmap_callers.specs.Program.{struct_0, tables_of, world_of};

use crate::paths::meaning_in_root;
use dm_base::ids::{Crate, ModuleId, StructId};
use dm_base::item_ids::{AdtId, ItemKind, ModuleDefId};
use dm_base::mod_path::{ModPath, PathKind};
use dm_base::name::Name;
use dm_base::per_ns::PerNs;
use dm_base::source::{Edition, EditionedFileId};
use dm_base::visibility::Visibility;
use dm_maps::build_fault::BuildFault;
use dm_maps::builder::WorldBuilder;
use dm_maps::check::fault::WorldFault;
use dm_maps::world::World;
use dm_scope::glob_imports::PerNsGlobImports;
use std::alloc::{AllocError, Global};

/// Why there is no answer.
#[derive(Drop, Debug)]
pub enum NoAnswer {
    /// A call of the builder failed.
    Unbuilt(BuildFault),
    /// The tables hold a dangling id.
    Dangling(WorldFault),
    /// The world lacks what it is asked about.
    Unknown,
    OutOfMemory,
}

impl From<BuildFault> for NoAnswer {
    fn from(fault: BuildFault) -> NoAnswer {
        NoAnswer::Unbuilt(fault)
    }
}

impl From<AllocError> for NoAnswer {
    fn from(_refused: AllocError) -> NoAnswer {
        NoAnswer::OutOfMemory
    }
}

/// The tables of a crate with a struct in its root.
fn tables(alloc: Global, file: EditionedFileId) -> Result<WorldBuilder, BuildFault>
    ensures { IfOk result (λ tables. tables ≡ tables_of file) }
{
    let mut builder = WorldBuilder::new(alloc);
    builder.add_crate(Edition::Edition2021, file)?;
    builder.add_item(ItemKind::Struct, ModuleId(0))?;
    Ok(builder)
}

/// The world of these tables, in which the root binds the struct to a name.
fn world(alloc: Global, tables: WorldBuilder, name: Name) -> Result<World, NoAnswer>
    ensures { IfOk result (λ world. world ≡ world_of tables name) }
{
    let mut world = match tables.check() {
        Ok(world) => world,
        Err((_tables, fault)) => return Err(NoAnswer::Dangling(fault)),
    };
    let mut globs = PerNsGlobImports::new(alloc);
    let root = ModuleId(0);
    let def = ModuleDefId::AdtId(AdtId::StructId(StructId(0)));
    let items = PerNs::types(def, Visibility::Public, None);
    if !world.knows_res(root, &items, None) {
        return Err(NoAnswer::Unknown);
    }
    world.push_res(&mut globs, (root, name), items, None)?;
    Ok(world)
}

/// The path of that one name.
fn path(alloc: Global, text: &str) -> Result<ModPath, AllocError>
    ensures { IfOk result (λ path. path ≡ record { kind = PathKind.Plain; segments = text.now ∷ [] }) }
{
    let mut segments = Vec::new(alloc);
    let name = Name::new(alloc, text)?;
    segments.push(name)?;
    Ok(ModPath::from_segments(PathKind::Plain, segments))
}

/// What the path `S` means in the root of a crate that declares the struct `S` there: this struct.
pub fn meaning_of_a_struct(
    alloc: Global,
    file: EditionedFileId,
) -> Result<Option<ModuleDefId>, NoAnswer>
    ensures { IfOk result (λ found. found ≡ Some struct_0) }
{
    let tables = tables(alloc, file)?;
    let world = world(alloc, tables, Name::new(alloc, "S")?)?;
    let krate = Crate(0);
    if !world.has_crate(krate) {
        return Err(NoAnswer::Unknown);
    }
    let found = meaning_in_root(&world, krate, &path(alloc, "S")?);
    Ok(found.take_types())
}
