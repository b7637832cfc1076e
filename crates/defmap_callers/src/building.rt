//! Example callers, shown in docs/USING.md: modules that are built in a loop, and what they bind.
ghost use Rattle.std.specs.Prelude.{◌≡◌, ◌++◌, ◌∷◌, [], All, IfOk, IsTrue, OnErr, OnOk, length};
ghost use Rattle.dm_base.specs.declared.ids.ModuleId.{ModuleId};
ghost use Rattle.dm_scope.specs.Scope.{no_scope};
ghost use Rattle.dm_scope.specs.Shows.{Shows};
ghost use Rattle.dm_def_map.specs.Origins.{is_child};
ghost use Rattle.dm_maps.specs.World.{scope_of};
ghost use Rattle.defmap_callers.specs.Building.{IsBelow, pushes_to};

use crate::maps::{Refused, declare_type};
use dm_base::ids::ModuleId;
use dm_base::item_ids::ModuleDefId;
use dm_base::name::Name;
use dm_base::source::{Edition, EditionedFileId};
use dm_base::visibility::Visibility;
use dm_maps::build_fault::BuildFault;
use dm_maps::builder::WorldBuilder;
use dm_maps::check::fault::WorldFault;
use dm_maps::module_origin::ModuleOrigin;
use dm_maps::world::World;
use dm_scope::glob_imports::PerNsGlobImports;
use std::alloc::{AllocError, Global};

/// The tables of one crate with a public module of each name below its root, and these modules: none of them binds
/// anything.
pub fn crate_of_modules(
    alloc: Global,
    file: EditionedFileId,
    origin: ModuleOrigin,
    names: Vec<Name>,
) -> Result<(WorldBuilder, Vec<ModuleId>), BuildFault>
    requires { IsTrue (is_child origin) }
    ensures count { IfOk result (λ built. length built.1.items ≡ length names.items) }
    ensures below { IfOk result (λ built. All (IsBelow built.0 (record { 0 = 0 })) built.1.items) }
    ensures empty { IfOk result (λ built. (m : ModuleId) → scope_of built.0 m ≡ no_scope) }
{
    let mut builder = WorldBuilder::new(alloc);
    builder.add_crate(Edition::Edition2021, file)?;
    let root = ModuleId(0);
    let mut modules = Vec::new(alloc);
    for name in names {
        let m = builder.add_module(root, name, origin, Visibility::Public)?;
        list(&mut modules, m)?;
    }
    Ok((builder, modules))
}

fn list(modules: &mut Vec<ModuleId>, m: ModuleId) -> Result<(), AllocError>
    ensures ok { OnOk result (modules.new.items ≡ modules.old.items ++ m ∷ []) }
    ensures err { OnErr result (modules.new.items ≡ modules.old.items) }
{
    modules.push(m)?;
    Ok(())
}

/// Why no world was made.
#[derive(Drop, Debug)]
pub enum NotMade {
    /// The tables hold a dangling id.
    Dangling(WorldFault),
    /// A declaration failed.
    Undeclared(Refused),
}

impl From<Refused> for NotMade {
    fn from(refused: Refused) -> NotMade {
        NotMade::Undeclared(refused)
    }
}

/// The world of tables whose modules bind nothing, with declarations made in it: each module binds what the
/// declarations say that go to it.
pub fn declared(
    alloc: Global,
    tables: WorldBuilder,
    declarations: Vec<(ModuleId, Name, ModuleDefId)>,
) -> Result<(World, PerNsGlobImports), NotMade>
    requires { (m : ModuleId) → scope_of tables m ≡ no_scope }
    ensures { IfOk result (λ made. (m : ModuleId) →
        Shows (scope_of made.0 m) made.1 m (pushes_to m declarations.items)) }
{
    let mut world = match tables.check() {
        Ok(world) => world,
        Err((_tables, fault)) => return Err(NotMade::Dangling(fault)),
    };
    let mut globs = PerNsGlobImports::new(alloc);
    for (m, name, def) in declarations {
        declare_type(&mut world, &mut globs, (m, name), def)?;
    }
    Ok((world, globs))
}
