//! A small world: a crate with the modules `a`, `b` and `c` in its root, and in each module a struct, 0 to 3, a function, 4
//! to 7, and a trait, 8 to 11.
use dm_base::ids::{FileAstId, FileId, MacroCallId, ModuleId};
use dm_base::item_ids::{ItemKind, ModuleDefId};
use dm_base::name::Name;
use dm_base::per_ns::PerNs;
use dm_base::source::{Edition, EditionedFileId, HirFileId, TreeId};
use dm_base::visibility::Visibility;
use dm_maps::builder::WorldBuilder;
use dm_maps::module_origin::ModuleOrigin;
use dm_maps::world::World;
use dm_scope::glob_imports::PerNsGlobImports;
use std::alloc::Global;

const ROOT: ModuleId = ModuleId(0);

/// The modules in the root, each with its name there.
const CHILDREN: [(ModuleId, &'static str); 3] = [
    (ModuleId(1), "a"),
    (ModuleId(2), "b"),
    (ModuleId(3), "c"),
];

/// In a macro expansion, so that no module needs a file.
const EXPANDED: ModuleOrigin = ModuleOrigin::Inline {
    definition_tree_id: TreeId {
        file: HirFileId::Macro(MacroCallId(0)),
        block: None,
    },
    definition: FileAstId(0),
};

/// The crate and its modules.
fn modules(alloc: Global) -> Option<WorldBuilder> {
    let mut builder = WorldBuilder::new(alloc);
    let file = EditionedFileId {
        file: FileId(0),
        edition: Edition::Edition2021,
    };
    builder.add_crate(Edition::Edition2021, file).ok()?;
    for (_m, name) in CHILDREN {
        let name = Name::new(alloc, name).ok()?;
        builder
            .add_module(ROOT, name, EXPANDED, Visibility::Public)
            .ok()?;
    }
    Some(builder)
}

/// Adds an item of a kind in each module.
fn add_items(builder: &mut WorldBuilder, kind: ItemKind) -> Option<()> {
    for m in 0..4u32 {
        builder.add_item(kind, ModuleId(m)).ok()?;
    }
    Some(())
}

/// With a use in the root, and the items.
fn tables(alloc: Global) -> Option<WorldBuilder> {
    let mut builder = modules(alloc)?;
    builder.add_use(ROOT).ok()?;
    for kind in [ItemKind::Struct, ItemKind::Function, ItemKind::Trait] {
        add_items(&mut builder, kind)?;
    }
    Some(builder)
}

/// Declares a module in the root.
fn declare(
    world: &mut World,
    globs: &mut PerNsGlobImports,
    name: Name,
    m: ModuleId,
) -> Option<bool> {
    let items = PerNs::types(ModuleDefId::ModuleId(m), Visibility::Public, None);
    if !world.knows_res(ROOT, &items, None) {
        return None;
    }
    world.push_res(globs, (ROOT, name), items, None).ok()
}

/// The world, whose root binds the modules; none where an allocation fails.
pub(crate) fn small_world(alloc: Global, globs: &mut PerNsGlobImports) -> Option<World> {
    let mut world = tables(alloc)?.check().ok()?;
    for (m, name) in CHILDREN {
        let name = Name::new(alloc, name).ok()?;
        declare(&mut world, globs, name, m)?;
    }
    Some(world)
}
