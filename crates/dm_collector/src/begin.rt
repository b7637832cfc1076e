//! Crates, before anything is imported: their files are read, and their modules and items declared in one world.
ghost use Rattle.std.specs.Prelude.{◌≡◌, [], All, IfErr, IfOk, OnOk, map};
ghost use Rattle.std.specs.List.{flat_map, list_any};
ghost use Rattle.std.specs.Map.{lookup};
ghost use Rattle.crate_items.specs.CrateGraphs.{Graph};
ghost use Rattle.crate_tables.specs.AssocItems.{AreAllAdded};
ghost use Rattle.crate_tables.specs.CrateFillings.{AreFilled, IsKnownTable, Reading as Given};
ghost use Rattle.crate_tables.specs.CrateTables.{HasKnownDefs, Table, emptied};
ghost use Rattle.crate_tables.specs.DeclaredWorlds.{AreShown, BindNothing, with_all_declared};
ghost use Rattle.dm_base.specs.Tree.{same_module};
ghost use Rattle.dm_base.specs.declared.ids.EnumId.{EnumId as Id};
ghost use Rattle.dm_base.specs.declared.ids.EnumVariantId.{EnumVariantId as VariantId};
ghost use Rattle.dm_base.specs.declared.ids.ModuleId.{ModuleId as IdOfModule};
ghost use Rattle.dm_collector.specs.BareModules.{all_bare, is_among};
ghost use Rattle.dm_collector.specs.CollectFaults.{IsFault};
ghost use Rattle.dm_collector.specs.Collecting as spec;
ghost use Rattle.dm_collector.specs.Constructors.{constructor_vis, constructors};
ghost use Rattle.dm_collector.specs.Enums.{enum_vis};
ghost use Rattle.dm_collector.specs.Leaves.{globs_of, imports_of};
ghost use Rattle.dm_collector.specs.MacroUses.{macro_uses};
ghost use Rattle.dm_collector.specs.PreludeGlobs.{unless_named};
ghost use Rattle.dm_collector.specs.declared.collect_fault.CollectFault.TheVariants as faults;
ghost use Rattle.dm_def_map.specs.Variants.{same_enum};
ghost use Rattle.dm_imports.specs.Declarations.{same_variant};
ghost use Rattle.dm_maps.specs.First.{IsChecked};
ghost use Rattle.dm_scope.specs.Flags.{no_globs};

use crate::bare_modules::bare_set;
use crate::collect_fault::{CollectFault, of_builder, of_filling};
use crate::collected::Collected;
use crate::constructors::constructor_visibilities;
use crate::enums::enum_visibilities;
use crate::leaves::split;
use crate::macro_uses::{MacroUses, macro_uses};
use crate::prelude_globs::bringing_names;
use crate_items::files::crate_graph::CrateGraph;
use crate_items::modules::CrateModules;
use crate_tables::assoc_items::filling::{AssocPlace, add_assoc_items};
use crate_tables::crate_filling::{FilledCrates, Reading, filled};
use crate_tables::crate_table::CrateTable;
use crate_tables::declared_world::declared_world;
use crate_tables::extern_crates::ExternCrateRow;
use crate_tables::table_parts::table_parts;
use dm_base::ids::EnumId;
use dm_base::visibility::Visibility;
use dm_imports::declarations::Declarations;
use dm_imports::glob_import::GlobImport;
use dm_imports::named_import::NamedImport;
use dm_imports::slots::Slots;
use dm_maps::builder::WorldBuilder;
use dm_maps::world::World;
use dm_scope::glob_imports::PerNsGlobImports;
use indexmap::IndexMap;
use std::alloc::{AllocError, Global};

/// A world in which crates declare what they do, what they import, and their tables without names and leaves of uses.
#[derive(Drop)]
struct Declared {
    world: World,
    flags: PerNsGlobImports,
    imports: Vec<NamedImport>,
    globs: Vec<GlobImport>,
    enums: IndexMap<EnumId, Visibility>,
    rest: Vec<CrateTable>,
}

/// The world of some tables, with what crates declare, and what they import.
fn declare(
    alloc: Global,
    builder: WorldBuilder,
    tables: Vec<CrateTable>,
) -> Result<Declared, AllocError>
    requires checked { IsChecked builder }
    requires known { All (IsKnownTable builder) tables.items }
    requires empty { BindNothing builder }
    ensures world { IfOk result (λ made. (record { world = made.world; globs = made.flags }) ≡
        with_all_declared (record { world = builder; globs = no_globs }) (spec.names_of tables.items)) }
    ensures declared { IfOk result (λ made. AreShown made.world made.flags (spec.names_of tables.items)) }
    ensures imports { IfOk result
        (λ made. made.imports.items ≡ flat_map imports_of (spec.leaves_of tables.items)) }
    ensures globs { IfOk result (λ made. made.globs.items ≡ flat_map (unless_named made.world)
        (flat_map globs_of (spec.leaves_of tables.items))) }
    ensures enums { IfOk result (λ made. (e : Id) → lookup (same_enum e) made.enums.entries
        ≡ enum_vis (spec.names_of tables.items) e) }
    ensures rest { IfOk result (λ made. made.rest.items ≡ map emptied tables.items) }
{
    let parts = table_parts(alloc, tables)?;
    let names = parts.names;
    let (world, flags) = declared_world(alloc, builder, names.as_slice())?;
    let leaves = split(alloc, parts.leaves)?;
    let globs = bringing_names(alloc, &world, leaves.globs)?;
    let enums = enum_visibilities(alloc, names.as_slice())?;
    Ok(Declared {
        world,
        flags,
        imports: leaves.imports,
        globs,
        enums,
        rest: parts.rest,
    })
}

/// What of the declarations of crates paths go by, where these see their enums.
fn declarations_of(
    alloc: Global,
    graph: &CrateGraph,
    reading: &Reading<'_>,
    lists: &[CrateModules],
    world: &World,
    tables: &[CrateTable],
    enums: IndexMap<EnumId, Visibility>,
) -> Result<Declarations, CollectFault>
    ensures enums { IfOk result (λ made. made.enums ≡ enums.entries) }
    ensures constructors { IfOk result (λ made. (v : VariantId) → lookup (same_variant v) made.constructors
        ≡ constructor_vis (constructors world.now reading.now.files lists.now tables.now 0 graph.now) v) }
    ensures bare { IfOk result (λ made. (m : IdOfModule) → list_any (same_module m) made.bare_modules
        ≡ is_among (all_bare lists.now 0 tables.now) m) }
    ensures memory { IfErr result (λ fault. fault ≡ faults.OutOfMemory) }
{
    let files = reading.files;
    let constructors = constructor_visibilities(alloc, world, graph, files, lists, tables)?;
    let bare_modules = bare_set(alloc, lists, tables)?;
    Ok(Declarations {
        enums,
        constructors,
        bare_modules,
    })
}

/// The crates of a graph, filled.
fn tables_of(
    alloc: Global,
    graph: &CrateGraph,
    reading: &Reading<'_>,
) -> Result<FilledCrates, CollectFault>
    ensures filled { IfOk result (λ made. AreFilled reading.now graph.now
        (record { world = made.builder; lists = made.lists.items; tables = made.tables.items; rows = made.externs.items })) }
    ensures known { IfOk result (λ made. All (IsKnownTable made.builder) made.tables.items) }
    ensures checked { IfOk result (λ made. IsChecked made.builder) }
    ensures defs { IfOk result (λ made. All (HasKnownDefs made.builder) made.tables.items) }
    ensures empty { IfOk result (λ made. BindNothing made.builder) }
    ensures fault { IfErr result (IsFault reading.now graph.now) }
{
    match filled(alloc, graph, reading) {
        Err(fault) => Err(of_filling(fault)),
        Ok(filled) => Ok(filled),
    }
}

/// Adds the associated items of crates that are filled.
fn add_items(
    builder: &mut WorldBuilder,
    alloc: Global,
    reading: &Reading<'_>,
    lists: &[CrateModules],
    tables: &[CrateTable],
) -> Result<Vec<AssocPlace>, CollectFault>
    ensures added { IfOk result (λ places. AreAllAdded reading.now.files lists.now 0 0 tables.now
        (record { world = builder.old; places = [] })
        (record { world = builder.new; places = places.items })) }
    ensures known { (t : Table) → IsKnownTable builder.old t → IsKnownTable builder.new t }
    ensures empty { BindNothing builder.old → BindNothing builder.new }
    ensures checked { OnOk result
        (IsChecked builder.old → All (HasKnownDefs builder.old) tables.now → IsChecked builder.new) }
    ensures fault { IfErr result (λ fault. (r : Given) (g : Graph) → IsFault r g fault) }
{
    match add_assoc_items(builder, alloc, reading.files, lists, tables) {
        Ok(places) => Ok(places),
        Err(fault) => Err(of_builder(fault)),
    }
}

/// The roots that each crate of a graph has macros from.
fn uses_of(
    alloc: Global,
    graph: &CrateGraph,
    reading: &Reading<'_>,
    lists: &[CrateModules],
    rows: &[ExternCrateRow],
) -> Result<Vec<MacroUses>, CollectFault>
    ensures uses { IfOk result (λ uses. uses.items ≡
        macro_uses reading.now.files lists.now rows.now 0 graph.now) }
    ensures memory { IfErr result (λ fault. fault ≡ faults.OutOfMemory) }
{
    let uses = macro_uses(alloc, graph, reading.files, lists, rows)?;
    Ok(uses)
}

/// Crates as they are collected, before anything is imported.
pub(crate) fn begin(
    alloc: Global,
    graph: &CrateGraph,
    reading: &Reading<'_>,
) -> Result<Collected, CollectFault>
    ensures begun { IfOk result (λ begun. spec.IsBegun reading.now graph.now (spec.kept_in begun) (spec.given_in begun)
        (spec.state_of begun)) }
    ensures fault { IfErr result (IsFault reading.now graph.now) }
{
    let made = tables_of(alloc, graph, reading)?;
    let FilledCrates {
        builder: filled,
        lists,
        tables,
        externs,
    } = made;
    let mut builder = filled;
    let assocs = add_items(
        &mut builder,
        alloc,
        reading,
        lists.as_slice(),
        tables.as_slice(),
    )?;
    let declared = declare(alloc, builder, tables)?;
    let Declared {
        world,
        flags,
        imports,
        globs,
        enums,
        rest,
    } = declared;
    let uses = uses_of(alloc, graph, reading, lists.as_slice(), externs.as_slice())?;
    let declarations = declarations_of(
        alloc,
        graph,
        reading,
        lists.as_slice(),
        &world,
        rest.as_slice(),
        enums,
    )?;
    Ok(Collected {
        world,
        flags,
        imports,
        globs,
        declarations,
        ambiguous: Slots::new(alloc),
        order_dependent: Slots::new(alloc),
        meanings: Vec::new(alloc),
        uses,
        is_supported: false,
        is_settled: false,
        lists,
        tables: rest,
        externs,
        assocs,
    })
}
