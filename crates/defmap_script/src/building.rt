//! Runs the lines that add to a builder. Where one fails, the run ends.
ghost use Rattle.std.specs.Prelude.{◌≡◌};
ghost use Rattle.std.specs.Option.{option_map_or};
ghost use Rattle.defmap_script.specs.Faults.{build_fault};
ghost use Rattle.defmap_script.specs.declared.fault.Fault.TheVariants.{OutOfMemory};
ghost use Rattle.defmap_script.specs.BuildLines.{added, NewCrate, NewModule, NewBlock, NewUse, NewItem, NewVariant, NewMacro, NewPrelude, NewMacroUse, NewExtern, NewLegacy, NewRaw, NewRules};
ghost use Rattle.defmap_script.specs.Building.{added_to, ast_of, crate_of_block, inline, map_id, own_file, Leaves};

use crate::build_lines::Addition;
use crate::build_words::MapName;
use crate::fault::Fault;
use dm_base::fields_shape::FieldsShape;
use dm_base::ids::{BlockId, Crate, EnumId, ExternCrateId, FileAstId, FileId, MapId, ModuleId};
use dm_base::item_ids::{ItemKind, MacroId};
use dm_base::macros::MacroLoc;
use dm_base::name::Name;
use dm_base::source::{AstId, Edition, EditionedFileId, HirFileId, TreeId};
use dm_base::visibility::Visibility;
use dm_maps::build_fault::BuildFault;
use dm_maps::builder::WorldBuilder;
use dm_maps::check::held::HeldId;
use dm_maps::check::known_ids::KnownIds;
use dm_maps::module_origin::ModuleOrigin;
use dm_maps::rules::Rules;
use std::alloc::Global;

/// The fault of a line whose name cannot be allocated: out of memory is reported only where there is no other fault.
fn refusal(fault: Option<BuildFault>) -> Fault
    ensures { result ≡ option_map_or build_fault fault OutOfMemory }
{
    match fault {
        None => Fault::OutOfMemory,
        Some(fault) => Fault::from(fault),
    }
}

/// Adds what a line adds. Out of memory is reported only where there is no other fault.
pub(crate) fn add(
    builder: &mut WorldBuilder,
    alloc: Global,
    addition: Addition<'_>,
) -> Result<(), Fault>
    ensures { Leaves (added_to builder.old (added addition.entry)) result builder.new }
{
    match addition {
        Addition::Crate { edition, file } => add_crate(builder, edition, file),
        Addition::Module {
            parent,
            name,
            visibility,
        } => add_module(builder, alloc, parent, name, visibility),
        Addition::Block { containing, block } => add_block(builder, containing, block),
        Addition::Use { module } => add_use(builder, module),
        Addition::Item { kind, module } => add_item(builder, kind, module),
        Addition::Variant { of, name, shape } => add_variant(builder, alloc, of, name, shape),
        Addition::Macro { module, loc } => add_macro(builder, module, loc),
        Addition::Prelude { map, module } => set_prelude(builder, map, module),
        Addition::MacroUse { map, name, id, by } => add_macro_use(
            builder, alloc, map, name, id, by,
        ),
        Addition::Extern {
            krate,
            name,
            module,
            by,
        } => add_extern(builder, alloc, krate, name, module, by),
        Addition::Legacy { module, name, id } => define_legacy(builder, alloc, module, name, id),
        Addition::Raw { name } => add_raw_name(builder, alloc, name),
        Addition::Rules { version } => set_rules(builder, version),
    }
}

fn add_crate(builder: &mut WorldBuilder, edition: Edition, file: FileId) -> Result<(), Fault>
    ensures { Leaves (added_to builder.old (NewCrate edition file)) result builder.new }
{
    builder.add_crate(edition, EditionedFileId { file, edition })?;
    Ok(())
}

fn add_module(
    builder: &mut WorldBuilder,
    alloc: Global,
    parent: ModuleId,
    name: &str,
    visibility: Visibility,
) -> Result<(), Fault>
    ensures { Leaves (added_to builder.old (NewModule parent name.now visibility)) result builder.new }
{
    let name = match Name::new(alloc, name) {
        Ok(name) => name,
        Err(_refused) => return Err(refusal(builder.child_fault(parent, name))),
    };
    builder.add_module(parent, name, inline(), visibility)?;
    Ok(())
}

/// The file that contains the modules and blocks of a script, of edition 2021.
fn own_file() -> HirFileId
    ensures { result ≡ own_file }
{
    HirFileId::File(EditionedFileId {
        file: FileId(0),
        edition: Edition::Edition2021,
    })
}

/// The origin of a script's modules: they are inline.
fn inline() -> ModuleOrigin
    ensures { result ≡ inline }
{
    ModuleOrigin::Inline {
        definition_tree_id: TreeId {
            file: own_file(),
            block: None,
        },
        definition: FileAstId(0),
    }
}

fn add_block(
    builder: &mut WorldBuilder,
    containing: ModuleId,
    block: FileAstId,
) -> Result<(), Fault>
    ensures { Leaves (added_to builder.old (NewBlock containing block)) result builder.new }
{
    builder.add_block(containing, ast_of(block))?;
    Ok(())
}

/// Where a block of a script is written.
fn ast_of(block: FileAstId) -> AstId
    ensures { result ≡ ast_of block }
{
    AstId {
        file_id: own_file(),
        value: block,
    }
}

fn add_use(builder: &mut WorldBuilder, m: ModuleId) -> Result<(), Fault>
    ensures { Leaves (added_to builder.old (NewUse m)) result builder.new }
{
    builder.add_use(m)?;
    Ok(())
}

fn add_item(builder: &mut WorldBuilder, kind: ItemKind, m: ModuleId) -> Result<(), Fault>
    ensures { Leaves (added_to builder.old (NewItem kind m)) result builder.new }
{
    builder.add_item(kind, m)?;
    Ok(())
}

fn add_variant(
    builder: &mut WorldBuilder,
    alloc: Global,
    of: EnumId,
    name: &str,
    shape: FieldsShape,
) -> Result<(), Fault>
    ensures { Leaves (added_to builder.old (NewVariant of name.now shape)) result builder.new }
{
    let name = match Name::new(alloc, name) {
        Ok(name) => name,
        Err(_refused) => return Err(refusal(builder.variant_fault(of, name))),
    };
    builder.add_variant(of, name, shape)?;
    Ok(())
}

fn add_macro(builder: &mut WorldBuilder, m: ModuleId, loc: MacroLoc) -> Result<(), Fault>
    ensures { Leaves (added_to builder.old (NewMacro m loc)) result builder.new }
{
    builder.add_macro(m, loc)?;
    Ok(())
}

/// The id of a map; where there is no such block, one that no map has.
fn map_id(builder: &WorldBuilder, map: MapName) -> MapId
    ensures { result ≡ map_id builder.now map }
{
    match map {
        MapName::Crate(krate) => MapId { krate, block: None },
        MapName::Block(b) => MapId {
            krate: crate_of_block(builder, b),
            block: Some(b),
        },
    }
}

/// The crate that a block lies in; the first, where there is no such block.
fn crate_of_block(builder: &WorldBuilder, b: BlockId) -> Crate
    ensures { result ≡ crate_of_block builder.now b }
{
    match builder.block_map(b) {
        None => Crate(0),
        Some(map) => map.krate(),
    }
}

fn set_prelude(builder: &mut WorldBuilder, map: MapName, m: ModuleId) -> Result<(), Fault>
    ensures { Leaves (added_to builder.old (NewPrelude map m)) result builder.new }
{
    let id = map_id(builder, map);
    builder.set_prelude(id, Some((m, None)))?;
    Ok(())
}

fn add_macro_use(
    builder: &mut WorldBuilder,
    alloc: Global,
    map: MapName,
    name: &str,
    id: MacroId,
    by: Option<ExternCrateId>,
) -> Result<(), Fault>
    ensures { Leaves (added_to builder.old (NewMacroUse map name.now id by)) result builder.new }
{
    let map = map_id(builder, map);
    let name = match Name::new(alloc, name) {
        Ok(name) => name,
        Err(refused) if !builder.lacks_map(map) => return Err(Fault::from(refused)),
        Err(_) => return Err(Fault::Build(BuildFault::NoSuchCrate)),
    };
    builder.add_macro_use(map, name, id, by)?;
    Ok(())
}

fn add_extern(
    builder: &mut WorldBuilder,
    alloc: Global,
    krate: Crate,
    name: &str,
    m: ModuleId,
    by: Option<ExternCrateId>,
) -> Result<(), Fault>
    ensures { Leaves (added_to builder.old (NewExtern krate name.now m by)) result builder.new }
{
    let name = match Name::new(alloc, name) {
        Ok(name) => name,
        Err(refused) if builder.knows(HeldId::Crate(krate)) => return Err(Fault::from(refused)),
        Err(_) => return Err(Fault::Build(BuildFault::NoSuchCrate)),
    };
    builder.add_extern(krate, name, m, by)?;
    Ok(())
}

/// Defines a legacy macro in the scope of a module of the builder.
fn define_legacy(
    builder: &mut WorldBuilder,
    alloc: Global,
    m: ModuleId,
    name: &str,
    id: MacroId,
) -> Result<(), Fault>
    ensures { Leaves (added_to builder.old (NewLegacy m name.now id)) result builder.new }
{
    let Some(scope) = builder.scope_mut(m) else {
        return Err(Fault::Unknown);
    };
    let name = Name::new(alloc, name)?;
    scope.define_legacy_macro(name, id)?;
    Ok(())
}

fn add_raw_name(builder: &mut WorldBuilder, alloc: Global, name: &str) -> Result<(), Fault>
    ensures { Leaves (added_to builder.old (NewRaw name.now)) result builder.new }
{
    let name = Name::new(alloc, name)?;
    builder.add_raw_name(name)?;
    Ok(())
}

fn set_rules(builder: &mut WorldBuilder, version: Rules) -> Result<(), Fault>
    ensures { Leaves (added_to builder.old (NewRules version)) result builder.new }
{
    builder.set_rules(version);
    Ok(())
}
