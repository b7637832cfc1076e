//! The preludes of a graph's crates, set in a builder where all of them are filled.
ghost use Rattle.std.specs.Prelude.{◌≡◌, IfErr, IfOk, OnOk, false, length, slice_get};
ghost use Rattle.crate_tables.specs.CrateFillings as spec;
ghost use Rattle.crate_tables.specs.StandardPreludes.{own_map};
ghost use Rattle.dm_maps.specs.Added.{IsGrown};
ghost use Rattle.dm_maps.specs.BuildMaps.{lacks_map};
ghost use Rattle.dm_maps.specs.declared.build_fault.BuildFault.TheVariants.{OutOfMemory};

use crate::crate_table::CrateTable;
use crate::prelude_imports::{CrateLists, Importer, named_prelude};
use crate::standard_prelude::{set_crate_prelude, standard_prelude, unnamed};
use crate_items::files::crate_data::CrateData;
use crate_items::files::crate_graph::CrateGraph;
use crate_items::files::file_table::FileTable;
use crate_items::items::crate_attributes::crate_attributes;
use crate_items::modules::CrateModules;
use dm_base::ids::{Crate, ModuleId, UseId};
use dm_maps::build_fault::BuildFault;
use dm_maps::builder::WorldBuilder;
use std::alloc::{AllocError, Global};

/// A prelude that is named, or else the standard one.
fn or_standard(
    crates: &CrateLists<'_>,
    importer: &Importer<'_>,
    named: Option<(ModuleId, Option<UseId>)>,
) -> Option<(ModuleId, Option<UseId>)>
    ensures { result ≡ spec.or_standard crates.now importer.now named }
{
    match named {
        Some(prelude) => Some(prelude),
        None => unnamed(standard_prelude(
            crates.lists,
            crates.tables,
            importer.edition,
            importer.attributes,
            importer.dependencies,
        )),
    }
}

/// The prelude of a crate, by the list of its modules and its table.
fn prelude_by(
    alloc: Global,
    crates: &CrateLists<'_>,
    krate: Crate,
    described: &CrateData,
    files: &FileTable,
    list: &CrateModules,
    table: &CrateTable,
) -> Result<Option<(ModuleId, Option<UseId>)>, AllocError>
    ensures { IfOk result (λ prelude. prelude ≡ spec.prelude_from crates.now
        (spec.importer_of files.now krate described.now list.now) list.now table.now) }
{
    let attributes = crate_attributes(alloc, list, files, described.root_file_id())?;
    let importer = Importer {
        krate,
        edition: described.edition(),
        attributes: attributes.as_slice(),
        dependencies: described.dependencies(),
    };
    let named = named_prelude(alloc, crates, &importer, list, table)?;
    Ok(or_standard(crates, &importer, named))
}

/// The same of a crate of a number; none, where its modules are not listed.
fn prelude_of(
    alloc: Global,
    crates: &CrateLists<'_>,
    krate: Crate,
    described: &CrateData,
    files: &FileTable,
) -> Result<Option<(ModuleId, Option<UseId>)>, AllocError>
    ensures { IfOk result (λ prelude. prelude ≡ spec.prelude_of files.now crates.now krate described.now
        (slice_get crates.now.lists krate.0) (slice_get crates.now.tables krate.0)) }
{
    let number = krate.0 as usize;
    match (crates.lists.get(number), crates.tables.get(number)) {
        (Some(list), Some(table)) => {
            let prelude = prelude_by(alloc, crates, krate, described, files, list, table)?;
            Ok(prelude)
        }
        _ => Ok(None),
    }
}

/// Sets the prelude of the crate of a number.
fn set_next(
    builder: &mut WorldBuilder,
    alloc: Global,
    crates: &CrateLists<'_>,
    krate: Crate,
    described: &CrateData,
    files: &FileTable,
) -> Result<(), BuildFault>
    requires { lacks_map builder.old (own_map krate) ≡ false }
    ensures world { OnOk result (builder.new ≡ spec.with_prelude_of files.now crates.now.lists crates.now.tables
        krate described.now builder.old) }
    ensures grown { IsGrown builder.old builder.new }
    ensures fault { IfErr result (λ fault. fault ≡ OutOfMemory) }
{
    let prelude = prelude_of(alloc, crates, krate, described, files)?;
    set_crate_prelude(builder, krate, prelude)
}

/// Sets the prelude of each crate of a graph, by the modules and the tables of all of them.
pub(crate) fn set_preludes(
    builder: &mut WorldBuilder,
    alloc: Global,
    lists: &[CrateModules],
    tables: &[CrateTable],
    graph: &CrateGraph,
    files: &FileTable,
) -> Result<(), BuildFault>
    requires maps { spec.HasMaps builder.old (length graph.now) }
    ensures world { OnOk result (builder.new ≡
        spec.with_preludes_from files.now lists.now tables.now 0 graph.now builder.old) }
    ensures grown { IsGrown builder.old builder.new }
    ensures fault { IfErr result (λ fault. fault ≡ OutOfMemory) }
{
    let crates = CrateLists { lists, tables };
    for (number, described) in graph.crates().iter().enumerate() {
        let krate = graph.crate_at(number);
        set_next(builder, alloc, &crates, krate, described, files)?;
    }
    Ok(())
}
