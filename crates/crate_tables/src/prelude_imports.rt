//! The preludes that crates name by `#[prelude_import]`.
ghost use Rattle.std.specs.Prelude.{◌≡◌, IfOk, None, Some, slice_get};
ghost use Rattle.std.specs.List.{find, list_any};
ghost use Rattle.std.specs.Option.{option_copied, option_map};
ghost use Rattle.crate_tables.specs.PreludeImports as spec;

use crate::crate_table::CrateTable;
use crate::item_place::UsePlace;
use crate::standard_prelude::{crate_named, id_in};
use crate::use_leaf::UseLeaf;
use crate_items::files::crate_data::CrateData;
use crate_items::files::dependency::Dependency;
use crate_items::items::crate_attributes::CrateAttribute;
use crate_items::items::item_attributes::attributes_at;
use crate_items::modules::CrateModules;
use crate_items::modules::prelude_module::module_behind;
use dm_base::ids::{Crate, ModuleId, UseId};
use dm_base::mod_path::{ModPath, PathKind};
use dm_base::name::Name;
use dm_base::source::Edition;
use item_tree::attributes::attribute_kind::AttributeKind;
use item_tree::items::imports::ImportKind;
use std::alloc::{AllocError, Global};
use std::marker::Model;

/// The crates among which preludes are looked for: the modules of each and what it has there, by its number.
#[derive(Drop)]
pub(crate) struct CrateLists<'a> {
    pub(crate) lists: &'a [CrateModules],
    pub(crate) tables: &'a [CrateTable],
}

impl<'a> Model for CrateLists<'a> {
    ghost use Rattle.crate_tables.specs.PreludeImports.{Lists};

    ghost Value = { Lists };

    ghost view = { λ c. record { lists = c.lists.now; tables = c.tables.now } };
}

/// A crate that names a prelude, and what it sees of others.
#[derive(Drop)]
pub(crate) struct Importer<'a> {
    pub(crate) krate: Crate,
    pub(crate) edition: Edition,
    pub(crate) attributes: &'a [CrateAttribute],
    pub(crate) dependencies: &'a [Dependency],
}

impl<'a> Model for Importer<'a> {
    ghost use Rattle.crate_tables.specs.PreludeImports.{Importer};

    ghost Value = { Importer };

    ghost view = { λ c. record {
      krate = c.krate;
      edition = c.edition;
      attributes = c.attributes.now;
      dependencies = c.dependencies.now;
    } };
}

fn is_prelude_import(kind: AttributeKind) -> bool
    ensures { result ≡ spec.is_prelude_import kind }
{
    matches!(kind, AttributeKind::PreludeImport)
}

fn any_prelude_import(kinds: &[AttributeKind]) -> bool
    ensures { result ≡ list_any spec.is_prelude_import kinds.now }
{
    kinds.iter().any(|kind| is_prelude_import(*kind))
}

fn is_glob(kind: ImportKind) -> bool
    ensures { result ≡ spec.is_glob kind }
{
    matches!(kind, ImportKind::Glob)
}

/// Whether a leaf is a glob of a use, in the root of a crate.
fn is_root_glob(krate: Crate, use_: UseId, leaf: &UseLeaf) -> bool
    ensures { result ≡ spec.is_root_glob krate use_ leaf.now }
{
    leaf.use_.0 == use_.0 && leaf.home.0 == krate.0 && is_glob(leaf.import.kind)
}

/// The module that names lead down to from the root of a crate.
fn behind_root(crates: &CrateLists<'_>, krate: Crate, names: &[Name]) -> Option<ModuleId>
    ensures { result ≡ spec.behind_root crates.now krate names.now }
{
    match crates.lists.get(krate.0 as usize) {
        None => None,
        Some(list) => id_in(
            crates.tables,
            krate,
            module_behind(list.modules(), 0, names),
        ),
    }
}

/// The same where the crate is a dependency, which the first name names.
fn in_dependency(
    crates: &CrateLists<'_>,
    importer: &Importer<'_>,
    names: &[Name],
) -> Option<ModuleId>
    ensures { result ≡ spec.in_dependency crates.now importer.now names.now }
{
    match names.split_first() {
        None => None,
        Some((first, rest)) => {
            let bytes = first.as_str().as_bytes();
            let krate = crate_named(importer.attributes, importer.dependencies, bytes)?;
            behind_root(crates, krate, rest)
        }
    }
}

/// The module of names that may begin in the root of the crate or with a dependency.
fn in_either(crates: &CrateLists<'_>, importer: &Importer<'_>, names: &[Name]) -> Option<ModuleId>
    ensures { result ≡ spec.in_either crates.now importer.now names.now }
{
    match behind_root(crates, importer.krate, names) {
        Some(m) => Some(m),
        None => in_dependency(crates, importer, names),
    }
}

/// The module that names behind `::` lead to.
fn behind_colons(
    crates: &CrateLists<'_>,
    importer: &Importer<'_>,
    names: &[Name],
) -> Option<ModuleId>
    ensures { result ≡ spec.behind_colons crates.now importer.now importer.now.edition names.now }
{
    match importer.edition {
        Edition::Edition2015 => in_either(crates, importer, names),
        _ => in_dependency(crates, importer, names),
    }
}

/// The module that a path in the root of a crate leads to, along modules that are written.
fn written_module(
    crates: &CrateLists<'_>,
    importer: &Importer<'_>,
    path: &ModPath,
) -> Option<ModuleId>
    ensures { result ≡ spec.written_module crates.now importer.now path.now.kind path.now.segments }
{
    match path.kind() {
        PathKind::Plain => in_either(crates, importer, path.segments()),
        PathKind::Abs => behind_colons(crates, importer, path.segments()),
        PathKind::Crate | PathKind::Super(0) => {
            behind_root(crates, importer.krate, path.segments())
        }
        _ => None,
    }
}

/// The first of some leaves that is a glob of a use, in the root of a crate.
fn root_glob(leaves: &[UseLeaf], krate: Crate, use_: UseId) -> Option<&UseLeaf>
    ensures { option_copied result ≡ find (spec.is_root_glob krate use_) leaves.now }
{
    leaves.iter().find(|leaf| is_root_glob(krate, use_, leaf))
}

/// A prelude that a use names, if there is one.
fn with_use(prelude: Option<ModuleId>, use_: UseId) -> Option<(ModuleId, Option<UseId>)>
    ensures { result ≡ option_map (spec.with_use use_) prelude }
{
    match prelude {
        None => None,
        Some(m) => Some((m, Some(use_))),
    }
}

/// The prelude that the glob of a use names, if it leads to a module.
fn named_by_use(
    crates: &CrateLists<'_>,
    importer: &Importer<'_>,
    leaves: &[UseLeaf],
    use_: UseId,
) -> Option<(ModuleId, Option<UseId>)>
    ensures { result ≡ spec.named_by_use crates.now importer.now leaves.now use_ }
{
    match root_glob(leaves, importer.krate, use_) {
        None => None,
        Some(leaf) => with_use(written_module(crates, importer, &leaf.import.path), use_),
    }
}

/// The prelude that the use at a place names, if it stands under `#[prelude_import]`.
fn named_at(
    alloc: Global,
    crates: &CrateLists<'_>,
    importer: &Importer<'_>,
    list: &CrateModules,
    leaves: &[UseLeaf],
    place: UsePlace,
) -> Result<Option<(ModuleId, Option<UseId>)>, AllocError>
    ensures { IfOk result (λ named. named ≡
        spec.named_at crates.now importer.now list.now leaves.now place) }
{
    let kinds = attributes_at(alloc, list, place.file, place.item)?;
    if any_prelude_import(kinds.as_slice()) {
        Ok(named_by_use(crates, importer, leaves, place.use_))
    } else {
        Ok(None)
    }
}

/// The later of two preludes that are named.
fn later(
    before: Option<(ModuleId, Option<UseId>)>,
    next: Option<(ModuleId, Option<UseId>)>,
) -> Option<(ModuleId, Option<UseId>)>
    ensures { result ≡ spec.later before next }
{
    match next {
        None => before,
        Some(named) => Some(named),
    }
}

/// The prelude that the uses of a crate name, and the use that does. Of two the later counts.
pub(crate) fn named_prelude(
    alloc: Global,
    crates: &CrateLists<'_>,
    importer: &Importer<'_>,
    list: &CrateModules,
    table: &CrateTable,
) -> Result<Option<(ModuleId, Option<UseId>)>, AllocError>
    ensures { IfOk result (λ named. named ≡
        spec.named_among crates.now importer.now list.now table.now.leaves None table.now.uses) }
{
    let mut named = None;
    for place in table.uses() {
        let next = named_at(alloc, crates, importer, list, table.leaves(), *place)?;
        named = later(named, next);
    }
    Ok(named)
}
