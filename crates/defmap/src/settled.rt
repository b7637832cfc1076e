//! The crates that are asked about, collected and settled.
use crate::associated::associated_items;
use crate::item_places::{all_items, def_places, use_places};
use crate::{world_modules, world_names, world_paths};
use crate_items::files::crate_graph::CrateGraph;
use crate_items::files::file_table::FileTable;
use crate_items::items::declared_item::DeclaredItem;
use crate_items::modules::CrateModules;
use crate_tables::crate_filling::Reading;
use def_diagnostics::unresolved_globs::leads_nowhere;
use defmap_answers::associated::AssociatedItem;
use defmap_answers::crates::Crates;
use defmap_answers::places::ItemPlace;
use dm_base::ids::{Crate, EnumId, EnumVariantId, ExternCrateId, ModuleId, UseId};
use dm_base::imports::ImportId;
use dm_base::item_ids::{MacroId, ModuleDefId};
use dm_base::item_in_ns::ItemModules;
use dm_base::mod_path::ModPath;
use dm_base::name::Name;
use dm_base::per_ns::{Namespace, PerNs};
use dm_base::visibility::Visibility;
use dm_collector::collect::collect;
use dm_collector::collect_fault::CollectFault;
use dm_collector::collected::Collected;
use dm_collector::unresolved_names::{list_names, names_at, unresolved_imports};
use dm_imports::container::Container;
use dm_imports::glob_import::GlobImport;
use dm_imports::meaning::Meaning;
use dm_imports::named_import::NamedImport;
use dm_imports::rules::meanings::ImportMeanings;
use dm_maps::world::World;
use hir_def_map::result::ResolvePathResult;
use indexmap::IndexMap;
use std::alloc::{AllocError, Global};

/// Crates, settled, with what tells where their items stand.
pub(crate) struct Settled {
    files: FileTable,
    items: Vec<Vec<DeclaredItem>>,
    uses: IndexMap<UseId, ItemPlace>,
    defs: IndexMap<ModuleDefId, ItemPlace>,
    pub(crate) collected: Collected,
    /// The imports that mean nothing, by their places.
    unresolved: Vec<usize>,
    /// The name of each crate.
    names: Vec<String>,
    /// Whether each crate is one of procedural macros.
    procedural: Vec<bool>,
    /// The crate that is asked about; none where all are.
    asked: Option<Crate>,
}

/// A hand-written `Drop`, to keep proofs small: what drops one has one call to prove.
impl Drop for Settled {
    fn drop(self) {
        let Settled {
            files: _files,
            items: _items,
            uses: _uses,
            defs: _defs,
            collected: _collected,
            unresolved: _unresolved,
            names: _names,
            procedural: _procedural,
            asked: _asked,
        } = self;
    }
}

/// Why there is no settled world.
#[derive(Clone, Copy)]
pub(crate) enum NotSettled {
    TooManyModules(Crate),
    /// What the crates declare does not fit together, which does not come up.
    Unfit,
    OutOfMemory,
}

impl From<AllocError> for NotSettled {
    fn from(_refused: AllocError) -> NotSettled {
        NotSettled::OutOfMemory
    }
}

fn of_fault(fault: CollectFault) -> NotSettled {
    match fault {
        CollectFault::TooManyModules(krate) => NotSettled::TooManyModules(krate),
        CollectFault::OutOfMemory => NotSettled::OutOfMemory,
        CollectFault::Cycle(_) | CollectFault::NoRootFile(_) | CollectFault::OutOfNumbers =>
            NotSettled::Unfit,
    }
}

/// The crates of a graph, collected, and the places of the imports that mean nothing. Their names are listed in their
/// modules.
pub(crate) fn world_of(
    alloc: Global,
    graph: &CrateGraph,
    reading: &Reading<'_>,
) -> Result<(Collected, Vec<usize>), NotSettled> {
    let mut collected = match collect(alloc, graph, reading) {
        Ok(collected) => collected,
        Err(fault) => return Err(of_fault(fault)),
    };
    let maps = collected.def_maps();
    let places = unresolved_imports(alloc, &maps, collected.meanings.as_slice())?;
    let names = names_at(alloc, collected.imports.as_slice(), places.as_slice())?;
    list_names(&mut collected.world, &mut collected.flags, names)?;
    Ok((collected, places))
}

/// Whether each of the first crates of a graph is one of procedural macros.
fn procedural_crates(
    alloc: Global,
    graph: &CrateGraph,
    count: usize,
) -> Result<Vec<bool>, AllocError> {
    let mut procedural = Vec::new(alloc);
    for number in 0..count {
        let id = Crate(u32::try_from(number).unwrap_or(u32::MAX));
        if graph.contains(id) {
            procedural.push(graph.get(id).is_proc_macro())?;
        } else {
            procedural.push(false)?;
        }
    }
    Ok(procedural)
}

/// What tells where the items of crates stand, and which are procedural macros.
#[derive(Drop)]
struct ItemLists {
    items: Vec<Vec<DeclaredItem>>,
    uses: IndexMap<UseId, ItemPlace>,
    defs: IndexMap<ModuleDefId, ItemPlace>,
    procedural: Vec<bool>,
}

/// That of the crates of a graph.
fn listed(
    alloc: Global,
    graph: &CrateGraph,
    files: &FileTable,
    collected: &Collected,
) -> Result<ItemLists, AllocError> {
    let lists = collected.lists.as_slice();
    Ok(ItemLists {
        items: all_items(alloc, graph, lists, files)?,
        uses: use_places(alloc, collected.tables.as_slice())?,
        defs: def_places(alloc, lists, collected.tables.as_slice())?,
        procedural: procedural_crates(alloc, graph, lists.len())?,
    })
}

impl Settled {
    /// The settled crates of a graph, with what tells where their items stand.
    pub(crate) fn of_graph(
        alloc: Global,
        graph: &CrateGraph,
        files: FileTable,
        names: Vec<String>,
        (collected, unresolved): (Collected, Vec<usize>),
        asked: Option<Crate>,
    ) -> Result<Settled, AllocError> {
        let ItemLists {
            items,
            uses,
            defs,
            procedural,
        } = listed(alloc, graph, &files, &collected)?;
        Ok(Settled {
            files,
            items,
            uses,
            defs,
            collected,
            unresolved,
            names,
            procedural,
            asked,
        })
    }

    pub(crate) fn world(&self) -> &World {
        &self.collected.world
    }
}

impl Crates for Settled {
    fn files(&self) -> &FileTable {
        &self.files
    }

    fn names(&self) -> &[String] {
        self.names.as_slice()
    }

    fn asked(&self) -> Option<Crate> {
        self.asked
    }

    fn is_procedural(&self, krate: usize) -> bool {
        self.procedural.get(krate).copied().unwrap_or(false)
    }

    fn lists(&self) -> &[CrateModules] {
        self.collected.lists.as_slice()
    }

    fn items(&self) -> &[Vec<DeclaredItem>] {
        self.items.as_slice()
    }

    fn module_ids(&self, krate: usize) -> &[Option<ModuleId>] {
        match self.collected.tables.get(krate) {
            None => &[],
            Some(table) => table.ids(),
        }
    }

    fn use_place(&self, use_: UseId) -> Option<&ItemPlace> {
        self.uses.get(&use_)
    }

    fn extern_place(&self, id: ExternCrateId) -> Option<ItemPlace> {
        let row = self.collected.externs.get(id.0 as usize)?;
        let krate = self.collected.world.module_krate(row.home)?;
        Some(ItemPlace {
            krate: krate.0 as usize,
            file: row.file,
            item: row.item,
        })
    }

    fn root_of(&self, krate: Crate) -> Option<ModuleId> {
        self.collected.world.root_of(krate)
    }

    fn is_2015(&self, krate: Crate) -> bool {
        self.collected.world.is_2015(krate)
    }

    fn naming_use(&self, krate: Crate) -> Option<(ModuleId, UseId)> {
        world_modules::naming_use(&self.collected.world, krate)
    }

    fn krate_of(&self, m: ModuleId) -> Option<Crate> {
        self.collected.world.module_krate(m)
    }

    fn map_root(&self, m: ModuleId) -> Option<ModuleId> {
        match self.collected.world.map_of(m) {
            None => None,
            Some(map) => Some(map.root_module_id()),
        }
    }

    fn parent_of(&self, m: ModuleId) -> Option<ModuleId> {
        world_modules::parent_of(&self.collected.world, m)
    }

    fn child_of(&self, m: ModuleId, name: &Name) -> Option<ModuleId> {
        world_modules::child_of(&self.collected.world, m, name)
    }

    fn child_name(&self, parent: ModuleId, m: ModuleId) -> Option<&Name> {
        world_modules::child_name(&self.collected.world, parent, m)
    }

    fn children(&self, alloc: Global, m: ModuleId) -> Result<Vec<(&Name, ModuleId)>, AllocError> {
        world_modules::children(alloc, &self.collected.world, m)
    }

    fn entries(&self, alloc: Global, m: ModuleId) -> Result<Vec<(&Name, PerNs)>, AllocError> {
        world_modules::entries(alloc, &self.collected.world, m)
    }

    fn unnamed_traits(
        &self,
        alloc: Global,
        m: ModuleId,
    ) -> Result<Vec<(Visibility, Option<ImportId>)>, AllocError> {
        world_modules::unnamed_traits(alloc, &self.collected.world, m)
    }

    fn bound_in(&self, m: ModuleId, name: &Name) -> PerNs {
        self.collected.world.bound_in(m, name)
    }

    fn depends_on_order(&self, m: ModuleId, name: &Name, namespace: Namespace) -> bool {
        let slots = &self.collected.order_dependent;
        slots.get(m, name, namespace).is_some()
    }

    fn textual_macro(&self, m: ModuleId, name: &Name) -> Option<MacroId> {
        self.collected.world.legacy_of(m, name)
    }

    fn item_home(&self, def: ModuleDefId) -> Option<ModuleId> {
        world_modules::item_home(&self.collected.world, def)
    }

    fn declared_name(&self, home: ModuleId, def: ModuleDefId) -> Option<&Name> {
        world_names::declared_name(&self.collected.world, home, def)
    }

    fn def_place(&self, def: ModuleDefId) -> Option<ItemPlace> {
        self.defs.get(&def).copied()
    }

    fn sees(&self, from: ModuleId, visibility: Visibility) -> bool {
        world_paths::sees(&self.collected.world, from, visibility)
    }

    fn variants(&self, alloc: Global, e: EnumId) -> Result<Vec<&Name>, AllocError> {
        world_names::variants(alloc, &self.collected.world, e)
    }

    fn associated_items(&self, alloc: Global) -> Result<Vec<AssociatedItem>, AllocError> {
        associated_items(alloc, self)
    }

    fn enum_of(&self, variant: EnumVariantId) -> Option<EnumId> {
        self.collected.world.variant_enum(variant)
    }

    fn variant_name(&self, e: EnumId, variant: EnumVariantId) -> Option<&Name> {
        world_names::variant_name(&self.collected.world, e, variant)
    }

    fn import_meaning(&self, m: ModuleId, path: &ModPath) -> Option<ResolvePathResult> {
        world_paths::import_meaning(&self.collected.world, m, path)
    }

    fn meaning(&self, m: ModuleId, path: &ModPath) -> Option<ResolvePathResult> {
        world_paths::meaning(&self.collected.world, m, path)
    }

    fn macro_meaning(&self, m: ModuleId, path: &ModPath) -> Option<ResolvePathResult> {
        world_paths::macro_meaning(&self.collected.world, m, path)
    }

    fn imports(&self) -> &[NamedImport] {
        self.collected.imports.as_slice()
    }

    fn globs(&self) -> &[GlobImport] {
        self.collected.globs.as_slice()
    }

    fn unresolved(&self) -> &[usize] {
        self.unresolved.as_slice()
    }

    fn import_meanings(&self, place: usize) -> Option<ImportMeanings> {
        self.collected.meanings.get(place).copied()
    }

    fn meaning_by_rules(
        &self,
        home: ModuleId,
        textual: Option<MacroId>,
        path: &ModPath,
        namespace: Namespace,
    ) -> Option<Meaning> {
        let maps = self.collected.def_maps();
        maps.meaning_in(home, textual, path, namespace)
    }

    fn source(&self, glob: &GlobImport) -> Option<Container> {
        self.collected.def_maps().source(glob)
    }

    fn leads_nowhere(&self, glob: &GlobImport) -> bool {
        leads_nowhere(&self.collected.def_maps(), glob)
    }

    fn offers(&self, glob: &GlobImport, name: &Name, namespace: Namespace) -> bool {
        let maps = self.collected.def_maps();
        maps.is_glob_known(glob) && maps.offer(glob, name, namespace).is_some()
    }
}
