//! Crates and modules, added to a builder.
ghost use Rattle.std.specs.Prelude.{◌≡◌, ◌<◌, [], IsTrue, IfOk, OnOk, OnErr, None, Some, length};
ghost use Rattle.dm_maps.specs.Added.{IsAddedCrate, IsAddedModule};
ghost use Rattle.dm_maps.specs.Build.{with_crate, with_module, with_child_of, next_crate, next_module, next_place, fresh_crate};
ghost use Rattle.dm_maps.specs.Faults.{Answers, new_crate_fault, child_fault, first_fault, none_found, lacks_module, is_full};
ghost use Rattle.dm_maps.specs.Trees.{map_id_in};
ghost use Rattle.dm_def_map.specs.Origins.{is_child};

use crate::build_fault::BuildFault;
use crate::builder::WorldBuilder;
use crate::builder::growth::{NewChild, add_child_in, add_outmost_map};
use crate::maps::share::share;
use crate::place::Place;
use dm_base::ids::{Crate, MapId, ModuleId};
use dm_base::name::Name;
use dm_base::source::{Edition, EditionedFileId};
use dm_base::visibility::Visibility;
use dm_def_map::building;
use dm_def_map::crate_data::CrateData;
use dm_def_map::def_map::DefMap;
use dm_def_map::modules::module_data::ModuleData;
use dm_def_map::modules::module_origin::ModuleOrigin;
use std::alloc::{AllocError, Global};

/// The numbers of a list's entries are below this, so that the list's length is one too.
pub(crate) const LAST_NUMBER: usize = 4_294_967_295;

impl WorldBuilder {
    /// Adds a crate, whose root lies in that file and is seen by everyone, and answers its number.
    ///
    /// Its map and its extern prelude are numbered with it. Errors are `OutOfNumbers`, where there are 4,294,967,295
    /// modules, and `OutOfMemory`; the builder is then as it was.
    pub fn add_crate(
        &mut self,
        edition: Edition,
        file: EditionedFileId,
    ) -> Result<Crate, BuildFault>
        ensures ok { OnOk result (self.new ≡ with_crate self.old edition file) }
        ensures number { IfOk result (λ krate. krate ≡ next_crate self.old) }
        ensures fault { Answers (new_crate_fault self.old) result }
        ensures err { OnErr result (self.new ≡ self.old) }

        // The crate was added with the root of its map, and what was there stays.
        ensures added { IfOk result (λ krate. IsAddedCrate self.old self.new krate) }
    {
        if self.is_full() {
            return Err(BuildFault::OutOfNumbers);
        }
        let krate = Crate(self.maps.crates().len() as u32);
        self.push_crate(krate, edition, file)?;
        Ok(krate)
    }

    /// Adds the map of a crate, with its root, and its extern prelude.
    fn push_crate(
        &mut self,
        krate: Crate,
        edition: Edition,
        file: EditionedFileId,
    ) -> Result<(), AllocError>
        requires number { krate ≡ next_crate self.old }
        requires room { length self.old.places < 4294967295 }
        ensures ok { OnOk result (self.new ≡ with_crate self.old edition file) }
        ensures err { OnErr result (self.new ≡ self.old) }
    {
        let root = self.next_module();
        let map = fresh_crate(krate, edition, file, root, self.alloc)?;
        let id = MapId { krate, block: None };
        let place = Place {
            map: id,
            index: 0,
            parent: None,
        };
        add_outmost_map(
            &mut self.ladders,
            &mut self.block_lists,
            &mut self.places,
            place,
            &mut self.local_maps,
            &mut self.maps,
            map,
            self.alloc,
        )?;
        Ok(())
    }

    /// Adds a module below `parent`, and answers its number. Its origin has to be that of a child: a file or inline
    /// (`ModuleOrigin::is_child`).
    ///
    /// Errors, tested in this order: `NoSuchModule` of a parent that is not the builder's, `TakenChild` where the
    /// parent has a child of that name, `OutOfNumbers` and `OutOfMemory`; the builder is then as it was. The visibility
    /// may name what is not the builder's: `check` finds that.
    pub fn add_module(
        &mut self,
        parent: ModuleId,
        name: Name,
        origin: ModuleOrigin,
        visibility: Visibility,
    ) -> Result<ModuleId, BuildFault>
        requires child { IsTrue (is_child origin) }
        ensures ok { OnOk result (self.new ≡ with_module self.old parent name origin visibility) }
        ensures number { IfOk result (λ m. m ≡ next_module self.old) }
        ensures fault { Answers (child_fault self.old parent name) result }
        ensures err { OnErr result (self.new ≡ self.old) }

        // The module was added in the map of its parent, without a binding, and what was there stays.
        ensures added { IfOk result
            (λ m.
            IsAddedModule self.old self.new (map_id_in self.old.places parent)
            (Some parent) m) }
    {
        match self.named_child_fault(parent, &name) {
            Some(fault) => Err(fault),
            None => {
                let m = self.next_module();
                let added = ModuleData::fresh(origin, visibility, Some(parent), self.alloc);
                self.push_module(parent, name, added)?;
                Ok(m)
            }
        }
    }

    /// The error that adding a child of the name of that text gives, if there is one, allocation failure aside. Takes
    /// no memory.
    ///
    /// It is for callers that could not allocate the name: the text is compared with the name of each child of the
    /// parent.
    #[tactic(auto, unfolding(crate::specs::Faults::child_fault))]
    pub fn child_fault(&self, parent: ModuleId, text: &str) -> Option<BuildFault>
        ensures { result ≡ child_fault self.now parent text.now }
    {
        let is_taken = match self.module_of(parent) {
            None => false,
            Some(module) => module.has_child(text),
        };
        self.fault_of_child(parent, is_taken)
    }

    /// The same, where the name is at hand and is looked up.
    #[tactic(auto, unfolding(crate::specs::Faults::child_fault))]
    fn named_child_fault(&self, parent: ModuleId, name: &Name) -> Option<BuildFault>
        ensures { result ≡ child_fault self.now parent name.now }
    {
        let is_taken = match self.module_of(parent) {
            None => false,
            Some(module) => module.child(name).is_some(),
        };
        self.fault_of_child(parent, is_taken)
    }

    /// The first fault of a new child, where it is known whether the parent has a child of its name.
    fn fault_of_child(&self, parent: ModuleId, is_taken: bool) -> Option<BuildFault>
        ensures { result
            ≡ first_fault
            (record none_found {
              no_module = lacks_module self.now parent;
              taken_child = is_taken;
              full = is_full self.now.places;
            }) }
    {
        if !self.has(parent) {
            return Some(BuildFault::NoSuchModule);
        }
        if is_taken {
            return Some(BuildFault::TakenChild);
        }
        if self.is_full() {
            return Some(BuildFault::OutOfNumbers);
        }
        None
    }

    /// Whether there is no number for another module.
    pub(crate) fn is_full(&self) -> bool
        ensures { result ≡ is_full self.now.places }
    {
        !(self.places.len() < LAST_NUMBER)
    }

    /// The number of the next module.
    pub(crate) fn next_module(&self) -> ModuleId
        requires { length self.now.places < 4294967295 }
        ensures { result ≡ next_module self.now }
    {
        ModuleId(self.places.len() as u32)
    }

    /// The place of the next module, in the map of that id.
    fn next_place(&self, id: MapId, parent: ModuleId) -> Place
        ensures { result ≡ next_place self.now id parent }
    {
        let index = match self.numbered_map(id) {
            None => 0,
            Some(map) => map.modules().len(),
        };
        Place {
            map: id,
            index,
            parent: Some(parent),
        }
    }

    /// Adds a child of the module `parent`.
    fn push_module(
        &mut self,
        parent: ModuleId,
        name: Name,
        added: ModuleData,
    ) -> Result<(), AllocError>
        requires known { parent.0 < length self.old.places }
        requires parent { added.parent ≡ Some parent }
        requires childless { added.children ≡ [] }
        requires room { length self.old.places < 4294967295 }
        ensures ok { OnOk result (self.new ≡ with_child_of self.old parent name added) }
        ensures err { OnErr result (self.new ≡ self.old) }
    {
        let at = self.places[parent.0 as usize];
        let place = self.next_place(at.map, parent);
        let m = self.next_module();
        let child = NewChild {
            at,
            place,
            name,
            m,
            added,
        };
        add_child_in(
            &mut self.ladders,
            parent,
            &mut self.places,
            &mut self.maps,
            child,
        )?;
        Ok(())
    }
}

/// The map of a new crate.
fn fresh_crate(
    krate: Crate,
    edition: Edition,
    file: EditionedFileId,
    root: ModuleId,
    alloc: Global,
) -> Result<DefMap, AllocError>
    ensures { IfOk result (λ map. map ≡ fresh_crate krate edition file root) }
{
    let origin = ModuleOrigin::CrateRoot { definition: file };
    let id = MapId { krate, block: None };
    let added = ModuleData::fresh(origin, Visibility::Public, None, alloc);
    let shared = share(CrateData::fresh(alloc)?, alloc)?;
    let map = building::with_root(id, edition, None, root, added, shared, alloc)?;
    Ok(map)
}
