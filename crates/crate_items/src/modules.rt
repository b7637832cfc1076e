//! The modules that a crate declares.
ghost use Rattle.std.specs.Prelude.{◌≡◌, ◌<◌, ◌≤◌, ◌++◌, ◌∷◌, [], All, IfErr, IfOk, OnOk, length, slice_get};
ghost use Rattle.crate_items.specs.ModuleVisibilities.{visibility_in};
ghost use Rattle.crate_items.specs.Modules as spec;
ghost use Rattle.crate_items.specs.Sources.{AreSourcesOf, source_at};
ghost use Rattle.std.specs.Option.{option_copied};
ghost use Rattle.crate_items.specs.declared.files.found.Found.TheVariants.{Declared};

pub mod bare_modules;
pub mod declared_module;
pub mod mod_items;
pub mod mod_resolution;
pub mod mod_rows;
pub mod module_rows;
pub mod module_visibility;
pub mod prelude_module;
pub mod standing;
pub mod standing_laws;

use crate::files::crate_data::CrateData;
use crate::files::file_table::FileTable;
use crate::files::found::{Found, founds};
use crate::files::sources::Sources;
use crate::modules::declared_module::{DeclaredModule, ModuleFault};
use crate::modules::mod_resolution::ModDir;
use crate::modules::module_visibility::{DeclaredVisibility, Standpoint};
use dm_base::edition::Edition;
use dm_base::ids::FileId;
use item_tree::cfg::CfgOptions;
use item_tree::items::visibility::RawVisibility;
use std::alloc::{AllocError, Global};
use std::marker::Model;

/// The modules of a crate, with what was read of their files.
pub struct CrateModules {
    sources: Sources,
    modules: Vec<DeclaredModule>,
    faults: Vec<ModuleFault>,
}

/// Hand-written `Drop`, to keep proofs small: dropping one is then a single call.
impl Drop for CrateModules {
    fn drop(self) {
        let CrateModules {
            sources: _sources,
            modules: _modules,
            faults: _faults,
        } = self;
    }
}

impl Model for CrateModules {
    ghost use Rattle.crate_items.specs.Modules.{Listing};

    ghost Value = { Listing };

    ghost view = { λ c. record {
      sources = c.sources;
      modules = c.modules.items;
      faults = c.faults.items;
    } };
}

/// Why the modules of a crate were not listed.
#[derive(Clone, Copy, PartialEq, Eq, Debug)]
pub enum ModulesError {
    /// There are more than the caller asked for.
    TooManyModules,
    OutOfMemory,
}

impl From<AllocError> for ModulesError {
    ghost use Rattle.crate_items.specs.declared.modules.ModulesError.TheVariants.{OutOfMemory};

    ghost from_gives = { λ _ error. error ≡ OutOfMemory };

    fn from(_refused: AllocError) -> ModulesError {
        ModulesError::OutOfMemory
    }
}

impl CrateModules {
    /// What was read of each file.
    pub fn sources(&self) -> &Sources
        ensures { result.now ≡ self.now.sources }
    {
        &self.sources
    }

    /// The modules, the root first.
    pub fn modules(&self) -> &[DeclaredModule]
        ensures { result.now ≡ self.now.modules }
    {
        self.modules.as_slice()
    }

    /// The declarations that lead to no module, in the order of the modules that they stand in.
    pub fn faults(&self) -> &[ModuleFault]
        ensures { result.now ≡ self.now.faults }
    {
        self.faults.as_slice()
    }

    /// Whom a visibility, as it is written in the module of a number, shows what it stands before, by the text of that
    /// module's file; none where it leads to no module around. Then rustc shows it to all.
    ///
    /// # Errors
    ///
    /// Fails only where memory runs out.
    pub fn visibility(
        &self,
        alloc: Global,
        edition: Edition,
        text: &[u8],
        number: usize,
        written: RawVisibility,
    ) -> Result<Option<DeclaredVisibility>, AllocError>
        requires { number < length self.now.modules }
        ensures { IfOk result
            (λ shown. shown ≡ visibility_in self.now edition text.now number written) }
    {
        let standpoint = Standpoint {
            modules: self.modules.as_slice(),
            number,
            edition,
            text,
        };
        match self.sources.get(self.modules[number].file) {
            None => standpoint.shown(alloc, &[], written),
            Some(source) => standpoint.shown(alloc, source.lexemes(), written),
        }
    }

    /// Adds a module of which the file is read, unless that file has a `cfg` that does not hold.
    fn push_left(
        &mut self,
        alloc: Global,
        declared: DeclaredModule,
        base: Option<ModDir>,
    ) -> Result<(), AllocError>
        ensures sources { self.new.sources ≡ self.old.sources }
        ensures faults { self.new.faults ≡ self.old.faults }
        ensures modules { OnOk result (self.new.modules ≡
            self.old.modules ++ spec.module_of self.old.sources (Declared declared base)) }
    {
        if is_left(&self.sources, &declared) {
            let placed = placed(alloc, &self.sources, declared, base)?;
            self.modules.push(placed)?;
        }
        Ok(())
    }

    /// Adds what a declaration leads to.
    fn add_found(
        &mut self,
        alloc: Global,
        edition: Edition,
        options: &CfgOptions,
        files: &FileTable,
        found: Found,
    ) -> Result<(), AllocError>
        requires listing { spec.IsListing edition options.now files.now self.old }
        requires known { spec.IsKnown files.now found }
        ensures listing { OnOk result (spec.IsListing edition options.now files.now self.new) }
        ensures adds { OnOk result
            (spec.Adds self.old self.new (λ table. spec.module_of table found) (spec.fault_of found)) }
    {
        match found {
            Found::Nothing => Ok(()),
            Found::Faulty(fault) => {
                self.faults.push(fault)?;
                Ok(())
            }
            Found::Declared(declared, base) => {
                self.sources
                    .read(alloc, edition, options, files, declared.file)?;
                self.push_left(alloc, declared, base)?;
                Ok(())
            }
        }
    }

    /// Adds what some declarations lead to.
    fn add_all(
        &mut self,
        alloc: Global,
        edition: Edition,
        options: &CfgOptions,
        files: &FileTable,
        founds: Vec<Found>,
    ) -> Result<(), AllocError>
        requires listing { spec.IsListing edition options.now files.now self.old }
        requires known { All (spec.IsKnown files.now) founds.items }
        ensures listing { OnOk result (spec.IsListing edition options.now files.now self.new) }
        ensures adds { OnOk result (spec.Adds self.old self.new
            (λ table. spec.modules_of table founds.items) (spec.faults_of founds.items)) }
    {
        for found in founds {
            self.add_found(alloc, edition, options, files, found)?;
        }
        Ok(())
    }

    /// What the declarations in a module of the list lead to.
    fn founds_in(
        &self,
        alloc: Global,
        files: &FileTable,
        number: usize,
    ) -> Result<Vec<Found>, AllocError>
        requires there { number < length self.now.modules }
        requires len { length self.now.sources ≡ length files.now }
        ensures exact { IfOk result (λ found. found.items ≡
            spec.founds_at self.now.sources files.now number (slice_get self.now.modules number)) }
        ensures known { IfOk result
            (λ found. All (spec.IsKnown files.now) found.items) }
    {
        let module = &self.modules[number];
        match self.sources.get(module.file) {
            None => Ok(Vec::new(alloc)),
            Some(source) => founds(alloc, files, number, module, source.mod_items()),
        }
    }
}

/// Whether there is a module, of which the file is read.
fn is_left(sources: &Sources, declared: &DeclaredModule) -> bool
    ensures { result ≡ spec.is_left sources.now declared.now declared.now.item }
{
    match declared.item {
        Some(_) => true,
        None => match sources.get(declared.file) {
            None => true,
            Some(source) => source.is_enabled(),
        },
    }
}

/// The `#![path]` that a file begins with.
fn path_within(sources: &Sources, file: FileId) -> Option<&[u8]>
    ensures { option_copied result ≡ spec.path_within (source_at sources.now file) }
{
    match sources.get(file) {
        None => None,
        Some(source) => source.path(),
    }
}

/// A module, whose children have their files beside what a `#![path]` names from a folder that its file begins with.
fn placed(
    alloc: Global,
    sources: &Sources,
    declared: DeclaredModule,
    base: Option<ModDir>,
) -> Result<DeclaredModule, AllocError>
    ensures { IfOk result (λ m. m ≡ spec.placed sources.now declared base) }
{
    match base {
        None => Ok(declared),
        Some(base) => match path_within(sources, declared.file) {
            None => Ok(declared),
            Some(path) => {
                let dir = base.beside(alloc, path)?;
                let mut placed = declared;
                placed.dir = dir;
                Ok(placed)
            }
        },
    }
}

/// The list of a crate that has its root alone.
fn root_alone(
    alloc: Global,
    edition: Edition,
    options: &CfgOptions,
    files: &FileTable,
    root: FileId,
) -> Result<CrateModules, AllocError>
    requires { root.0 < length files.now }
    ensures listing { IfOk result (spec.IsListing edition options.now files.now) }
    ensures root { IfOk result (λ list. list.modules ≡
        spec.root_module files.now root ∷ []) }
    ensures faults { IfOk result (λ list. list.faults ≡ []) }
{
    let mut sources = Sources::new(alloc, files.len())?;
    sources.read(alloc, edition, options, files, root)?;
    let mut modules = Vec::new(alloc);
    let mut around = Vec::new(alloc);
    around.push(root)?;
    modules.push(DeclaredModule {
        declaration: None,
        file: root,
        item: None,
        dir: ModDir::root(alloc, files.path(root))?,
        around,
    })?;
    Ok(CrateModules {
        sources,
        modules,
        faults: Vec::new(alloc),
    })
}

/// The modules that a crate declares: its root, and behind it, in order, those that each module of the list declares.
/// Each file is read once.
///
/// # Errors
///
/// Fails where there are more than `limit` modules, and where memory runs out.
pub fn declared_modules(
    alloc: Global,
    krate: &CrateData,
    files: &FileTable,
    limit: u32,
) -> Result<CrateModules, ModulesError>
    requires { krate.now.root_file_id.0 < length files.now }
    ensures sources { IfOk result
        (λ list. AreSourcesOf krate.now.edition krate.now.cfg_options files.now list.sources) }
    ensures read { IfOk result (λ list. All (spec.IsRead list.sources) list.modules) }
    ensures modules { IfOk result (λ list. list.modules ≡
        spec.root_module files.now krate.now.root_file_id
        ∷ spec.declared_in list.sources files.now 0 list.modules) }
    ensures faults { IfOk result
        (λ list. list.faults ≡ spec.faults_in list.sources files.now 0 list.modules) }
    ensures within { IfOk result (λ list. length list.modules ≤ limit) }
    ensures refused { IfErr result (spec.IsRefusal krate.now.edition krate.now.cfg_options files.now
        krate.now.root_file_id limit) }
{
    let edition = krate.edition();
    let options = krate.cfg_options();
    let mut list = root_alone(alloc, edition, options, files, krate.root_file_id())?;
    for number in 0..limit {
        let number = number as usize;
        if list.modules.len() <= number {
            return Ok(list);
        }
        let founds = list.founds_in(alloc, files, number)?;
        list.add_all(alloc, edition, options, files, founds)?;
    }
    if list.modules.len() <= limit as usize {
        Ok(list)
    } else {
        Err(ModulesError::TooManyModules)
    }
}
