//! Crates, as a graph has them.
ghost use Rattle.std.specs.Prelude.{◌≡◌, OnErr, OnOk};
ghost use Rattle.crate_items.specs.CrateGraphs.{with_dependency};

use crate::files::dependency::Dependency;
use dm_base::edition::Edition;
use dm_base::ids::FileId;
use item_tree::cfg::CfgOptions;
use std::alloc::AllocError;
use std::marker::Model;

/// What a graph has of a crate: the file of its root, its edition, the options that it is built with, whether it has
/// procedural macros, and what it depends on.
pub struct CrateData {
    root_file_id: FileId,
    edition: Edition,
    cfg_options: CfgOptions,
    is_proc_macro: bool,
    dependencies: Vec<Dependency>,
}

/// Hand-written `Drop`, to keep proofs small: dropping one is then a single call.
impl Drop for CrateData {
    fn drop(self) {
        let CrateData {
            root_file_id: _root_file_id,
            edition: _edition,
            cfg_options: _cfg_options,
            is_proc_macro: _is_proc_macro,
            dependencies: _dependencies,
        } = self;
    }
}

impl Model for CrateData {
    ghost use Rattle.crate_items.specs.CrateGraphs.{Data};

    ghost Value = { Data };

    ghost view = { λ c. record {
      root_file_id = c.root_file_id;
      edition = c.edition;
      cfg_options = c.cfg_options;
      is_proc_macro = c.is_proc_macro;
      dependencies = c.dependencies.items;
    } };
}

impl CrateData {
    /// A crate of these parts.
    pub fn new(
        root_file_id: FileId,
        edition: Edition,
        cfg_options: CfgOptions,
        is_proc_macro: bool,
        dependencies: Vec<Dependency>,
    ) -> CrateData
        ensures { result ≡ record {
          root_file_id = root_file_id;
          edition = edition;
          cfg_options = cfg_options;
          is_proc_macro = is_proc_macro;
          dependencies = dependencies.items;
        } }
    {
        CrateData {
            root_file_id,
            edition,
            cfg_options,
            is_proc_macro,
            dependencies,
        }
    }

    /// The file of its root.
    pub fn root_file_id(&self) -> FileId
        ensures { result ≡ self.now.root_file_id }
    {
        self.root_file_id
    }

    /// Its edition.
    pub fn edition(&self) -> Edition
        ensures { result ≡ self.now.edition }
    {
        self.edition
    }

    /// The options that it is built with.
    pub fn cfg_options(&self) -> &CfgOptions
        ensures { result.now ≡ self.now.cfg_options }
    {
        &self.cfg_options
    }

    /// Whether it has procedural macros.
    pub fn is_proc_macro(&self) -> bool
        ensures { result ≡ self.now.is_proc_macro }
    {
        self.is_proc_macro
    }

    /// What it depends on.
    pub fn dependencies(&self) -> &[Dependency]
        ensures { result.now ≡ self.now.dependencies }
    {
        self.dependencies.as_slice()
    }

    /// Adds what it depends on. Where memory runs out, nothing changes.
    pub(crate) fn add_dependency(&mut self, dependency: Dependency) -> Result<(), AllocError>
        ensures ok { OnOk result (self.new ≡ with_dependency dependency self.old) }
        ensures err { OnErr result (self.new ≡ self.old) }
    {
        self.dependencies.push(dependency)?;
        Ok(())
    }
}
