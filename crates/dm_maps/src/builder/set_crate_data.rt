//! Setters for crate data, which all def maps of a crate share.
ghost use Rattle.std.specs.Prelude.{◌≡◌, ◌++◌, ◌∷◌, [], true, Some, IfOk, OnOk, OnErr};
ghost use Rattle.dm_maps.specs.BuildCrateData.{TakesData, sharing, data_of, with_data, with_crate_setting, with_crate_settings, settings_fault};
ghost use Rattle.dm_maps.specs.BuildMaps.{crate_fault};
ghost use Rattle.dm_def_map.specs.CrateData.{with_feature, with_proc_macro};
ghost use Rattle.dm_maps.specs.Faults.{Answers};

use crate::build_fault::BuildFault;
use crate::builder::WorldBuilder;
use crate::builder::block_list::blocks_of;
use dm_base::ids::{Crate, FunctionId, MapId, ProcMacroId};
use dm_base::symbol::Symbol;
use dm_def_map::building;
use dm_def_map::crate_data::CrateData;
use dm_def_map::crate_data::crate_setting::CrateSetting;
use std::alloc::AllocError;

/// Errors of each call, tested in this order: `NoSuchCrate` of a crate that is not the builder's, and `OutOfMemory`;
/// the builder is then as it was. What is set reaches the maps of the crate and of all its blocks, also of those that
/// are added later.
impl WorldBuilder {
    /// Marks a crate as `#![no_std]`.
    pub fn set_no_std(&mut self, krate: Crate) -> Result<(), BuildFault>
        ensures ok { OnOk result (self.new ≡ with_data self.old krate (λ d. record d { no_std = true })) }
        ensures fault { Answers (crate_fault self.old krate) result }
        ensures err { OnErr result (self.new ≡ self.old) }
    {
        self.set_one(krate, CrateSetting::NoStd)
    }

    /// Marks a crate as `#![no_core]`.
    pub fn set_no_core(&mut self, krate: Crate) -> Result<(), BuildFault>
        ensures ok { OnOk result (self.new ≡ with_data self.old krate (λ d. record d { no_core = true })) }
        ensures fault { Answers (crate_fault self.old krate) result }
        ensures err { OnErr result (self.new ≡ self.old) }
    {
        self.set_one(krate, CrateSetting::NoCore)
    }

    /// Marks a crate as `#![rustc_coherence_is_core]`: it counts as `core` where traits are implemented.
    pub fn set_coherence_is_core(&mut self, krate: Crate) -> Result<(), BuildFault>
        ensures ok { OnOk result
            (self.new ≡ with_data self.old krate (λ d. record d { coherence_is_core = true })) }
        ensures fault { Answers (crate_fault self.old krate) result }
        ensures err { OnErr result (self.new ≡ self.old) }
    {
        self.set_one(krate, CrateSetting::CoherenceIsCore)
    }

    /// Sets the recursion limit of a crate: how deep its macros may expand.
    pub fn set_recursion_limit(&mut self, krate: Crate, limit: u32) -> Result<(), BuildFault>
        ensures ok { OnOk result
            (self.new
            ≡ with_data self.old krate (λ d. record d { recursion_limit = Some limit })) }
        ensures fault { Answers (crate_fault self.old krate) result }
        ensures err { OnErr result (self.new ≡ self.old) }
    {
        self.set_one(krate, CrateSetting::RecursionLimit(limit))
    }

    /// Adds a tool whose attributes a crate may have, the last.
    pub fn add_tool(&mut self, krate: Crate, tool: Symbol) -> Result<(), BuildFault>
        ensures ok { OnOk result
            (self.new
            ≡ with_data self.old krate (λ d. record d { tools = d.tools ++ tool ∷ [] })) }
        ensures fault { Answers (crate_fault self.old krate) result }
        ensures err { OnErr result (self.new ≡ self.old) }
    {
        self.set_one(krate, CrateSetting::Tool(tool))
    }

    /// Adds an unstable feature that a crate asks for. One that is there stays at its place.
    pub fn add_feature(&mut self, krate: Crate, feature: Symbol) -> Result<(), BuildFault>
        ensures ok { OnOk result (self.new ≡ with_data self.old krate (λ d. with_feature d feature)) }
        ensures fault { Answers (crate_fault self.old krate) result }
        ensures err { OnErr result (self.new ≡ self.old) }
    {
        self.set_one(krate, CrateSetting::Feature(feature))
    }

    /// Sets the procedural macro that a function of a crate defines, in a table each way. What is there is replaced.
    ///
    /// The function and the macro may not be the builder's: `check` finds that.
    pub fn set_proc_macro(
        &mut self,
        krate: Crate,
        f: FunctionId,
        m: ProcMacroId,
    ) -> Result<(), BuildFault>
        ensures ok { OnOk result (self.new ≡ with_data self.old krate (λ d. with_proc_macro d f m)) }
        ensures fault { Answers (crate_fault self.old krate) result }
        ensures err { OnErr result (self.new ≡ self.old) }
    {
        self.set_one(krate, CrateSetting::ProcMacro(f, m))
    }

    /// Sets many things for a crate: the result and the errors are those of the calls above, one for each in order.
    ///
    /// The crate's data is copied once, however many things are set. Where there are none, there is no error.
    pub fn set_crate_data(
        &mut self,
        krate: Crate,
        settings: Vec<CrateSetting>,
    ) -> Result<(), BuildFault>
        ensures ok { OnOk result (self.new ≡ with_crate_settings self.old krate settings.items) }
        ensures fault { Answers (settings_fault self.old krate settings.items) result }
        ensures err { OnErr result (self.new ≡ self.old) }
    {
        if settings.is_empty() {
            return Ok(());
        }
        let data = self.copy_data(krate)?;
        let changed = data.with_settings(settings)?;
        self.share_data(krate, changed)?;
        Ok(())
    }

    /// Sets one thing for a crate.
    fn set_one(&mut self, krate: Crate, setting: CrateSetting) -> Result<(), BuildFault>
        ensures ok { OnOk result (self.new ≡ with_crate_setting self.old krate setting) }
        ensures fault { Answers (crate_fault self.old krate) result }
        ensures err { OnErr result (self.new ≡ self.old) }
    {
        let data = self.copy_data(krate)?.with_setting(setting)?;
        self.share_data(krate, data)?;
        Ok(())
    }

    /// The data of a crate, to be changed.
    fn copy_data(&self, krate: Crate) -> Result<CrateData, BuildFault>
        ensures value { IfOk result (λ d. d ≡ data_of self.now krate) }
        ensures own { IfOk result (λ _. TakesData self.now krate) }
        ensures fault { Answers (crate_fault self.now krate) result }
    {
        match self.numbered_map(MapId { krate, block: None }) {
            None => Err(BuildFault::NoSuchCrate),
            Some(map) => {
                let data = building::shared(map).copy(self.alloc)?;
                Ok(data)
            }
        }
    }

    /// All maps of a crate share that data from now on.
    fn share_data(&mut self, krate: Crate, new: CrateData) -> Result<(), AllocError>
        ensures ok { OnOk result (self.new ≡ sharing self.old krate new) }
        ensures err { OnErr result (self.new ≡ self.old) }
    {
        let own = blocks_of(&self.block_lists, krate.0 as usize);
        self.maps.share(krate, new, own, self.alloc)?;
        Ok(())
    }
}
