//! Queries of a def map about its crate, the same for each map of the crate. None of these calls allocates.
ghost use Rattle.std.specs.Prelude.{◌≡◌};
ghost use Rattle.dm_def_map.specs.CrateData.{limit_of, goes_without_std, macro_of, fn_of};

use crate::crate_data::unstable_features::UnstableFeatures;
use crate::def_map::DefMap;
use dm_base::ids::{FunctionId, ProcMacroId};
use dm_base::symbol::Symbol;

impl DefMap {
    /// The tools whose attributes the crate may have: those of every crate, then those that it registers, in order.
    pub fn registered_tools(&self) -> &[Symbol]
        ensures { result.now ≡ self.now.shared.tools }
    {
        self.shared().tools()
    }

    /// The unstable features that the crate enables.
    pub fn features(&self) -> &UnstableFeatures
        ensures { result.now ≡ self.now.shared.features }
    {
        self.shared().features()
    }

    /// Whether the crate counts as `core` for coherence, and so may have inherent `impl`s of builtin types.
    pub fn is_rustc_coherence_is_core(&self) -> bool
        ensures { result ≡ self.now.shared.coherence_is_core }
    {
        self.shared().coherence_is_core()
    }

    /// Whether the crate is `no_std`: it is where it is `no_core`.
    pub fn is_no_std(&self) -> bool
        ensures { result ≡ goes_without_std self.now.shared }
    {
        self.shared().goes_without_std()
    }

    /// Whether the crate is `no_core`.
    pub fn is_no_core(&self) -> bool
        ensures { result ≡ self.now.shared.no_core }
    {
        self.shared().goes_without_core()
    }

    /// The procedural macro that a function of the crate defines.
    pub fn fn_as_proc_macro(&self, id: FunctionId) -> Option<ProcMacroId>
        ensures { result ≡ macro_of self.now.shared id }
    {
        self.shared().macro_of_fn().get(&id).copied()
    }

    /// The function of the crate that defines a procedural macro.
    pub fn proc_macro_as_fn(&self, id: ProcMacroId) -> Option<FunctionId>
        ensures { result ≡ fn_of self.now.shared id }
    {
        self.shared().fn_of_macro().get(&id).copied()
    }

    /// The recursion limit of macro expansion: 128 where the crate sets none.
    pub fn recursion_limit(&self) -> u32
        ensures { result ≡ limit_of self.now.shared }
    {
        self.shared().recursion_limit()
    }
}
