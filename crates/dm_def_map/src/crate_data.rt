//! The data of a crate that its def map and the def maps of its blocks share.
ghost use Rattle.std.specs.Prelude.{◌≡◌, IfOk, OnOk};
ghost use Rattle.dm_def_map.specs.CrateData.{fresh_data, limit_of, goes_without_std, with_proc_macro, with_setting, with_settings};

pub mod crate_setting;
pub mod unstable_features;

use crate::crate_data::crate_setting::CrateSetting;
use crate::crate_data::unstable_features::UnstableFeatures;
use crate::growth::put;
use dm_base::ids::{FunctionId, ProcMacroId};
use dm_base::symbol::Symbol;
use indexmap::IndexMap;
use std::alloc::{AllocError, Global};
use std::hash::Hash;
use std::marker::Model;

/// The data that all def maps of a crate share.
pub struct CrateData {
    no_std: bool,
    no_core: bool,
    coherence_is_core: bool,
    recursion_limit: Option<u32>,
    tools: Vec<Symbol>,
    features: UnstableFeatures,
    macro_of_fn: IndexMap<FunctionId, ProcMacroId>,
    fn_of_macro: IndexMap<ProcMacroId, FunctionId>,
}

/// A hand-written `Drop`, to keep proofs small: code that drops a value has one call to prove.
impl Drop for CrateData {
    fn drop(self) {
        let CrateData {
            no_std: _no_std,
            no_core: _no_core,
            coherence_is_core: _coherence_is_core,
            recursion_limit: _recursion_limit,
            tools: _tools,
            features: _features,
            macro_of_fn: _macro_of_fn,
            fn_of_macro: _fn_of_macro,
        } = self;
    }
}

impl Model for CrateData {
    ghost use Rattle.dm_def_map.specs.CrateData.{CrateData};

    ghost Value = { CrateData };

    ghost view = { λ d. record { no_std = d.no_std; no_core = d.no_core; coherence_is_core = d.coherence_is_core; recursion_limit = d.recursion_limit; tools = d.tools.items; features = d.features; macro_of_fn = d.macro_of_fn.entries; fn_of_macro = d.fn_of_macro.entries } };
}

impl CrateData {
    /// The data of a new crate, which has the tools that every crate has.
    pub fn fresh(alloc: Global) -> Result<CrateData, AllocError>
        ensures { IfOk result (λ d. d ≡ fresh_data) }
    {
        let mut tools = Vec::new(alloc);
        tools.push(Symbol::new(alloc, "clippy")?)?;
        tools.push(Symbol::new(alloc, "rustfmt")?)?;
        tools.push(Symbol::new(alloc, "diagnostic")?)?;
        tools.push(Symbol::new(alloc, "miri")?)?;
        tools.push(Symbol::new(alloc, "rust_analyzer")?)?;
        Ok(CrateData {
            no_std: false,
            no_core: false,
            coherence_is_core: false,
            recursion_limit: None,
            tools,
            features: UnstableFeatures::new(alloc),
            macro_of_fn: IndexMap::new(alloc),
            fn_of_macro: IndexMap::new(alloc),
        })
    }

    /// A copy, to be changed.
    pub fn copy(&self, alloc: Global) -> Result<CrateData, AllocError>
        ensures { IfOk result (λ d. d ≡ self.now) }
    {
        let tools = copy_symbols(&self.tools, alloc)?;
        let features = self.features.copy(alloc)?;
        let macro_of_fn = copy_table(&self.macro_of_fn)?;
        let fn_of_macro = copy_table(&self.fn_of_macro)?;
        Ok(CrateData {
            no_std: self.no_std,
            no_core: self.no_core,
            coherence_is_core: self.coherence_is_core,
            recursion_limit: self.recursion_limit,
            tools,
            features,
            macro_of_fn,
            fn_of_macro,
        })
    }

    /// The same data with one attribute set.
    ///
    /// Fails where an allocation fails, and the data is then dropped.
    pub fn with_setting(mut self, setting: CrateSetting) -> Result<CrateData, AllocError>
        ensures { IfOk result (λ d. d ≡ with_setting self setting) }
    {
        self.set(setting)?;
        Ok(self)
    }

    /// The same data with these attributes set, in order.
    ///
    /// Fails where an allocation fails, and the data is then dropped.
    pub fn with_settings(mut self, settings: Vec<CrateSetting>) -> Result<CrateData, AllocError>
        ensures { IfOk result (λ d. d ≡ with_settings self settings.items) }
    {
        for setting in settings {
            self.set(setting)?;
        }
        Ok(self)
    }

    /// Sets one attribute. Where an allocation fails, one of two tables may have it.
    fn set(&mut self, setting: CrateSetting) -> Result<(), AllocError>
        ensures { OnOk result (self.new ≡ with_setting self.old setting) }
    {
        match setting {
            CrateSetting::NoStd => self.no_std = true,
            CrateSetting::NoCore => self.no_core = true,
            CrateSetting::CoherenceIsCore => self.coherence_is_core = true,
            CrateSetting::RecursionLimit(limit) => self.recursion_limit = Some(limit),
            CrateSetting::Tool(tool) => self.tools.push(tool)?,
            CrateSetting::Feature(feature) => self.features.enable(feature)?,
            CrateSetting::ProcMacro(f, m) => self.add_proc_macro(f, m)?,
        }
        Ok(())
    }

    /// Adds a procedural macro that a function defines. Where an allocation fails, one of the two tables may have it.
    fn add_proc_macro(&mut self, f: FunctionId, m: ProcMacroId) -> Result<(), AllocError>
        ensures { OnOk result (self.new ≡ with_proc_macro self.old f m) }
    {
        put(&mut self.macro_of_fn, f, m)?;
        put(&mut self.fn_of_macro, m, f)?;
        Ok(())
    }

    /// The registered tools, whose attributes the crate may have (as `#[rustfmt::skip]`), in order.
    pub fn tools(&self) -> &[Symbol]
        ensures { result.now ≡ self.now.tools }
    {
        self.tools.as_slice()
    }

    /// The unstable features that the crate enables.
    pub fn features(&self) -> &UnstableFeatures
        ensures { result.now ≡ self.now.features }
    {
        &self.features
    }

    /// Whether the crate counts as `core` for coherence, and so may have inherent `impl`s of builtin types.
    pub fn coherence_is_core(&self) -> bool
        ensures { result ≡ self.now.coherence_is_core }
    {
        self.coherence_is_core
    }

    /// Whether the crate is `no_std`: it is where it is `no_core`.
    pub fn goes_without_std(&self) -> bool
        ensures { result ≡ goes_without_std self.now }
    {
        self.no_std || self.no_core
    }

    /// Whether the crate is `no_core`.
    pub fn goes_without_core(&self) -> bool
        ensures { result ≡ self.now.no_core }
    {
        self.no_core
    }

    /// The recursion limit of macro expansion: 128 where the crate sets none.
    pub fn recursion_limit(&self) -> u32
        ensures { result ≡ limit_of self.now }
    {
        self.recursion_limit.unwrap_or(128)
    }

    /// The procedural macro that each function defines.
    pub fn macro_of_fn(&self) -> &IndexMap<FunctionId, ProcMacroId>
        ensures { result.now.entries ≡ self.now.macro_of_fn }
    {
        &self.macro_of_fn
    }

    /// The function of each procedural macro.
    pub fn fn_of_macro(&self) -> &IndexMap<ProcMacroId, FunctionId>
        ensures { result.now.entries ≡ self.now.fn_of_macro }
    {
        &self.fn_of_macro
    }
}

fn copy_symbols(symbols: &[Symbol], alloc: Global) -> Result<Vec<Symbol>, AllocError>
    ensures { IfOk result (λ copies. copies.items ≡ symbols.now) }
{
    let mut copies = Vec::new(alloc);
    for symbol in symbols {
        let copy = symbol.copy(alloc)?;
        copies.push(copy)?;
    }
    Ok(copies)
}

/// A copy of a table, where clones equal what they are clones of.
fn copy_table<K: Eq + Hash + Clone, V: Clone>(
    table: &IndexMap<K, V>,
) -> Result<IndexMap<K, V>, AllocError>
    requires keys { (x y : K) → K.is_clone x y → y ≡ x }
    requires values { (x y : V) → V.is_clone x y → y ≡ x }
    ensures { IfOk result (λ copy. copy.entries ≡ table.now.entries) }
{
    let copy = table.clone()?;
    Ok(copy)
}
