//! The unstable features that a crate enables.
ghost use Rattle.std.specs.Prelude.{◌≡◌, [], IfOk, OnOk, OnErr};
ghost use Rattle.indexmap.specs.IndexSet.{insert_key};
ghost use Rattle.dm_base.specs.Names.{same_name};
ghost use Rattle.dm_def_map.specs.CrateData.{enables};

use dm_base::symbol::Symbol;
use indexmap::IndexSet;
use std::alloc::{AllocError, Global};
use std::marker::Model;

/// The unstable features that a crate enables, as by `#![feature(A, B)]`.
pub struct UnstableFeatures {
    enabled: IndexSet<Symbol>,
}

/// Hand-written `Drop`, to keep proofs small: dropping one is then a single call.
impl Drop for UnstableFeatures {
    fn drop(self) {
        let UnstableFeatures { enabled: _enabled } = self;
    }
}

impl Model for UnstableFeatures {
    ghost use Rattle.std.specs.Prelude.{ℕ, List};

    ghost Value = { List (List ℕ) };

    ghost view = { λ f. f.enabled.keys };
}

impl UnstableFeatures {
    /// No feature. Features that are enabled later allocate from `alloc`; this call does not allocate.
    pub(crate) fn new(alloc: Global) -> UnstableFeatures
        ensures { result ≡ [] }
    {
        UnstableFeatures {
            enabled: IndexSet::new(alloc),
        }
    }

    /// Whether a feature is enabled. Does not allocate.
    pub fn is_enabled(&self, feature: &Symbol) -> bool
        ensures { result ≡ enables self.now feature.now }
    {
        self.enabled.contains(feature)
    }

    /// Enables a feature. Where an allocation fails, nothing changes.
    pub(crate) fn enable(&mut self, feature: Symbol) -> Result<(), AllocError>
        ensures ok { OnOk result (self.new ≡ insert_key same_name self.old feature) }
        ensures err { OnErr result (self.new ≡ self.old) }
    {
        self.enabled.insert(feature)?;
        Ok(())
    }

    /// A copy, to be added to.
    pub(crate) fn copy(&self, alloc: Global) -> Result<UnstableFeatures, AllocError>
        ensures { IfOk result (λ features. features ≡ self.now) }
    {
        let enabled = copy_enabled(&self.enabled, alloc)?;
        Ok(UnstableFeatures { enabled })
    }
}

fn copy_enabled(enabled: &IndexSet<Symbol>, alloc: Global) -> Result<IndexSet<Symbol>, AllocError>
    ensures { IfOk result (λ copies. copies.keys ≡ enabled.now.keys) }
{
    let features = enabled.as_slice();
    let mut copies = IndexSet::new(alloc);
    for feature in features {
        let copy = feature.copy(alloc)?;
        copies.insert(copy)?;
    }
    Ok(copies)
}
