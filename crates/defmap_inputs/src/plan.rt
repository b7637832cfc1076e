//! The crates that are to be collected, and what each depends on.
use dm_base::source::Edition;
use std::alloc::{AllocError, Global};
use std::fmt::Write;

/// A crate that a crate depends on, by its number among the plans.
pub(crate) struct DependencyPlan {
    pub(crate) name: String,
    pub(crate) krate: usize,
    /// Whether paths find it by its name alone.
    pub(crate) prelude: bool,
}

/// A hand-written `Drop`, to keep proofs small: what drops one has one call to prove.
impl Drop for DependencyPlan {
    fn drop(self) {
        let DependencyPlan {
            name: _name,
            krate: _krate,
            prelude: _prelude,
        } = self;
    }
}

/// A crate that is to be collected.
pub(crate) struct CratePlan {
    pub(crate) name: String,
    pub(crate) root: String,
    pub(crate) edition: Edition,
    /// Options of its own, as lines.
    pub(crate) cfgs: String,
    pub(crate) is_proc_macro: bool,
    pub(crate) dependencies: Vec<DependencyPlan>,
}

/// A hand-written `Drop`, to keep proofs small: what drops one has one call to prove.
impl Drop for CratePlan {
    fn drop(self) {
        let CratePlan {
            name: _name,
            root: _root,
            edition: _edition,
            cfgs: _cfgs,
            is_proc_macro: _is_proc_macro,
            dependencies: _dependencies,
        } = self;
    }
}

/// The name of a crate by that of its target.
fn crate_name(alloc: Global, name: &str) -> Result<String, AllocError> {
    let mut text = String::new(alloc);
    for letter in name.chars() {
        text.push(if letter == '-' { '_' } else { letter })?;
    }
    Ok(text)
}

impl CratePlan {
    pub(crate) fn new(
        alloc: Global,
        name: &str,
        root: &str,
        edition: Edition,
    ) -> Result<CratePlan, AllocError> {
        Ok(CratePlan {
            name: crate_name(alloc, name)?,
            root: String::from_str(alloc, root)?,
            edition,
            cfgs: String::new(alloc),
            is_proc_macro: false,
            dependencies: Vec::new(alloc),
        })
    }

    /// Adds an option, as a line of `rustc --print cfg`.
    pub(crate) fn set(&mut self, option: &str) -> Result<(), AllocError> {
        write!(self.cfgs, "{option}\n")
    }

    /// Adds a feature to its options.
    pub(crate) fn enable(&mut self, feature: &str) -> Result<(), AllocError> {
        write!(self.cfgs, "feature=\"{feature}\"\n")
    }

    /// Whether a dependency has a name.
    pub(crate) fn has_dependency(&self, name: &str) -> bool {
        for one in &self.dependencies {
            if one.name.as_str() == name {
                return true;
            }
        }
        false
    }

    /// Adds a dependency, unless there is one of this name.
    pub(crate) fn depend(
        &mut self,
        alloc: Global,
        name: &str,
        krate: usize,
        prelude: bool,
    ) -> Result<(), AllocError> {
        if self.has_dependency(name) {
            return Ok(());
        }
        self.dependencies.push(DependencyPlan {
            name: String::from_str(alloc, name)?,
            krate,
            prelude,
        })?;
        Ok(())
    }

    /// Takes away the dependencies on a crate.
    pub(crate) fn forget(&mut self, krate: usize) {
        self.dependencies.retain(|one| one.krate != krate);
    }
}
