//! What is known of crates before anything is answered: the macro calls among their items, what these and other things hide,
//! and the lines of the files.
use crate::crates::Crates;
use crate::hidden::Hidden;
use crate::macro_homes::{MacroHome, macro_homes};
use crate::places::Lines;
use crate::rows::Style;
use dm_base::ids::ModuleId;
use indexmap::IndexMap;
use std::alloc::{AllocError, Global};

/// The crates, with what is hidden in them.
pub struct Survey<'a, C: Crates> {
    /// How answers are written.
    pub(crate) style: Style,
    pub(crate) hidden: Hidden<'a, C>,
    /// The macro calls, those of a module together, in the order in which they stand there.
    pub(crate) calls: Vec<MacroHome>,
    /// Where among these the first of a module stands.
    first_calls: IndexMap<ModuleId, usize>,
    pub(crate) lines: Lines<'a>,
}

/// A hand-written `Drop`, to keep proofs small: what drops one has one call to prove.
impl<'a, C: Crates> Drop for Survey<'a, C> {
    fn drop(self) {
        let Survey {
            style: _style,
            hidden: _hidden,
            calls: _calls,
            first_calls: _first_calls,
            lines: _lines,
        } = self;
    }
}

/// The macro calls of all crates, module by module.
fn sorted_calls<C: Crates>(alloc: Global, crates: &C) -> Result<Vec<MacroHome>, AllocError> {
    let mut calls = macro_homes(alloc, crates)?;
    calls.sort_by_key(|call| call.module.0)?;
    Ok(calls)
}

/// Where the first call of each module stands.
fn first_places(
    alloc: Global,
    calls: &[MacroHome],
) -> Result<IndexMap<ModuleId, usize>, AllocError> {
    let mut first = IndexMap::new(alloc);
    for (place, call) in calls.iter().enumerate() {
        if !first.contains_key(&call.module) {
            first.insert(call.module, place)?;
        }
    }
    Ok(first)
}

impl<'a, C: Crates> Survey<'a, C> {
    /// What is known of crates. `has_sysroot` says whether those of the standard library are given.
    pub fn of(
        alloc: Global,
        crates: &'a C,
        has_sysroot: bool,
        style: Style,
    ) -> Result<Survey<'a, C>, AllocError> {
        let calls = sorted_calls(alloc, crates)?;
        Ok(Survey {
            style,
            hidden: Hidden::of(alloc, crates, has_sysroot, calls.as_slice())?,
            first_calls: first_places(alloc, calls.as_slice())?,
            lines: Lines::new(alloc, crates.files())?,
            calls,
        })
    }

    pub fn alloc(&self) -> Global {
        self.hidden.alloc()
    }

    pub fn crates(&self) -> &'a C {
        self.hidden.crates()
    }

    pub fn style(&self) -> Style {
        self.style
    }

    /// The lines of the files.
    pub fn lines(&self) -> &Lines<'a> {
        &self.lines
    }

    /// The macro calls of a module, and behind them those of other modules.
    pub(crate) fn calls_from(&self, module: ModuleId) -> &[MacroHome] {
        match self.first_calls.get(&module) {
            None => &[],
            Some(place) => self.calls.get(*place..).unwrap_or(&[]),
        }
    }
}
