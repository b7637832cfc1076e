//! Names around a module of the crate whose names are searched.

use crate::meaning::Meaning;
use crate::search::cell::SlotKey;
use crate::search::maps::Maps;
use crate::search::shown::{Found, Who, certain, if_seen};
use crate::search::state::Search;
use dm_base::ids::ModuleId;
use dm_base::per_ns::Namespace;
use std::alloc::AllocError;

/// A crate of the extern prelude as a type, a macro of the `macro_use` prelude as a macro.
fn preluded<M: Maps>(maps: &M, m: ModuleId, name: usize, namespace: Namespace) -> Option<Meaning> {
    match namespace {
        Namespace::Types => maps.extern_crate(m, name),
        Namespace::Values => None,
        Namespace::Macros => maps.used_macro(m, name),
    }
}

/// A builtin type, where a type is asked for.
fn builtin_in<M: Maps>(maps: &M, name: usize, namespace: Namespace) -> Found {
    match namespace {
        Namespace::Types => certain(maps.builtin(name)),
        Namespace::Values | Namespace::Macros => Found::Nothing,
    }
}

impl Search {
    /// A name of the standard prelude, or of another module that stands for it.
    fn in_prelude<M: Maps>(
        &mut self,
        maps: &M,
        who: Who,
        name: usize,
        namespace: Namespace,
    ) -> Result<Found, AllocError> {
        match maps.prelude_of(who.home) {
            None => Ok(Found::Nothing),
            Some(m) => self.in_module(maps, who, SlotKey { m, name, namespace }),
        }
    }

    /// A name of a module, as it is shown.
    pub(crate) fn in_module<M: Maps>(
        &mut self,
        maps: &M,
        who: Who,
        key: SlotKey,
    ) -> Result<Found, AllocError> {
        if maps.is_own(key.m) {
            let slot = self.number(maps, key)?;
            return Ok(self.shown(maps, who, slot));
        }
        let found = maps.bound(key.m, key.name, key.namespace);
        Ok(if_seen(maps, who.home, found))
    }

    /// What a module without preludes has around it: builtin types, and the macros of the compiler that the standard
    /// prelude has.
    fn around_bare<M: Maps>(
        &mut self,
        maps: &M,
        who: Who,
        name: usize,
        namespace: Namespace,
    ) -> Result<Found, AllocError> {
        let builtin = builtin_in(maps, name, namespace);
        match self.in_prelude(maps, who, name, namespace)? {
            Found::Is(found, slot) if maps.is_compilers(found) => Ok(Found::Is(found, slot)),
            Found::Is(_, _) | Found::Nothing => Ok(builtin),
            Found::Waits(slot, _) => Ok(Found::Waits(slot, matches!(builtin, Found::Is(_, _)))),
        }
    }

    /// Crates and macros of preludes go before the standard prelude, and that before builtin types. Where it is not known
    /// yet what the standard prelude has, as in the crate that it is of, a builtin type may be left.
    pub(crate) fn around<M: Maps>(
        &mut self,
        maps: &M,
        who: Who,
        name: usize,
        namespace: Namespace,
    ) -> Result<Found, AllocError> {
        if maps.is_bare(who.home) {
            return self.around_bare(maps, who, name, namespace);
        }
        let first = preluded(maps, who.home, name, namespace);
        if first.is_some() {
            return Ok(certain(first));
        }
        let builtin = builtin_in(maps, name, namespace);
        match self.in_prelude(maps, who, name, namespace)? {
            Found::Nothing => Ok(builtin),
            Found::Waits(slot, _) => Ok(Found::Waits(slot, matches!(builtin, Found::Is(_, _)))),
            found => Ok(found),
        }
    }
}
