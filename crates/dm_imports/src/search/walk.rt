//! How far the path of an import or a glob leads while names are searched.

use crate::container::Container;
use crate::meaning::public_def;
use crate::paths::containers::led;
use crate::search::cell::SlotKey;
use crate::search::leaf::Path;
use crate::search::maps::Maps;
use crate::search::shown::{Found, Named, Who, certain, if_seen, seen_in};
use crate::search::state::Search;
use dm_base::ids::ModuleId;
use dm_base::item_ids::ModuleDefId;
use dm_base::mod_path::PathKind;
use dm_base::per_ns::Namespace;
use std::alloc::AllocError;

/// A module itself, as a type.
fn itself(m: ModuleId, namespace: Namespace) -> Found {
    match namespace {
        Namespace::Types => Found::Is(public_def(ModuleDefId::ModuleId(m)), None),
        Namespace::Values | Namespace::Macros => Found::Nothing,
    }
}

/// What a path without a name means: in edition 2015 the crate's root.
fn of_no_name<M: Maps>(maps: &M, home: ModuleId, namespace: Namespace) -> Found {
    match maps.start(home, PathKind::Crate) {
        Some(root) if maps.is_2015(home) => itself(root, namespace),
        _ => Found::Nothing,
    }
}

/// An extern crate, where a type is asked for.
fn extern_crate_in<M: Maps>(maps: &M, m: ModuleId, name: usize, namespace: Namespace) -> Found {
    match namespace {
        Namespace::Types => certain(maps.extern_crate(m, name)),
        Namespace::Values | Namespace::Macros => Found::Nothing,
    }
}

/// Whether something is found, or may be yet.
fn may_be(found: Found) -> bool {
    !matches!(found, Found::Nothing)
}

impl Search {
    /// A name of a container, where it is seen.
    fn member<M: Maps>(
        &mut self,
        maps: &M,
        who: Who,
        container: Container,
        name: usize,
        namespace: Namespace,
    ) -> Result<Found, AllocError> {
        match container {
            Container::Module(m) => self.in_module(maps, who, SlotKey { m, name, namespace }),
            Container::Enum(e) => Ok(if_seen(maps, who.home, maps.variant(e, name, namespace))),
        }
    }

    /// Segments in a container: each but the last one leads on as a type.
    fn through<M: Maps>(
        &mut self,
        maps: &M,
        who: Who,
        container: Container,
        segments: &[usize],
        namespace: Namespace,
    ) -> Result<Found, AllocError> {
        let mut at = container;
        let last = segments.len().saturating_sub(1);
        for (place, name) in segments.iter().enumerate() {
            if place == last {
                return self.member(maps, who, at, *name, namespace);
            }
            match self.member(maps, who, at, *name, Namespace::Types)? {
                Found::Is(meaning, _slot) => match led(Some(meaning)) {
                    None => return Ok(Found::Nothing),
                    Some(into) => at = into,
                },
                found => return Ok(found),
            }
        }
        Ok(Found::Nothing)
    }

    /// What segments mean from a module, if there is one.
    fn from_module<M: Maps>(
        &mut self,
        maps: &M,
        who: Who,
        m: Option<ModuleId>,
        segments: &[usize],
        namespace: Namespace,
    ) -> Result<Found, AllocError> {
        match m {
            None => Ok(Found::Nothing),
            Some(m) => {
                if segments.is_empty() {
                    Ok(itself(m, namespace))
                } else {
                    self.through(maps, who, Container::Module(m), segments, namespace)
                }
            }
        }
    }

    /// What globs bring to a slot of the module, as far as is known.
    fn by_own_globs<M: Maps>(&self, maps: &M, home: ModuleId, slot: usize) -> Found {
        match self.cell(slot) {
            None => Found::Nothing,
            Some(cell) => self.by_globs(maps, home, slot, &cell),
        }
    }

    /// What globs bring to a slot of the module, where no name around that goes before it. While it is not known whether
    /// one does, what globs bring may be left.
    fn around_or_globs<M: Maps>(
        &mut self,
        maps: &M,
        who: Who,
        slot: usize,
        key: SlotKey,
    ) -> Result<Found, AllocError> {
        let found = self.around(maps, who, key.name, key.namespace)?;
        let by_globs = self.by_own_globs(maps, who.home, slot);
        match found {
            Found::Nothing => Ok(by_globs),
            Found::Waits(at, is_left) => Ok(Found::Waits(at, is_left || may_be(by_globs))),
            found => Ok(found),
        }
    }

    /// A slot that an import may still bind: a name around the module may be left.
    fn held_at<M: Maps>(
        &mut self,
        maps: &M,
        who: Who,
        slot: usize,
        key: SlotKey,
    ) -> Result<Found, AllocError> {
        let around = self.around(maps, who, key.name, key.namespace)?;
        Ok(Found::Waits(slot, may_be(around)))
    }

    /// The first segment: what the module declares or imports by name goes before the names around it, and those before
    /// what globs bring.
    fn in_home<M: Maps>(
        &mut self,
        maps: &M,
        who: Who,
        name: usize,
        namespace: Namespace,
    ) -> Result<Found, AllocError> {
        let m = who.home;
        let key = SlotKey { m, name, namespace };
        let slot = self.number(maps, key)?;
        let Some(cell) = self.cell(slot) else {
            return Ok(Found::Nothing);
        };
        if cell.declared.is_some() {
            return Ok(certain(cell.declared));
        }
        match self.named(who, slot, &cell) {
            Named::Is(meaning) => Ok(seen_in(maps, who.home, slot, meaning)),
            Named::Held => self.held_at(maps, who, slot, key),
            Named::Nothing => self.around_or_globs(maps, who, slot, key),
        }
    }

    /// In edition 2015: what the crate's root has.
    fn in_root<M: Maps>(
        &mut self,
        maps: &M,
        who: Who,
        name: usize,
        namespace: Namespace,
    ) -> Result<Found, AllocError> {
        match maps.start(who.home, PathKind::Crate) {
            None => Ok(Found::Nothing),
            Some(m) => self.in_module(maps, who, SlotKey { m, name, namespace }),
        }
    }

    /// The first segment of a path.
    fn first<M: Maps>(
        &mut self,
        maps: &M,
        who: Who,
        path: &Path,
        name: usize,
        namespace: Namespace,
    ) -> Result<Found, AllocError> {
        if maps.is_2015(who.home) {
            return self.in_root(maps, who, name, namespace);
        }
        if matches!(path.kind, PathKind::Abs) {
            return Ok(extern_crate_in(maps, who.home, name, namespace));
        }
        match (namespace, path.textual) {
            (Namespace::Macros, Some(id)) => Ok(certain(maps.textual(who.home, id, name))),
            _ => self.in_home(maps, who, name, namespace),
        }
    }

    /// What a path means whose first segment is looked up.
    fn from_first<M: Maps>(
        &mut self,
        maps: &M,
        who: Who,
        path: &Path,
        namespace: Namespace,
    ) -> Result<Found, AllocError> {
        let Some((name, rest)) = path.segments.split_first() else {
            return Ok(of_no_name(maps, who.home, namespace));
        };
        if rest.is_empty() {
            return self.first(maps, who, path, *name, namespace);
        }
        match self.first(maps, who, path, *name, Namespace::Types)? {
            Found::Is(meaning, _slot) => match led(Some(meaning)) {
                None => Ok(Found::Nothing),
                Some(into) => self.through(maps, who, into, rest, namespace),
            },
            found => Ok(found),
        }
    }

    /// What a path means, as far as is known.
    pub(crate) fn walk<M: Maps>(
        &mut self,
        maps: &M,
        who: Who,
        path: &Path,
        namespace: Namespace,
    ) -> Result<Found, AllocError> {
        match path.kind {
            PathKind::Plain | PathKind::Abs => self.from_first(maps, who, path, namespace),
            kind => {
                let from = maps.start(who.home, kind);
                self.from_module(maps, who, from, path.segments.as_slice(), namespace)
            }
        }
    }
}
