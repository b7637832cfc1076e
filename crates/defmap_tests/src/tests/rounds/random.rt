//! Pseudo-random numbers, and what is drawn by them for a small world: its modules, names, items and imports.
ghost use Rattle.std.specs.Prelude.{◌<◌};

use dm_base::ids::{FunctionId, ModuleId, StructId, TraitId, UseId, UseTreeIdx};
use dm_base::imports::{GlobId, ImportId};
use dm_base::item_ids::{AdtId, ModuleDefId};
use dm_base::mod_path::{ModPath, PathKind};
use dm_base::name::Name;
use dm_base::per_ns::PerNs;
use dm_base::visibility::{Visibility, VisibilityExplicitness};
use dm_retry::import_kind::ImportKind;
use dm_retry::pending::Pending;
use std::alloc::Global;

/// A linear congruential generator: the same draws for the same seed.
pub(crate) struct Random {
    state: u32,
}

/// A hand-written `Drop`, to keep proofs small: what drops one has one call to prove.
impl Drop for Random {
    fn drop(self) {
        let Random { state: _state } = self;
    }
}

impl Random {
    /// That of a seed.
    pub(crate) fn new(seed: u32) -> Random {
        let state = seed.wrapping_mul(2_654_435_761);
        Random { state }
    }

    /// A number below a bound. The lower half of the state is left out, since it repeats soon.
    pub(crate) fn below(&mut self, bound: u32) -> u32
        requires { 0 < bound }
        ensures { result < bound }
    {
        self.state = self
            .state
            .wrapping_mul(1_664_525)
            .wrapping_add(1_013_904_223);
        self.state / 65_536 % bound
    }

    /// One of the four modules, in half of the cases the root.
    pub(crate) fn module(&mut self) -> ModuleId {
        match self.below(6) {
            1 => ModuleId(1),
            2 => ModuleId(2),
            3 => ModuleId(3),
            _ => ModuleId(0),
        }
    }

    /// One of the five names.
    pub(crate) fn name(&mut self, alloc: Global) -> Option<Name> {
        let text = match self.below(5) {
            0 => "a",
            1 => "b",
            2 => "c",
            3 => "x",
            _ => "y",
        };
        Name::new(alloc, text).ok()
    }

    /// Public, or inside a module.
    fn visibility(&mut self) -> Visibility {
        if self.below(2) == 0 {
            return Visibility::Public;
        }
        Visibility::Module(self.module(), VisibilityExplicitness::Explicit)
    }

    /// A module, a struct or a trait.
    fn type_(&mut self) -> ModuleDefId {
        match self.below(4) {
            0 => ModuleDefId::AdtId(AdtId::StructId(StructId(self.below(4)))),
            1 => ModuleDefId::TraitId(TraitId(self.below(4).wrapping_add(8))),
            _ => ModuleDefId::ModuleId(self.module()),
        }
    }

    /// A function.
    fn value(&mut self) -> ModuleDefId {
        ModuleDefId::FunctionId(FunctionId(self.below(4).wrapping_add(4)))
    }

    /// A type, a value, both, or now and then nothing.
    pub(crate) fn items(&mut self) -> PerNs {
        let vis = self.visibility();
        match self.below(8) {
            0 => PerNs::none(),
            1 => PerNs::values(self.value(), vis, None),
            2 => PerNs::both(self.type_(), self.value(), vis, None),
            _ => PerNs::types(self.type_(), vis, None),
        }
    }

    /// One of three glob imports.
    pub(crate) fn glob(&mut self) -> GlobId {
        GlobId {
            use_: UseId(0),
            idx: UseTreeIdx(self.below(3)),
        }
    }

    /// A path of one segment or two, plain or `crate::`.
    fn path(&mut self, alloc: Global) -> Option<ModPath> {
        let mut segments = Vec::new(alloc);
        segments.push(self.name(alloc)?).ok()?;
        if self.below(2) == 0 {
            segments.push(self.name(alloc)?).ok()?;
        }
        let kind = if self.below(2) == 0 {
            PathKind::Crate
        } else {
            PathKind::Plain
        };
        Some(ModPath::from_segments(kind, segments))
    }

    fn kind(&mut self) -> ImportKind {
        match self.below(5) {
            0 => ImportKind::TypeOnly,
            1 => ImportKind::ReExport,
            2 => ImportKind::Unnamed,
            _ => ImportKind::Plain,
        }
    }

    /// The name that an import by a path binds: in one case of three the first of the path, so that it can change its own
    /// meaning.
    fn bound_name(&mut self, alloc: Global, path: &ModPath) -> Option<Name> {
        if self.below(3) == 0 {
            return path.segments().first()?.copy(alloc).ok();
        }
        self.name(alloc)
    }

    /// The import of that number.
    pub(crate) fn import(&mut self, alloc: Global, number: u32) -> Option<Pending> {
        let id = ImportId {
            use_: UseId(0),
            idx: UseTreeIdx(number),
        };
        let origin = self.module();
        let path = self.path(alloc)?;
        let name = self.bound_name(alloc, &path)?;
        let pending = Pending::new(origin, name, path, self.visibility(), id);
        Some(pending.with_kind(self.kind()))
    }
}
