//! Fault injection: rounds of both kinds over unresolved imports, and what changes a world between rounds.
use crate::tests::worlds::{
    Bound, CRATE_MAP, Call, ROOT, RULES, THE_STRUCT, ast, dump_of, world_of,
};
use crate::tests::{path, same};
use defmap_callers::collecting::{Glob, collected};
use defmap_callers::maps::Refused;
use defmap_callers::rounds::declare_between;
use dm_base::ids::{ModuleId, TraitId, UseId, UseTreeIdx};
use dm_base::imports::{GlobId, ImportId};
use dm_base::item_ids::{ItemKind, ModuleDefId};
use dm_base::mod_path::PathKind;
use dm_base::name::Name;
use dm_base::visibility::Visibility;
use dm_retry::import_kind::ImportKind;
use dm_retry::pending::Pending;
use dm_retry::retry::Retry;
use dm_retry::round_kind::RoundKind;
use dm_scope::diagnostics::DefDiagnostic;
use std::alloc::{AllocError, Global};

/// A module of the root, which has a struct and a trait.
const CHILD: ModuleId = ModuleId(1);

const TRAIT: TraitId = TraitId(1);

/// A crate where the root has a module `a`, and that the struct `S` and the trait `T`.
const CALLS: [Call; 8] = [
    Call::Module(0, "a"),
    Call::Use(0),
    Call::Item(ItemKind::Struct, 1),
    Call::Item(ItemKind::Trait, 1),
    Call::Rules,
    Call::Declare(0, "a", ModuleDefId::ModuleId(CHILD)),
    Call::Declare(1, "S", THE_STRUCT),
    Call::Declare(1, "T", ModuleDefId::TraitId(TRAIT)),
];

/// `use a::*;`, in the root.
const GLOB: Glob = Glob {
    into: ROOT,
    from: CHILD,
    import: GlobId {
        use_: UseId(0),
        idx: UseTreeIdx(9),
    },
};

/// Unresolved imports in a checked world.
struct Waiting {
    retry: Retry,
}

/// A hand-written `Drop`, as for a builder.
impl Drop for Waiting {
    fn drop(self) {
        let Waiting { retry: _retry } = self;
    }
}

impl Bound {
    /// Unresolved imports in the world, if they are taken.
    fn waiting(self, pendings: Vec<Pending>) -> Option<Waiting> {
        let Bound { world, globs } = self;
        match Retry::new(world, globs, pendings) {
            Ok(retry) => Some(Waiting { retry }),
            Err((_fault, _world, _globs, _pendings)) => None,
        }
    }
}

/// The import of a name into the root, which is public.
fn pending(
    alloc: Global,
    name: &str,
    kind: PathKind,
    segments: &[&str],
    place: u32,
) -> Result<Pending, AllocError> {
    let path = path(alloc, kind, segments)?;
    let name = Name::new(alloc, name)?;
    let import = ImportId {
        use_: UseId(0),
        idx: UseTreeIdx(place),
    };
    Ok(Pending::new(ROOT, name, path, Visibility::Public, import))
}

/// `use Y as X;`, `use crate::a::S as Y;` and `use crate::a::T as _;`: the first needs what the second binds.
fn imports(alloc: Global) -> Result<Vec<Pending>, AllocError> {
    let mut pendings = Vec::new(alloc);
    pendings.push(pending(alloc, "X", PathKind::Plain, &["Y"], 0)?)?;
    pendings.push(pending(alloc, "Y", PathKind::Crate, &["a", "S"], 1)?)?;
    let unnamed = pending(alloc, "_", PathKind::Crate, &["a", "T"], 2)?;
    pendings.push(unnamed.with_kind(ImportKind::Unnamed))?;
    Ok(pendings)
}

/// These in that crate.
fn waiting_imports(alloc: Global) -> Option<Waiting> {
    let pendings = again!(imports(alloc)).ok()?;
    world_of(alloc, &CALLS)?.waiting(pendings)
}

impl Waiting {
    /// Adds `use nope as N;`, which a failed call hands back.
    fn add_last(&mut self, alloc: Global) -> Option<bool> {
        let last = again!(pending(alloc, "N", PathKind::Plain, &["nope"], 3)).ok()?;
        match self.retry.add(last) {
            Ok(()) => Some(true),
            Err((_fault, back)) => Some(self.retry.add(back).is_ok()),
        }
    }

    /// Settles the imports and fills the glob; how many are unresolved then.
    fn count_left(&mut self, alloc: Global) -> Option<usize> {
        let places = again!(collected(&mut self.retry, &[GLOB], 4, alloc)).ok()??;
        Some(places.len())
    }

    /// Declares `Z` in the root, which no import has as a segment.
    fn declare(&mut self, alloc: Global) -> Result<bool, Refused> {
        let lookup = (ROOT, Name::new(alloc, "Z")?);
        declare_between(&mut self.retry, lookup, THE_STRUCT)
    }

    /// Adds the macro as `Y`, which the first import has as a segment.
    fn add_macro_use(&mut self, alloc: Global) -> Result<bool, AllocError> {
        let world = self.retry.world();
        if world.lacks_map(CRATE_MAP) || !world.knows_def(ModuleDefId::MacroId(RULES)) {
            return Ok(false);
        }
        let name = Name::new(alloc, "Y")?;
        self.retry.add_macro_use(CRATE_MAP, name, RULES, None)?;
        Ok(true)
    }

    fn import_trait(&mut self) -> Result<bool, AllocError> {
        let vis = Visibility::Public;
        if !self
            .retry
            .world()
            .knows_unnamed_trait(ROOT, TRAIT, vis, None)
        {
            return Ok(false);
        }
        self.retry.push_unnamed_trait(ROOT, TRAIT, vis, None)?;
        Ok(true)
    }

    fn report(&mut self) -> Result<bool, AllocError> {
        let diagnostic = DefDiagnostic::unresolved_import(ROOT, ast(7), UseTreeIdx(0));
        let world = self.retry.world();
        if world.lacks_map(CRATE_MAP) || !world.knows_diagnostic(&diagnostic) {
            return Ok(false);
        }
        self.retry.add_diagnostic(CRATE_MAP, diagnostic)?;
        Ok(true)
    }

    /// Whether each change is made.
    fn change(&mut self, alloc: Global) -> Option<[bool; 4]> {
        Some([
            again!(self.declare(alloc)).ok()?,
            again!(self.add_macro_use(alloc)).ok()?,
            again!(self.import_trait()).ok()?,
            again!(self.report()).ok()?,
        ])
    }

    /// Which of the first two imports are due, and how many diagnostics there are.
    fn told(&self) -> Option<([Option<bool>; 2], usize)> {
        let map = self.retry.world().map_of(ROOT)?;
        let due = [self.retry.due(0), self.retry.due(1)];
        Some((due, map.diagnostics().len()))
    }
}

/// Whether the last import was added, how many are unresolved then, whether each change is made, and what is told.
type Told = (bool, usize, [bool; 4], ([Option<bool>; 2], usize));

/// The dump in the end, and what else is told, after rounds of these kinds.
fn end(alloc: Global, kinds: &[RoundKind]) -> Option<(String, Told)> {
    let mut waiting = waiting_imports(alloc)?;
    again!(waiting.retry.rounds(kinds)).ok()?;
    let added = waiting.add_last(alloc)?;
    let left = waiting.count_left(alloc)?;
    let made = waiting.change(alloc)?;
    let told = waiting.told()?;
    let text = dump_of(waiting.retry.world())?;
    Some((text, (added, left, made, told)))
}

/// The import as `_` has brought the trait once, and the change a second time. The macro makes the first import due.
#[test]
fn what_is_refused_in_rounds_and_between_is_made_again(rt: HostRuntime) {
    let wanted = (true, 1, [true; 4], ([Some(true), Some(false)], 1));
    for kind in [RoundKind::All, RoundKind::Changed] {
        let (text, told) = end(rt.alloc(), &[kind; 3]).expect(&rt, "imports that are taken");
        same(
            &rt,
            &text.as_str(),
            &"crate
- _ : type (import)
- _ : type
- S : type (glob)
- T : type (glob)
- X : type (import)
- Y : type (import)
- Z : type
- a : type

crate::a
- S : type
- T : type
",
        );
        same(&rt, &told, &wanted);
    }
}
