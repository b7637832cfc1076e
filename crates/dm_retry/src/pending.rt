//! Unresolved imports.
ghost use Rattle.std.specs.Prelude.{◌≡◌, ◌↔◌, false, IsTrue};
ghost use Rattle.std.specs.List.{list_any};
ghost use Rattle.dm_maps.specs.Holding.{vis_holds};
ghost use Rattle.dm_maps.specs.Known.{KnowsAll};
ghost use Rattle.dm_retry.specs.Known.{first_double, first_unknown, is_known, is_listed, parts, same_leaf};
ghost use Rattle.dm_retry.specs.Doubles.{number_of};
ghost use Rattle.dm_retry.specs.Rounds.{marked};
ghost use Rattle.dm_retry.specs.declared.import_kind.ImportKind.TheVariants as kind;

use crate::import_kind::ImportKind;
use dm_base::ids::ModuleId;
use dm_base::imports::{ImportId, ImportOrExternCrate};
use dm_base::item_ids::ModuleDefId;
use dm_base::mod_path::ModPath;
use dm_base::name::Name;
use dm_base::per_ns::PerNs;
use dm_base::visibility::Visibility;
use dm_maps::world::World;
use std::marker::Model;

/// An unresolved import, and whether it is due (dirty): it was not tried yet, or a name on its path was bound since.
pub struct Pending {
    origin: ModuleId,
    name: Name,
    path: ModPath,
    visibility: Visibility,
    kind: ImportKind,
    import: ImportId,
    due: bool,
    rank: usize,
}

/// Hand-written `Drop`, to keep proofs small: dropping one is then a single call.
impl Drop for Pending {
    fn drop(self) {
        let Pending {
            origin: _origin,
            name: _name,
            path: _path,
            visibility: _visibility,
            kind: _kind,
            import: _import,
            due: _due,
            rank: _rank,
        } = self;
    }
}

impl Model for Pending {
    ghost use Rattle.dm_retry.specs.Rounds.{Pending};

    ghost Value = { Pending };

    ghost view = { λ p. record { origin = p.origin; name = p.name; path = p.path; visibility = p.visibility; kind = p.kind; import = p.import; due = p.due } };
}

impl Pending {
    /// The import of a name into a module, by a path, with `visibility`: a plain one. It is due where rounds begin.
    pub fn new(
        origin: ModuleId,
        name: Name,
        path: ModPath,
        visibility: Visibility,
        import: ImportId,
    ) -> Pending
        ensures { result
            ≡ record {
              origin = origin;
              name = name;
              path = path;
              visibility = visibility;
              kind = kind.Plain;
              import = import;
              due = false;
            } }
    {
        Pending {
            origin,
            name,
            path,
            visibility,
            kind: ImportKind::Plain,
            import,
            due: false,
            rank: 0,
        }
    }

    /// The same import as one of another kind.
    pub fn with_kind(self, kind: ImportKind) -> Pending
        ensures { result ≡ record self { kind = kind } }
    {
        let mut changed = self;
        changed.kind = kind;
        changed
    }

    /// The module that contains the import.
    pub fn origin(&self) -> ModuleId
        ensures { result ≡ self.now.origin }
    {
        self.origin
    }

    /// The name that it binds.
    pub fn name(&self) -> &Name
        ensures { result.now ≡ self.now.name }
    {
        &self.name
    }

    /// Its path.
    pub fn path(&self) -> &ModPath
        ensures { result.now ≡ self.now.path }
    {
        &self.path
    }

    /// Who sees what it binds.
    pub fn visibility(&self) -> Visibility
        ensures { result ≡ self.now.visibility }
    {
        self.visibility
    }

    /// What it brings of the items that its path means.
    pub fn kind(&self) -> ImportKind
        ensures { result ≡ self.now.kind }
    {
        self.kind
    }

    /// The import itself.
    pub fn import(&self) -> ImportId
        ensures { result ≡ self.now.import }
    {
        self.import
    }

    /// The number of the import.
    pub(crate) fn number(&self) -> u64
        ensures { result ≡ number_of self.now.import }
    {
        let ImportId { use_, idx } = self.import;
        use_.0 as u64 * 4_294_967_296 + idx.0 as u64
    }

    /// The rank that it was given last (`ranks`). No view shows it.
    pub(crate) fn rank(&self) -> usize {
        self.rank
    }

    /// Gives it a rank, which no view shows.
    pub(crate) fn set_rank(&mut self, rank: usize)
        ensures { self.new ≡ self.old }
    {
        self.rank = rank;
    }

    /// Whether its module, its use, the `$crate` of its path and what its visibility names are the world's.
    pub fn is_known(&self, world: &World) -> bool
        ensures { result ≡ is_known world.now self.now }
    {
        let import = ImportOrExternCrate::Import(self.import);
        let placed = world.knows_res(self.origin, &PerNs::none(), Some(import));
        let begun = world.knows_path(&self.path);
        let seen = knows_visibility(world, self.visibility);
        placed && begun && seen
    }
}

impl Pending {
    /// The segments of its path.
    pub(crate) fn segments(&self) -> &[Name]
        ensures { result.now ≡ self.now.path.segments }
    {
        self.path.segments()
    }

    /// Whether it is due.
    pub(crate) fn is_due(&self) -> bool
        ensures { result ≡ self.now.due }
    {
        self.due
    }

    /// Says whether it is due.
    pub(crate) fn set_due(&mut self, due: bool)
        ensures { self.new ≡ marked due self.old }
    {
        self.due = due;
    }
}

/// Whether what a visibility names is the world's.
fn knows_visibility(world: &World, visibility: Visibility) -> bool
    ensures { IsTrue result ↔ KnowsAll world.now (vis_holds visibility) }
{
    match visibility {
        Visibility::Module(m, _) => world.knows_def(ModuleDefId::ModuleId(m)),
        Visibility::PubCrate(krate) => world.has_crate(krate),
        Visibility::Public => true,
    }
}

/// The index of the first import that is listed twice, found by a comparison of each two. Allocates nothing.
pub fn first_double(pendings: &[Pending]) -> Option<usize>
    ensures { result ≡ first_double pendings.now }
{
    let mut rest = pendings;
    let mut place = 0;
    'imports: while let Some((first, after)) = rest.split_first() {
        if has_import(after, first.import()) {
            return Some(place);
        }
        rest = after;
        place += 1;
    }
    None
}

/// Whether one of these is that import.
pub(crate) fn has_import(pendings: &[Pending], import: ImportId) -> bool
    ensures { result ≡ is_listed pendings.now import }
{
    pendings.iter().any(|q| import == q.import())
}

/// The index of the first import that holds an id the world does not have.
pub fn first_unknown(world: &World, pendings: &[Pending]) -> Option<usize>
    ensures { result ≡ first_unknown world.now pendings.now }
{
    pendings.iter().position(|p| !p.is_known(world))
}
