//! The imports of a list by look-up.
ghost use Rattle.std.specs.Prelude.{◌≡◌, ◌||◌, None, IfSome};
ghost use Rattle.indexmap.specs.IndexSet.{contains};
ghost use Rattle.dm_base.specs.declared.imports.ImportId.{ImportId};
ghost use Rattle.dm_retry.specs.Known.{is_listed, same_leaf};
ghost use Rattle.dm_retry.specs.Listed.{IsListing, WithImport};

use crate::pending::{Pending, has_import};
use dm_base::imports::ImportId;
use indexmap::IndexSet;
use std::alloc::Global;
use std::marker::Model;

/// The imports of a list for look-ups, once it was made and if there was memory. A contract sees the imports in the
/// order in which they came.
pub(crate) struct Listing {
    imports: Option<IndexSet<ImportId>>,
}

impl Model for Listing {
    ghost use Rattle.std.specs.Prelude.{List, Option};
    ghost use Rattle.std.specs.Option.{option_map};
    ghost use Rattle.dm_base.specs.declared.imports.ImportId.{ImportId};

    ghost Value = { Option (List ImportId) };

    ghost view = { λ l. option_map (λ s. s.keys) l.imports };
}

/// A hand-written `Drop`, to keep proofs small: what drops one has one call to prove.
impl Drop for Listing {
    fn drop(self) {
        let Listing { imports: _imports } = self;
    }
}

impl Listing {
    /// None yet.
    pub(crate) fn new() -> Listing
        ensures { result ≡ None }
    {
        Listing { imports: None }
    }

    /// Makes it for a list, where it was not made, if there is memory.
    pub(crate) fn make(&mut self, alloc: Global, pendings: &[Pending])
        requires { IsListing self.old pendings.now }
        ensures { IsListing self.new pendings.now }
    {
        if self.imports.is_none() {
            self.imports = made(alloc, pendings);
        }
    }

    /// Adds the import that was added to its list.
    pub(crate) fn add(&mut self, import: ImportId)
        ensures { WithImport import self.old self.new }
    {
        if let Some(imports) = self.imports.take() {
            self.imports = with(imports, import);
        }
    }

    /// Whether an import is one of its list: by a look-up, or by a walk over the list where it was not made.
    pub(crate) fn has(&self, pendings: &[Pending], import: ImportId) -> bool
        requires { IsListing self.now pendings.now }
        ensures { result ≡ is_listed pendings.now import }
    {
        match &self.imports {
            None => has_import(pendings, import),
            Some(imports) => imports.contains(&import),
        }
    }
}

/// The imports of a list, if there is memory.
fn made(alloc: Global, pendings: &[Pending]) -> Option<IndexSet<ImportId>>
    ensures listed { IfSome result (λ made. (i : ImportId) →
        contains same_leaf made i ≡ is_listed pendings.now i) }
{
    let mut listed = IndexSet::new(alloc);
    let mut rest = pendings;
    'imports: while let Some((first, after)) = rest.split_first() {
        listed = with(listed, first.import())?;
        rest = after;
    }
    Some(listed)
}

/// Imports with one more, if there is memory.
fn with(imports: IndexSet<ImportId>, import: ImportId) -> Option<IndexSet<ImportId>>
    ensures { IfSome result (λ grown. (i : ImportId) →
        contains same_leaf grown i ≡ (contains same_leaf imports i || same_leaf i import)) }
{
    let mut grown = imports;
    match grown.insert(import) {
        Err(_) => None,
        Ok(_new) => Some(grown),
    }
}
