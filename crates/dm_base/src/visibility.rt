//! Visibility: which modules see an item, and the most and the least permissive of two visibilities.
ghost use Rattle.std.specs.Prelude.{◌≡◌};
ghost use Rattle.dm_base.specs.declared.visibility.Visibility.TheVariants.{Module};
ghost use Rattle.dm_base.specs.declared.visibility.VisibilityExplicitness.TheVariants as explicitness;
ghost use Rattle.dm_base.specs.Tree.{Tree, IsKnown, IsTree, lies_in, is_ancestor, is_lifted, lift_to, sees};
ghost use Rattle.dm_base.specs.Visibility.{NamesKnown, is_public, either_explicit, both_lie_in, IsMost, IsLeast, AreMostAndLeast, IsNoneWhereApart};

use crate::ids::{Crate, MapId, ModuleId};
use crate::mod_path::ModPath;
use crate::module_tree::ModuleTree;

/// Whether a visibility is explicit (written), or implicit (it follows from where the item stands).
#[derive(Clone, Copy, PartialEq, Eq, Hash, Debug)]
pub enum VisibilityExplicitness {
    Explicit,
    Implicit,
}

/// A visibility as it is written, before its path is resolved.
#[derive(PartialEq, Eq, Debug)]
pub enum RawVisibility {
    /// `pub(in path)` and the like.
    Module(ModPath, VisibilityExplicitness),
    /// `pub(self)`, or none written.
    PubSelf(VisibilityExplicitness),
    PubCrate,
    Public,
}

/// Hand-written `Drop`, to keep proofs small: dropping one is then a single call.
impl Drop for RawVisibility {
    fn drop(self) {
        match self {
            RawVisibility::Module(_path, _explicitness) => {}
            RawVisibility::PubSelf(_explicitness) => {}
            RawVisibility::PubCrate => {}
            RawVisibility::Public => {}
        }
    }
}

/// Who sees an item: a module and what lies in it, a crate, or everyone.
#[derive(Clone, Copy, PartialEq, Eq, Hash, Debug)]
pub enum Visibility {
    Module(ModuleId, VisibilityExplicitness),
    PubCrate(Crate),
    Public,
}

impl Visibility {
    /// Whether everyone sees the item.
    pub fn is_public(&self) -> bool
        ensures { result ≡ is_public self.now }
    {
        matches!(self, Visibility::Public)
    }

    /// Whether modules of other crates than its own see the item.
    pub fn is_visible_from_other_crate(self) -> bool
        ensures { result ≡ is_public self }
    {
        self.is_public()
    }

    /// Whether the module `from` sees an item of this visibility (docs/RULES.md, "Who sees what").
    ///
    /// The tree has to have `from`, and the module that the visibility names. Does not allocate.
    pub fn is_visible_from<T: ModuleTree>(self, tree: &T, from: ModuleId) -> bool
        requires named { NamesKnown (T.tree tree.now) self }
        requires known { IsKnown (T.tree tree.now) from }
        ensures { result ≡ sees (T.tree tree.now) self from }
    {
        if self.is_public() {
            return true;
        }
        let map = MapId {
            krate: tree.krate(from),
            block: tree.block(from),
        };
        self.is_visible_from_def_map(tree, map, from)
    }

    /// The same, where the map that `from` lies in is at hand: `krate` and `block` of the tree tell it.
    pub fn is_visible_from_def_map<T: ModuleTree>(
        self,
        tree: &T,
        map: MapId,
        from: ModuleId,
    ) -> bool
        requires named { NamesKnown (T.tree tree.now) self }
        requires known { IsKnown (T.tree tree.now) from }
        requires lies { (T.tree tree.now).map_of from ≡ map }
        ensures { result ≡ sees (T.tree tree.now) self from }
    {
        match self {
            Visibility::Public => true,
            Visibility::PubCrate(krate) => map.krate == krate,
            Visibility::Module(to, _) => is_seen_in(tree, to, map, from),
        }
    }

    /// The most permissive of two visibilities: one of them, seen by all who see either. `None` where the table of
    /// docs/RULES.md has none.
    ///
    /// Two different modules are compared where both lie in `map`. One module twice is explicit if either is. The tree
    /// has to have the modules that the two name. Does not allocate.
    pub fn max<T: ModuleTree>(self, tree: &T, other: Visibility, map: MapId) -> Option<Visibility>
        requires one { NamesKnown (T.tree tree.now) self }
        requires two { NamesKnown (T.tree tree.now) other }
        ensures most { IsMost (T.tree tree.now) map self other result }
        ensures none { IsNoneWhereApart (T.tree tree.now) map self other result }
    {
        let (most, _) = most_and_least(tree, map, self, other)?;
        Some(most)
    }

    /// The least permissive of two visibilities: one of them, seen by those who see both. `None` where the table of
    /// docs/RULES.md has none.
    ///
    /// Two different modules are compared where both lie in `map`. One module twice is explicit if either is. The tree
    /// has to have the modules that the two name. Does not allocate.
    pub fn min<T: ModuleTree>(self, tree: &T, other: Visibility, map: MapId) -> Option<Visibility>
        requires one { NamesKnown (T.tree tree.now) self }
        requires two { NamesKnown (T.tree tree.now) other }
        ensures least { IsLeast (T.tree tree.now) map self other result }
        ensures none { IsNoneWhereApart (T.tree tree.now) map self other result }
    {
        let (_, least) = most_and_least(tree, map, self, other)?;
        Some(least)
    }
}

/// The most and the least permissive of two visibilities, in that order, where they can be compared.
fn most_and_least<T: ModuleTree>(
    tree: &T,
    map: MapId,
    one: Visibility,
    two: Visibility,
) -> Option<(Visibility, Visibility)>
    requires one { NamesKnown (T.tree tree.now) one }
    requires two { NamesKnown (T.tree tree.now) two }
    ensures { AreMostAndLeast (T.tree tree.now) map one two result }
{
    match (one, two) {
        (Visibility::Public, least) | (least, Visibility::Public) => {
            Some((Visibility::Public, least))
        }
        (Visibility::PubCrate(k), Visibility::PubCrate(l)) => {
            if k == l { Some((one, two)) } else { None }
        }
        (Visibility::Module(m, _), Visibility::PubCrate(krate)) => {
            if tree.krate(m) == krate {
                Some((two, one))
            } else {
                None
            }
        }
        (Visibility::PubCrate(krate), Visibility::Module(m, _)) => {
            if tree.krate(m) == krate {
                Some((one, two))
            } else {
                None
            }
        }
        (Visibility::Module(a, x), Visibility::Module(b, y)) => {
            most_and_least_of_modules(tree, map, (a, x), (b, y))
        }
    }
}

/// The most and the least permissive of visibilities in two modules: those of the outer and of the inner one.
fn most_and_least_of_modules<T: ModuleTree>(
    tree: &T,
    map: MapId,
    one: (ModuleId, VisibilityExplicitness),
    two: (ModuleId, VisibilityExplicitness),
) -> Option<(Visibility, Visibility)>
    requires one { IsKnown (T.tree tree.now) one.0 }
    requires two { IsKnown (T.tree tree.now) two.0 }
    ensures { AreMostAndLeast (T.tree tree.now) map (Module one.0 one.1) (Module two.0 two.1) result }
{
    let (a, x) = one;
    let (b, y) = two;
    if a == b {
        let both = Visibility::Module(a, either_explicit(x, y));
        return Some((both, both));
    }
    if !both_lie_in(tree, map, a, b) {
        return None;
    }
    if is_ancestor(tree, b, a) {
        return Some((Visibility::Module(b, y), Visibility::Module(a, x)));
    }
    if is_ancestor(tree, a, b) {
        return Some((Visibility::Module(a, x), Visibility::Module(b, y)));
    }
    None
}

/// Explicit if either is.
fn either_explicit(x: VisibilityExplicitness, y: VisibilityExplicitness) -> VisibilityExplicitness
    ensures { result ≡ either_explicit x y }
{
    match x {
        VisibilityExplicitness::Explicit => x,
        VisibilityExplicitness::Implicit => y,
    }
}

/// Whether two modules both lie in a map.
fn both_lie_in<T: ModuleTree>(tree: &T, map: MapId, a: ModuleId, b: ModuleId) -> bool
    requires one { IsKnown (T.tree tree.now) a }
    requires two { IsKnown (T.tree tree.now) b }
    ensures { result ≡ both_lie_in (T.tree tree.now) map a b }
{
    lies_in(tree, map, a) && lies_in(tree, map, b)
}

/// Whether a module lies in a map.
fn lies_in<T: ModuleTree>(tree: &T, map: MapId, m: ModuleId) -> bool
    requires { IsKnown (T.tree tree.now) m }
    ensures { result ≡ lies_in (T.tree tree.now) map m }
{
    tree.krate(m) == map.krate && tree.block(m) == map.block
}

/// Whether `a` contains `m`, and is not `m` itself.
fn is_ancestor<T: ModuleTree>(tree: &T, a: ModuleId, m: ModuleId) -> bool
    requires { IsKnown (T.tree tree.now) m }
    ensures value { result ≡ is_ancestor (T.tree tree.now) a m }
    ensures lawful { IsTree (T.tree tree.now) }
{
    tree.containing(m)
        .is_some_and(|outer| tree.contains(a, outer))
}

/// Whether the module `from` of a map sees what the module `to` sees.
fn is_seen_in<T: ModuleTree>(tree: &T, to: ModuleId, map: MapId, from: ModuleId) -> bool
    requires to { IsKnown (T.tree tree.now) to }
    requires from { IsKnown (T.tree tree.now) from }
    requires lies { (T.tree tree.now).map_of from ≡ map }
    ensures { result ≡ sees (T.tree tree.now) (Module to explicitness.Implicit) from }
{
    if from == to {
        return true;
    }
    if map.krate != tree.krate(to) {
        return false;
    }
    tree.contains(lifted(tree, to, map), from)
}

/// The first of `to`, the module that contains its block, and so on, that lies in no block or in the map.
fn lifted<T: ModuleTree>(tree: &T, to: ModuleId, map: MapId) -> ModuleId
    requires { IsKnown (T.tree tree.now) to }
    ensures { result ≡ lift_to (T.tree tree.now) to map }
{
    let mut at = to;
    'lift: loop {
        if is_lifted(tree, at, map) {
            return at;
        }
        match tree.outside(at) {
            None => return at,
            Some(outer) => at = outer,
        }
    }
}

/// Whether `at` lies in no block or in the map.
fn is_lifted<T: ModuleTree>(tree: &T, at: ModuleId, map: MapId) -> bool
    requires { IsKnown (T.tree tree.now) at }
    ensures { result ≡ is_lifted (T.tree tree.now) map at }
{
    tree.block(at).is_none() || lies_in(tree, map, at)
}
