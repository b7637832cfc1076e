//! `Maps`: what is asked of def maps while names are searched.

use crate::container::Container;
use crate::meaning::Meaning;
use crate::search::leaf::Leaf;
use dm_base::ids::{EnumId, ModuleId};
use dm_base::item_ids::MacroId;
use dm_base::mod_path::PathKind;
use dm_base::per_ns::Namespace;
use dm_base::visibility::Visibility;
use std::alloc::AllocError;

/// The def maps in which names are searched, with the imports and globs of one crate. A name is its number among all names
/// that were asked for.
///
/// What searches is proved for any such maps, and so without the many types of a world.
pub(crate) trait Maps {
    /// The imports of the crate in order, and then its globs.
    fn leaves(&self) -> &[Leaf];

    /// The numbers of all names that a module or an enum has.
    fn names_in(&mut self, source: Container) -> Result<Vec<usize>, AllocError>;

    /// Whether a module is the crate's. The names of all others are certain.
    fn is_own(&self, m: ModuleId) -> bool;

    /// What a module binds under a name: of the crate's what it declares.
    fn bound(&self, m: ModuleId, name: usize, namespace: Namespace) -> Option<Meaning>;

    /// A variant of an enum.
    fn variant(&self, e: EnumId, name: usize, namespace: Namespace) -> Option<Meaning>;

    /// Whether a module sees what has a visibility.
    fn sees(&self, m: ModuleId, vis: Visibility) -> bool;

    /// The least permissive of two visibilities in a module.
    fn least(&self, m: ModuleId, one: Visibility, two: Visibility) -> Visibility;

    /// The most permissive of two visibilities in a module.
    fn most(&self, m: ModuleId, one: Visibility, two: Visibility) -> Visibility;

    /// The module at which a path of a module begins, if it names one.
    fn start(&self, m: ModuleId, kind: PathKind) -> Option<ModuleId>;

    /// Whether a module's crate is of edition 2015.
    fn is_2015(&self, m: ModuleId) -> bool;

    /// Whether a module has no preludes.
    fn is_bare(&self, m: ModuleId) -> bool;

    /// Whether it is a macro of the compiler's.
    fn is_compilers(&self, found: Meaning) -> bool;

    /// Whether it is an extern crate, by its declaration.
    fn is_extern_crate(&self, found: Meaning) -> bool;

    /// A crate of the extern prelude of a module's crate.
    fn extern_crate(&self, m: ModuleId, name: usize) -> Option<Meaning>;

    /// A macro of the `macro_use` prelude of a module's crate.
    fn used_macro(&self, m: ModuleId, name: usize) -> Option<Meaning>;

    /// The standard prelude of a module, or another module that stands for it.
    fn prelude_of(&self, m: ModuleId) -> Option<ModuleId>;

    /// A builtin type.
    fn builtin(&self, name: usize) -> Option<Meaning>;

    /// A textual macro of a module's crate, under a name.
    fn textual(&self, m: ModuleId, id: MacroId, name: usize) -> Option<Meaning>;
}
