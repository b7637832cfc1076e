//! Reverse look-up in a namespace: the names of a definition. Nothing here allocates.
ghost use Rattle.std.specs.Prelude.{◌≡◌, slice_get};
ghost use Rattle.std.specs.Option.{option_map};
ghost use Rattle.dm_scope.specs.BindingLookups.{names_in, deref_named, MayAskNames, AsksNames};

use super::Bindings;
use dm_base::definition::Definition;
use dm_base::import_source::ImportSource;
use dm_base::name::Name;
use dm_base::visibility::Visibility;

impl<D: Definition, I: ImportSource> Bindings<D, I> {
    /// The first name of a definition, with its visibility, and whether no import brought it.
    pub fn name_of(&self, def: D) -> Option<(&Name, Visibility, bool)>
        ensures { option_map deref_named result ≡ slice_get (names_in D.eq def self.now.items) 0 }
    {
        let mut entries = self.items.as_slice().iter();
        while let Some((name, bound)) = entries.next() {
            if bound.def == def {
                return Some((name, bound.vis, bound.import.is_none()));
            }
        }
        None
    }

    /// The first `Some` that the closure `f` returns for a name of a definition.
    pub fn names_of<T, F: FnMut(&Name, Visibility, bool) -> Option<T> + Drop>(
        &self,
        def: D,
        mut f: F,
    ) -> Option<T>
        requires { MayAskNames F.pre F.step (names_in D.eq def self.now.items) f }
        ensures { (last : F) × AsksNames F.step (names_in D.eq def self.now.items) f result last }
    {
        let mut entries = self.items.as_slice().iter();
        while let Some((name, item)) = entries.next() {
            if item.def == def {
                match f(name, item.vis, item.import.is_none()) {
                    Some(answer) => return Some(answer),
                    None => {}
                }
            }
        }
        None
    }
}
