//! Iterators over the modules of a def map. Contracts see each as the list of what it has left.
ghost use Rattle.std.specs.Prelude.{◌≡◌, Some, IfSome, length};
ghost use Rattle.std.specs.Iterator.{at_most, UpTo};
ghost use Rattle.std.specs.Iterator.SizeHint.{IsWithinCount};
ghost use Rattle.std.specs.Map.Iter.{TakesFirst, ShowsInOrder};
ghost use Rattle.dm_base.specs.declared.ids.ModuleId.{ModuleId};
ghost use Rattle.dm_def_map.specs.Queries.{deref_module, modules_with};

use crate::modules::module_data::ModuleData;
use crate::modules::modules_map::ModulesMap;
use crate::modules::origins::{FilledBy, InlineIn, Origins};
use dm_base::ids::ModuleId;
use indexmap::map;
use std::marker::Model;

/// The modules of a map, each with its number, in order of number.
#[derive(Drop)]
pub struct Iter<'a> {
    rest: map::Iter<'a, ModuleId, ModuleData>,
}

impl<'a> Model for Iter<'a> {
    ghost use Rattle.dm_def_map.specs.Maps.{Modules};

    ghost Value = { Modules };

    ghost view = { λ a. a.rest };
}

impl<'a> Iterator for Iter<'a> {
    type Item = (ModuleId, &'a ModuleData);

    ghost next_gives = { TakesFirst deref_module };

    ghost remaining = { λ s. at_most (length s) };

    fn next(&mut self) -> Option<(ModuleId, &'a ModuleData)> {
        let (m, data) = self.rest.next()?;
        Some((*m, data))
    }

    fn size_hint(&self) -> (usize, Option<usize>)
        ensures lower { IsWithinCount result.0 (at_most (length self.now)) }
        ensures upper { IfSome result.1 (UpTo (at_most (length self.now))) }
        ensures exact { result ≡ (length self.now, Some (length self.now)) }
    {
        let left = self.rest.len();
        (left, Some(left))
    }
}

impl ModulesMap {
    /// The modules, in order of number. Does not allocate.
    pub fn iter(&self) -> Iter<'_>
        ensures rest { result ≡ self.now }
        ensures runs { ShowsInOrder deref_module }
    {
        Iter {
            rest: self.entries().iter(),
        }
    }
}

impl<'a> IntoIterator for &'a ModulesMap {
    type Item = (ModuleId, &'a ModuleData);

    type IntoIter = Iter<'a>;

    ghost into_iter_gives = { λ m r. (r ≡ m.now) × ShowsInOrder deref_module };

    /// The modules, in order of number. Does not allocate.
    fn into_iter(self) -> Iter<'a> {
        self.iter()
    }
}

/// The modules of a map whose origins pass, in order of number.
#[derive(Drop)]
pub struct ModulesWith<'a, P: Origins> {
    rest: map::Iter<'a, ModuleId, ModuleData>,
    origins: P,
}

impl<'a, P: Origins> Model for ModulesWith<'a, P> {
    ghost use Rattle.std.specs.Prelude.{List};
    ghost use Rattle.dm_base.specs.declared.ids.ModuleId.{ModuleId};
    ghost use Rattle.dm_def_map.specs.Queries.{modules_with};

    ghost Value = { List ModuleId };

    ghost view = { λ a. modules_with (P.passes a.origins) a.rest };
}

impl<'a, P: Origins> ModulesWith<'a, P> {
    /// The modules whose origins pass, in order of number. Does not allocate.
    pub(crate) fn new(modules: &'a ModulesMap, origins: P) -> Self
        ensures rest { result ≡ modules_with (P.passes origins) modules.now }
        ensures runs { ShowsInOrder (λ (m : ModuleId). m) }
    {
        ModulesWith {
            rest: modules.entries().iter(),
            origins,
        }
    }
}

/// The modules of a map that fill a file, in order of number.
pub type ModulesForFile<'a> = ModulesWith<'a, FilledBy>;

/// The inline modules (`mod name { .. }`) of a map in the expansion of a macro call, in order of number.
pub type InlineModules<'a> = ModulesWith<'a, InlineIn>;

/// The next module whose origin passes.
fn next_passing<P: Origins>(
    rest: &mut map::Iter<'_, ModuleId, ModuleData>,
    origins: P,
) -> Option<ModuleId>
    ensures { TakesFirst (λ x. x) (modules_with (P.passes origins) rest.old) result
        (modules_with (P.passes origins) rest.new) }
{
    while let Some((m, data)) = rest.next() {
        if origins.passes(data.origin()) {
            return Some(*m);
        }
    }
    None
}

impl<'a, P: Origins> Iterator for ModulesWith<'a, P> {
    type Item = ModuleId;

    ghost next_gives = { TakesFirst (λ x. x) };

    ghost remaining = { λ s. at_most (length s) };

    fn next(&mut self) -> Option<ModuleId> {
        next_passing(&mut self.rest, self.origins)
    }
}
