//! `CrateMaps`: the def maps of a world, where the names of one of its crates are searched.
ghost use Rattle.std.specs.Prelude.{◌≡◌, true};
ghost use Rattle.dm_base.specs.Tree.{IsKnown};
ghost use Rattle.dm_base.specs.Visibility.{NamesKnown};
ghost use Rattle.dm_maps.specs.Trees.{tree_of};

use crate::container::Container;
use crate::declarations::Declarations;
use crate::known::is_named;
use crate::meaning::{Meaning, in_namespace, public_def};
use crate::paths::around::{is_compilers, used};
use crate::paths::containers::variant_in;
use crate::paths::textual::textual_macro;
use crate::rules::all_imports::is_extern_crate;
use crate::rules::source_names::source_names;
use crate::rules::visibilities::{least, most};
use crate::search::leaf::Leaf;
use crate::search::maps::Maps;
use crate::slots::Slots;
use dm_base::builtin_type::BuiltinType;
use dm_base::ids::{Crate, EnumId, EnumVariantId, MapId, ModuleId};
use dm_base::item_ids::{AdtId, MacroId, ModuleDefId};
use dm_base::item_in_ns::ItemModules;
use dm_base::mod_path::PathKind;
use dm_base::module_tree::ModuleTree;
use dm_base::name::Name;
use dm_base::per_ns::Namespace;
use dm_base::visibility::Visibility;
use dm_maps::world::World;
use dm_maps::world::maps_of::local_def_map;
use indexmap::IndexSet;
use std::alloc::{AllocError, Global};

/// The def maps of a world, where the names of a crate are searched.
pub(crate) struct CrateMaps<'a> {
    pub(crate) alloc: Global,
    pub(crate) world: &'a World,
    pub(crate) declarations: &'a Declarations,
    /// The crate; all crates that it depends on are done.
    pub(crate) krate: Crate,
    /// The slots of these crates that are ambiguous.
    pub(crate) ambiguous: &'a Slots<bool>,
    /// All names that were asked for.
    pub(crate) names: IndexSet<Name>,
    pub(crate) leaves: Vec<Leaf>,
}

/// Hand-written `Drop`, to keep proofs small: dropping one is then a single call.
impl<'a> Drop for CrateMaps<'a> {
    fn drop(self) {
        let CrateMaps {
            alloc: _alloc,
            world: _world,
            declarations: _declarations,
            krate: _krate,
            ambiguous: _ambiguous,
            names: _names,
            leaves: _leaves,
        } = self;
    }
}

/// The number of a name among those that were asked for, of which it is one from now on.
pub(crate) fn number_of(
    alloc: Global,
    names: &mut IndexSet<Name>,
    name: &Name,
) -> Result<usize, AllocError> {
    if let Some(number) = names.get_index_of(name) {
        return Ok(number);
    }
    let copy = name.copy(alloc)?;
    let (number, _is_new) = names.insert_full(copy)?;
    Ok(number)
}

/// The map that a module lies in, if it is the world's.
fn map_of(world: &World, m: ModuleId) -> Option<MapId> {
    if world.has(m) {
        Some(MapId {
            krate: world.krate(m),
            block: world.block(m),
        })
    } else {
        None
    }
}

/// The crate of a module, or one that stands for it where the module is not the world's.
fn krate_of(world: &World, other: Crate, m: ModuleId) -> Crate {
    match world.module_krate(m) {
        None => other,
        Some(krate) => krate,
    }
}

/// The module that is so many steps outwards.
fn outer_module(world: &World, m: ModuleId, steps: u8) -> Option<ModuleId> {
    if world.has(m) {
        world.outer_member(m, steps)
    } else {
        None
    }
}

/// Who sees a variant in a namespace.
fn variant_vis(
    declarations: &Declarations,
    e: EnumId,
    namespace: Namespace,
    v: EnumVariantId,
) -> Visibility {
    let of_enum = declarations.enum_vis(e);
    match (namespace, of_enum, declarations.constructor_vis(v)) {
        (Namespace::Values, Visibility::Public, Some(vis)) => vis,
        _ => of_enum,
    }
}

/// Whether a module is the world's, and so are those that two visibilities name.
fn can_compare(world: &World, m: ModuleId, one: Visibility, two: Visibility) -> bool
    ensures { result ≡ true → IsKnown (tree_of world.now) m × NamesKnown (tree_of world.now) one
        × NamesKnown (tree_of world.now) two }
{
    world.has(m) && is_named(world, one) && is_named(world, two)
}

impl<'a> Maps for CrateMaps<'a> {
    fn leaves(&self) -> &[Leaf] {
        self.leaves.as_slice()
    }

    fn names_in(&mut self, source: Container) -> Result<Vec<usize>, AllocError> {
        let mut numbers = Vec::new(self.alloc);
        let names = source_names(self.alloc, self.world, source)?;
        for name in &names {
            numbers.push(number_of(self.alloc, &mut self.names, *name)?)?;
        }
        Ok(numbers)
    }

    fn is_own(&self, m: ModuleId) -> bool {
        self.world.module_krate(m) == Some(self.krate)
    }

    fn bound(&self, m: ModuleId, name: usize, namespace: Namespace) -> Option<Meaning> {
        let name = self.names.get_index(name)?;
        let items = self.world.bound_in(m, name);
        let meaning = in_namespace(&items, namespace)?;
        Some(Meaning {
            is_ambiguous: self.ambiguous.get(m, name, namespace).is_some(),
            ..meaning
        })
    }

    fn variant(&self, e: EnumId, name: usize, namespace: Namespace) -> Option<Meaning> {
        if !self.world.knows_def(ModuleDefId::AdtId(AdtId::EnumId(e))) {
            return None;
        }
        let name = self.names.get_index(name)?;
        let (v, shape) = self.world.variant_of(e, name)?;
        let vis = variant_vis(self.declarations, e, namespace, v);
        variant_in(namespace, shape, ModuleDefId::EnumVariantId(v), vis)
    }

    fn sees(&self, m: ModuleId, vis: Visibility) -> bool {
        if self.world.has(m) && is_named(self.world, vis) {
            vis.is_visible_from(self.world, m)
        } else {
            false
        }
    }

    fn least(&self, m: ModuleId, one: Visibility, two: Visibility) -> Visibility {
        if can_compare(self.world, m, one, two) {
            least(self.world, m, one, two)
        } else {
            one
        }
    }

    fn most(&self, m: ModuleId, one: Visibility, two: Visibility) -> Visibility {
        if can_compare(self.world, m, one, two) {
            most(self.world, m, one, two)
        } else {
            one
        }
    }

    fn start(&self, m: ModuleId, kind: PathKind) -> Option<ModuleId> {
        match kind {
            PathKind::Plain | PathKind::Abs => None,
            PathKind::Crate => self.world.root_of(krate_of(self.world, self.krate, m)),
            PathKind::DollarCrate(krate) => self.world.root_of(krate),
            PathKind::Super(steps) => outer_module(self.world, m, steps),
        }
    }

    fn is_2015(&self, m: ModuleId) -> bool {
        self.world.is_2015(krate_of(self.world, self.krate, m))
    }

    fn is_bare(&self, m: ModuleId) -> bool {
        self.declarations.is_bare(m)
    }

    fn is_compilers(&self, found: Meaning) -> bool {
        is_compilers(self.world, found)
    }

    fn is_extern_crate(&self, found: Meaning) -> bool {
        is_extern_crate(self.world, found)
    }

    fn extern_crate(&self, m: ModuleId, name: usize) -> Option<Meaning> {
        let name = self.names.get_index(name)?;
        let krate = self.world.module_krate(m)?;
        let (root, _krate) = local_def_map(self.world, krate).get(name)?;
        Some(public_def(ModuleDefId::ModuleId(root)))
    }

    fn used_macro(&self, m: ModuleId, name: usize) -> Option<Meaning> {
        let name = self.names.get_index(name)?;
        let map = map_of(self.world, m)?;
        let (id, brought_by) = self.world.macro_use_of(map, name)?;
        Some(used(map.krate, id, brought_by))
    }

    fn prelude_of(&self, m: ModuleId) -> Option<ModuleId> {
        let map = map_of(self.world, m)?;
        self.world.prelude_of(map)
    }

    fn builtin(&self, name: usize) -> Option<Meaning> {
        let name = self.names.get_index(name)?;
        let ty = BuiltinType::by_name(name)?;
        Some(public_def(ModuleDefId::BuiltinType(ty)))
    }

    fn textual(&self, m: ModuleId, id: MacroId, name: usize) -> Option<Meaning> {
        let name = self.names.get_index(name)?;
        let krate = krate_of(self.world, self.krate, m);
        Some(textual_macro(self.world, krate, id, name))
    }
}
