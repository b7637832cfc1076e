//! Where a world's items were declared: in modules and crates of its own. None of these look-ups takes memory.
ghost use Rattle.std.specs.Prelude.{◌≡◌, IsTrue};
ghost use Rattle.std.specs.Option.{ForSome};
ghost use Rattle.dm_base.specs.declared.item_ids.ItemKind.TheVariants as item;
ghost use Rattle.dm_maps.specs.declared.check.held.HeldId.TheVariants as held;
ghost use Rattle.dm_maps.specs.Known.{knows};
ghost use Rattle.dm_maps.specs.ItemHomes.{homes_of, module_of_item, module_of_def, module_of_macro};

use crate::builder::WorldBuilder;
use crate::check::kinds::{is_of_kind, macro_number};
use crate::world::World;
use dm_base::ids::{Crate, EnumId, EnumVariantId, ModuleId};
use dm_base::item_ids::{AdtId, ItemKind, MacroId, ModuleDefId};
use dm_base::item_in_ns::ItemModules;

#[tactic(auto, unfolding(crate::specs::ItemHomes::homes_of))]
impl ItemModules for World {
    ghost use Rattle.dm_maps.specs.ItemHomes.{homes_of};

    ghost homes = { homes_of };

    fn item_module(&self, item: ModuleDefId) -> Option<ModuleId>
        ensures value { result ≡ (homes_of self.now).item item }
        ensures known { ForSome result (λ m. IsTrue (knows self.now (held.Module m))) }
    {
        self.tables.module_of_def(item)
    }

    fn variant_enum(&self, variant: EnumVariantId) -> Option<EnumId>
        ensures value { result ≡ (homes_of self.now).variant variant }
        ensures known { ForSome result (λ e. IsTrue (knows self.now (held.Item item.Enum e.0))) }
    {
        self.tables.variants.get(variant.0 as usize).copied()
    }

    fn macro_module(&self, id: MacroId) -> Option<ModuleId>
        ensures value { result ≡ (homes_of self.now).mac id }
        ensures known { ForSome result (λ m. IsTrue (knows self.now (held.Module m))) }
    {
        self.tables.module_of_macro(id)
    }

    fn module_krate(&self, m: ModuleId) -> Option<Crate>
        ensures value { result ≡ (homes_of self.now).krate m }
        ensures known { ForSome result (λ k. IsTrue (knows self.now (held.Crate k))) }
    {
        match self.tables.place_of(m) {
            None => None,
            Some(place) => Some(place.map.krate),
        }
    }
}

impl WorldBuilder {
    /// The module of an item that stands in the list of items.
    fn module_of_def(&self, def: ModuleDefId) -> Option<ModuleId>
        ensures { result ≡ module_of_def self.now def }
    {
        match def {
            ModuleDefId::FunctionId(n) => self.module_of_item(ItemKind::Function, n.0),
            ModuleDefId::AdtId(AdtId::StructId(n)) => self.module_of_item(ItemKind::Struct, n.0),
            ModuleDefId::AdtId(AdtId::UnionId(n)) => self.module_of_item(ItemKind::Union, n.0),
            ModuleDefId::AdtId(AdtId::EnumId(n)) => self.module_of_item(ItemKind::Enum, n.0),
            ModuleDefId::ConstId(n) => self.module_of_item(ItemKind::Const, n.0),
            ModuleDefId::StaticId(n) => self.module_of_item(ItemKind::Static, n.0),
            ModuleDefId::TraitId(n) => self.module_of_item(ItemKind::Trait, n.0),
            ModuleDefId::TypeAliasId(n) => self.module_of_item(ItemKind::TypeAlias, n.0),
            ModuleDefId::ModuleId(_)
            | ModuleDefId::EnumVariantId(_)
            | ModuleDefId::BuiltinType(_)
            | ModuleDefId::MacroId(_) => None,
        }
    }

    /// The module of the item of that number, if the item is of that kind.
    fn module_of_item(&self, kind: ItemKind, number: u32) -> Option<ModuleId>
        ensures { result ≡ module_of_item self.now kind number }
    {
        match self.items.get(number as usize) {
            None => None,
            Some(item) => if kind == item.0 { Some(item.1) } else { None },
        }
    }

    /// The module of the macro of that number, if the macro is of the kind that its id says.
    fn module_of_macro(&self, id: MacroId) -> Option<ModuleId>
        ensures { result ≡ module_of_macro self.now id }
    {
        match self.macros.get(macro_number(id) as usize) {
            None => None,
            Some(entry) => if is_of_kind(id, entry.1) {
                Some(entry.0)
            } else {
                None
            },
        }
    }
}
