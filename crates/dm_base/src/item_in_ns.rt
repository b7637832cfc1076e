//! `ItemInNs`: a definition in a namespace, and the module that declares it.
ghost use Rattle.std.specs.Prelude.{◌≡◌};
ghost use Rattle.dm_base.specs.ItemHomes.{Homes, def_module, item_module, item_krate, module_def};

use crate::ids::{Crate, EnumId, EnumVariantId, ModuleId};
use crate::item_ids::{AdtId, MacroId, ModuleDefId};

/// A definition, as a type, a value or a macro.
#[derive(Clone, Copy, PartialEq, Eq, Hash, Debug)]
pub enum ItemInNs {
    Types(ModuleDefId),
    Values(ModuleDefId),
    Macros(MacroId),
}

impl ItemInNs {
    /// The definition of a type or a value; a macro has none among those.
    pub fn as_module_def_id(self) -> Option<ModuleDefId>
        ensures { result ≡ module_def self }
    {
        match self {
            ItemInNs::Types(id) | ItemInNs::Values(id) => Some(id),
            ItemInNs::Macros(_) => None,
        }
    }

    /// The crate that declares the item; a builtin type or an unknown item has none.
    pub fn krate<T: ItemModules>(&self, items: &T) -> Option<Crate>
        ensures { result ≡ item_krate (T.homes items.now) self.now }
    {
        items.module_krate(self.module(items)?)
    }

    /// The module that declares the item: a module is itself, a variant lies where its enum does, a builtin type or an
    /// unknown item has none.
    pub fn module<T: ItemModules>(&self, items: &T) -> Option<ModuleId>
        ensures { result ≡ item_module (T.homes items.now) self.now }
    {
        match *self {
            ItemInNs::Types(id) | ItemInNs::Values(id) => module_of(id, items),
            ItemInNs::Macros(id) => items.macro_module(id),
        }
    }
}

/// The module that declares a definition.
fn module_of<T: ItemModules>(def: ModuleDefId, items: &T) -> Option<ModuleId>
    ensures { result ≡ def_module (T.homes items.now) def }
{
    match def {
        ModuleDefId::ModuleId(id) => Some(id),
        ModuleDefId::EnumVariantId(id) => {
            items.item_module(ModuleDefId::AdtId(AdtId::EnumId(items.variant_enum(id)?)))
        }
        ModuleDefId::BuiltinType(_) => None,
        ModuleDefId::MacroId(id) => items.macro_module(id),
        ModuleDefId::FunctionId(_)
        | ModuleDefId::AdtId(_)
        | ModuleDefId::ConstId(_)
        | ModuleDefId::StaticId(_)
        | ModuleDefId::TraitId(_)
        | ModuleDefId::TypeAliasId(_) => items.item_module(def),
    }
}

/// Where items were declared, as a trait of whatever stores it.
pub trait ItemModules {
    /// What is known, for contracts.
    ghost homes: { Self → Homes };

    /// The module of a function, struct, union, enum, const, static, trait or type alias, if that item is known.
    ///
    /// It is called with these alone.
    fn item_module(&self, item: ModuleDefId) -> Option<ModuleId>
        ensures { result ≡ (homes self.now).item item };

    /// The enum of a variant, if the variant is known.
    fn variant_enum(&self, variant: EnumVariantId) -> Option<EnumId>
        ensures { result ≡ (homes self.now).variant variant };

    /// The module of a macro, if the macro is known.
    fn macro_module(&self, id: MacroId) -> Option<ModuleId>
        ensures { result ≡ (homes self.now).mac id };

    /// The crate of a module, if the module is known.
    fn module_krate(&self, m: ModuleId) -> Option<Crate>
        ensures { result ≡ (homes self.now).krate m };
}
