//! `Definition`: the definitions of one namespace, for code that is generic over namespaces.
ghost use Rattle.std.specs.Prelude.{◌≡◌};
ghost use Rattle.dm_base.specs.declared.item_ids.ModuleDefId.{ModuleDefId};
ghost use Rattle.dm_base.specs.Definitions.{widened_macro, widened_macro_injective};

use crate::item_ids::{MacroId, ModuleDefId};
use crate::value_eq::ValueEq;

/// The definitions that a namespace can hold.
pub trait Definition: Copy + ValueEq {
    ghost widened_def: { Self → ModuleDefId };

    /// The same definition, among those of every namespace.
    fn widen_def(self) -> ModuleDefId
        ensures { result ≡ widened_def self };

    ghost injective: { (x y : Self) → widened_def x ≡ widened_def y → x ≡ y };
}

impl Definition for ModuleDefId {
    ghost widened_def = { λ d. d };

    ghost injective = { λ _ _ e. e };

    fn widen_def(self) -> Self {
        self
    }
}

impl Definition for MacroId {
    ghost widened_def = { widened_macro };

    ghost injective = { widened_macro_injective };

    fn widen_def(self) -> ModuleDefId {
        ModuleDefId::MacroId(self)
    }
}
