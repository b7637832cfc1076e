//! The `filter_map` closures of the iterators of a scope, as named types.
ghost use Rattle.dm_scope.specs.Iterators.{any_impl, trait_impl, inherent_impl, bound_module, trait_of};
ghost use Rattle.dm_scope.specs.MacroCalls.{call_in};

use crate::picked::Pick;
use dm_base::ids::{BuiltinDeriveImplId, ImplId, MacroCallId, ModuleId, TraitId};
use dm_base::item_ids::ModuleDefId;
use dm_base::per_ns::TypesItem;
use dm_base::visibility::Visibility;
use either::Either;

/// Shows each `impl` block.
#[derive(Clone, Copy)]
pub struct AnyImpl;

impl Pick<(ImplId, bool)> for AnyImpl {
    type Shown = ImplId;

    ghost shown = { any_impl };

    fn pick(&self, x: &(ImplId, bool)) -> Option<ImplId> {
        let (id, _) = *x;
        Some(id)
    }
}

/// Shows each `impl` block of a trait.
#[derive(Clone, Copy)]
pub struct TraitImpl;

impl Pick<(ImplId, bool)> for TraitImpl {
    type Shown = ImplId;

    ghost shown = { trait_impl };

    fn pick(&self, x: &(ImplId, bool)) -> Option<ImplId> {
        if x.1 { Some(x.0) } else { None }
    }
}

/// Shows each `impl` block without a trait.
#[derive(Clone, Copy)]
pub struct InherentImpl;

impl Pick<(ImplId, bool)> for InherentImpl {
    type Shown = ImplId;

    ghost shown = { inherent_impl };

    fn pick(&self, x: &(ImplId, bool)) -> Option<ImplId> {
        if x.1 { None } else { Some(x.0) }
    }
}

/// Shows the module that a type is, with its visibility.
#[derive(Clone, Copy)]
pub struct ModuleType;

impl Pick<TypesItem> for ModuleType {
    type Shown = (ModuleId, Visibility);

    ghost shown = { bound_module };

    fn pick(&self, x: &TypesItem) -> Option<(ModuleId, Visibility)> {
        match x.def {
            ModuleDefId::ModuleId(m) => Some((m, x.vis)),
            _ => None,
        }
    }
}

/// Shows the trait that a type is.
#[derive(Clone, Copy)]
pub struct TraitType;

impl Pick<TypesItem> for TraitType {
    type Shown = TraitId;

    ghost shown = { trait_of };

    fn pick(&self, x: &TypesItem) -> Option<TraitId> {
        match x.def {
            ModuleDefId::TraitId(tr) => Some(tr),
            _ => None,
        }
    }
}

/// Shows the macro call that a derive's slot holds.
#[derive(Clone, Copy)]
pub struct CallInSlot;

impl Pick<Option<Either<MacroCallId, BuiltinDeriveImplId>>> for CallInSlot {
    type Shown = MacroCallId;

    ghost shown = { call_in };

    fn pick(&self, x: &Option<Either<MacroCallId, BuiltinDeriveImplId>>) -> Option<MacroCallId> {
        match *x {
            Some(Either::Left(call)) => Some(call),
            Some(Either::Right(_)) | None => None,
        }
    }
}
