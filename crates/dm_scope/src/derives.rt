//! Derive attributes of structs, enums and unions.
use dm_base::ids::{AttrId, BuiltinDeriveImplId, MacroCallId};
use either::Either;
use smallvec::SmallVec;
use std::alloc::Global;
use std::default::MadeWith;

/// A derive attribute, with the macro calls of the derives that it names.
#[derive(Drop)]
pub struct DeriveMacroInvocation {
    pub attr_id: AttrId,
    /// The call of the attribute itself.
    pub attr_call_id: MacroCallId,
    /// A slot for each derive, made with the attribute, so that the macro call id can be filled in later without
    /// allocating.
    pub derive_call_ids: SmallVec<Option<Either<MacroCallId, BuiltinDeriveImplId>>, 4>,
}

/// The blank that an unused inline place of a list of attributes holds.
impl MadeWith<Global> for DeriveMacroInvocation {
    fn made_with(alloc: Global) -> DeriveMacroInvocation {
        DeriveMacroInvocation {
            attr_id: AttrId(0),
            attr_call_id: MacroCallId(0),
            derive_call_ids: SmallVec::new(alloc),
        }
    }
}
