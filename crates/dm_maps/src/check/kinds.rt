//! The kinds of macros, and what an id says of them.
ghost use Rattle.std.specs.Prelude.{◌≡◌};
ghost use Rattle.dm_maps.specs.Kinds.{is_of_kind, macro_number};

use dm_base::item_ids::MacroId;
use dm_base::macros::MacroLoc;

/// Whether a macro is of the kind that its id says.
pub fn is_of_kind(m: MacroId, loc: MacroLoc) -> bool
    ensures { result ≡ is_of_kind m loc }
{
    match (m, loc) {
        (MacroId::Macro2Id(_), MacroLoc::Macro2(_)) => true,
        (MacroId::MacroRulesId(_), MacroLoc::MacroRules(_)) => true,
        (MacroId::ProcMacroId(_), MacroLoc::Proc(_)) => true,
        _ => false,
    }
}

/// The number of a macro in the list of all macros.
pub fn macro_number(m: MacroId) -> u32
    ensures { result ≡ macro_number m }
{
    match m {
        MacroId::Macro2Id(id) => id.0,
        MacroId::MacroRulesId(id) => id.0,
        MacroId::ProcMacroId(id) => id.0,
    }
}
