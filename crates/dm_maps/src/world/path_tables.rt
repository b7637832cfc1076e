//! What path resolution reads of the tables of a world.
ghost use Rattle.std.specs.Prelude.{◌≡◌};
ghost use Rattle.std.specs.Option.{option_copied};
ghost use Rattle.dm_base.specs.Names.{find_name};
ghost use Rattle.dm_maps.specs.Readings.{root_of, block_root_of, macro_loc_of, prelude_of, macro_uses_of, styles_by, styles_of};
ghost use Rattle.dm_maps.specs.World.{crate_map, scope_of};
ghost use Rattle.dm_scope.specs.Pushes.{last_of};
ghost use Rattle.dm_scope.specs.Scope.{legacy_in};

use crate::builder::WorldBuilder;
use crate::check::kinds::{is_of_kind, macro_number};
use bitflags::Flags;
use dm_base::ids::{BlockId, Crate, ExternCrateId, MapId, ModuleId};
use dm_base::item_ids::MacroId;
use dm_base::macros::{MacroCallStyles, MacroLoc};
use dm_base::name::Name;
use dm_def_map::def_map::DefMap;

impl WorldBuilder {
    /// The map of a crate.
    pub(crate) fn crate_map(&self, krate: Crate) -> Option<&DefMap>
        ensures { option_copied result ≡ crate_map self.now krate }
    {
        self.maps.crates().get(krate.0 as usize)
    }

    /// The root of a crate.
    pub(crate) fn root_of(&self, krate: Crate) -> Option<ModuleId>
        ensures { result ≡ root_of self.now krate }
    {
        Some(self.crate_map(krate)?.root_module_id())
    }

    /// The root of a block's map.
    pub(crate) fn block_root_of(&self, block: BlockId) -> Option<ModuleId>
        ensures { result ≡ block_root_of self.now block }
    {
        Some(self.block_map(block)?.root_module_id())
    }

    /// The prelude module of a map.
    pub(crate) fn prelude_of(&self, id: MapId) -> Option<ModuleId>
        ensures { result ≡ prelude_of self.now id }
    {
        Some(self.numbered_map(id)?.prelude()?.0)
    }

    /// The macro of that name in the `macro_use` prelude of a map.
    pub(crate) fn macro_use_of(
        &self,
        id: MapId,
        name: &Name,
    ) -> Option<(MacroId, Option<ExternCrateId>)>
        ensures { result ≡ find_name name.now (macro_uses_of self.now id) }
    {
        self.numbered_map(id)?.macro_use_prelude(name)
    }

    /// The last legacy macro of a module under a name: in textual scope the last definition shadows those before it.
    pub(crate) fn legacy_of(&self, m: ModuleId, name: &Name) -> Option<MacroId>
        ensures { result ≡ legacy_in (scope_of self.now m) name.now }
    {
        last_of(self.module_of(m)?.scope().get_legacy_macro(name)?)
    }

    /// What a macro is.
    pub(crate) fn macro_loc(&self, m: MacroId) -> Option<MacroLoc>
        ensures { result ≡ macro_loc_of self.now m }
    {
        let (_home, loc) = *self.macros.get(macro_number(m) as usize)?;
        if is_of_kind(m, loc) { Some(loc) } else { None }
    }

    /// The styles of a macro: none for one that is not there.
    pub(crate) fn styles_of(&self, m: MacroId) -> MacroCallStyles
        ensures { result ≡ styles_of self.now m }
    {
        match self.macros.get(macro_number(m) as usize) {
            None => MacroCallStyles::empty(),
            Some(entry) => styles_by(m, entry.1),
        }
    }
}

/// The last of a list of macros.
fn last_of(macros: &[MacroId]) -> Option<MacroId>
    ensures { result ≡ last_of macros.now }
{
    macros.last().copied()
}

/// The styles of a macro, where what stands under its number is of its kind.
fn styles_by(m: MacroId, loc: MacroLoc) -> MacroCallStyles
    ensures { result ≡ styles_by m loc }
{
    match (m, loc) {
        (MacroId::Macro2Id(_), MacroLoc::Macro2(_)) => loc.styles(),
        (MacroId::MacroRulesId(_), MacroLoc::MacroRules(_)) => loc.styles(),
        (MacroId::ProcMacroId(_), MacroLoc::Proc(_)) => loc.styles(),
        _ => MacroCallStyles::empty(),
    }
}
