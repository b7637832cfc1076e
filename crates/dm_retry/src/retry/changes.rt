//! Changes of the world between rounds, beside pushes.
ghost use Rattle.std.specs.Prelude.{◌≡◌, false, IsSome, OnErr, OnOk};
ghost use Rattle.dm_maps.specs.Holding.{def_holds, vis_holds};
ghost use Rattle.dm_maps.specs.TablesHold.{diagnostic_holds};
ghost use Rattle.dm_base.specs.declared.item_ids.ModuleDefId.TheVariants as def;
ghost use Rattle.dm_scope.specs.Scope.{bound_in};
ghost use Rattle.dm_maps.specs.BuildMaps.{lacks_map, with_diagnostic, with_macro_use};
ghost use Rattle.dm_maps.specs.GoesOn.{trait_import_holds, with_macro_seen, with_type_seen, with_unnamed_trait, with_value_seen};
ghost use Rattle.dm_maps.specs.Known.{KnowsAll};
ghost use Rattle.dm_maps.specs.World.{scope_of};
ghost use Rattle.dm_retry.specs.Rounds.{changed_beside, changed_under};

use crate::retry::Retry;
use dm_base::ids::{ExternCrateId, MapId, ModuleId, TraitId};
use dm_base::imports::ImportId;
use dm_base::item_ids::MacroId;
use dm_base::name::Name;
use dm_base::visibility::Visibility;
use dm_scope::diagnostics::DefDiagnostic;
use std::alloc::AllocError;

impl Retry {
    /// Adds a macro to the `macro_use` prelude of a map, under the conditions of `World::add_macro_use`. Each import whose
    /// path has its name as a segment becomes due (dirty). Where an allocation fails, nothing changes.
    pub fn add_macro_use(
        &mut self,
        map: MapId,
        name: Name,
        m: MacroId,
        brought_by: Option<ExternCrateId>,
    ) -> Result<(), AllocError>
        requires there { lacks_map self.old.state.world map ≡ false }
        requires known { KnowsAll self.old.state.world (def_holds (def.MacroId m)) }
        ensures state { OnOk result
            (self.new
            ≡ record self.old {
              state =
                  changed_under self.old.state name
                  (with_macro_use self.old.state.world map name m brought_by);
            }) }
        ensures err { OnErr result (self.new ≡ self.old) }
    {
        self.imports.add_macro_use(map, name, m, brought_by)?;
        Ok(())
    }

    /// Changes the visibility of what a module binds under a name as a type, under the conditions of
    /// `World::update_visibility_types`. Each import whose path has the name as a segment becomes due (dirty). Takes no
    /// memory.
    pub fn update_visibility_types(&mut self, m: ModuleId, name: &Name, vis: Visibility)
        requires bound { IsSome ((bound_in (scope_of self.old.state.world m) name.now).types) }
        requires known { KnowsAll self.old.state.world (vis_holds vis) }
        ensures { self.new
            ≡ record self.old {
              state =
                  changed_under self.old.state name.now
                  (with_type_seen self.old.state.world m name.now vis);
            } }
    {
        self.imports.update_visibility_types(m, name, vis);
    }

    /// Changes the visibility of what a module binds under a name as a value, under the conditions of
    /// `World::update_visibility_values`. Each import whose path has the name as a segment becomes due (dirty). Takes no
    /// memory.
    pub fn update_visibility_values(&mut self, m: ModuleId, name: &Name, vis: Visibility)
        requires bound { IsSome ((bound_in (scope_of self.old.state.world m) name.now).values) }
        requires known { KnowsAll self.old.state.world (vis_holds vis) }
        ensures { self.new
            ≡ record self.old {
              state =
                  changed_under self.old.state name.now
                  (with_value_seen self.old.state.world m name.now vis);
            } }
    {
        self.imports.update_visibility_values(m, name, vis);
    }

    /// Changes the visibility of what a module binds under a name as a macro, under the conditions of
    /// `World::update_visibility_macros`. Each import whose path has the name as a segment becomes due (dirty). Takes no
    /// memory.
    pub fn update_visibility_macros(&mut self, m: ModuleId, name: &Name, vis: Visibility)
        requires bound { IsSome ((bound_in (scope_of self.old.state.world m) name.now).macros) }
        requires known { KnowsAll self.old.state.world (vis_holds vis) }
        ensures { self.new
            ≡ record self.old {
              state =
                  changed_under self.old.state name.now
                  (with_macro_seen self.old.state.world m name.now vis);
            } }
    {
        self.imports.update_visibility_macros(m, name, vis);
    }

    /// Imports a trait without a name into a module, under the conditions of `World::push_unnamed_trait`. No path reads
    /// it, so no import becomes due. Where an allocation fails, nothing changes.
    pub fn push_unnamed_trait(
        &mut self,
        m: ModuleId,
        tr: TraitId,
        vis: Visibility,
        import: Option<ImportId>,
    ) -> Result<(), AllocError>
        requires known { KnowsAll self.old.state.world (trait_import_holds m tr vis import) }
        ensures state { OnOk result
            (self.new
            ≡ record self.old {
              state =
                  changed_beside self.old.state
                  (with_unnamed_trait self.old.state.world m tr vis import);
            }) }
        ensures err { OnErr result (self.new ≡ self.old) }
    {
        self.imports.push_unnamed_trait(m, tr, vis, import)?;
        Ok(())
    }

    /// Adds what went wrong while a map was made, under the conditions of `World::add_diagnostic`. No path reads it, so no
    /// import becomes due. Where an allocation fails, nothing changes.
    pub fn add_diagnostic(
        &mut self,
        map: MapId,
        diagnostic: DefDiagnostic,
    ) -> Result<(), AllocError>
        requires there { lacks_map self.old.state.world map ≡ false }
        requires known { KnowsAll self.old.state.world (diagnostic_holds diagnostic) }
        ensures state { OnOk result
            (self.new
            ≡ record self.old {
              state =
                  changed_beside self.old.state
                  (with_diagnostic self.old.state.world map diagnostic);
            }) }
        ensures err { OnErr result (self.new ≡ self.old) }
    {
        self.imports.add_diagnostic(map, diagnostic)?;
        Ok(())
    }
}
