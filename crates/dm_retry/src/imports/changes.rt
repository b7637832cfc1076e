//! Changes of the world of unresolved imports between rounds, beside pushes.
ghost use Rattle.std.specs.Prelude.{◌≡◌, false, IsSome, OnErr, OnOk};
ghost use Rattle.dm_maps.specs.Holding.{def_holds, vis_holds};
ghost use Rattle.dm_maps.specs.TablesHold.{diagnostic_holds};
ghost use Rattle.dm_base.specs.declared.item_ids.ModuleDefId.TheVariants as def;
ghost use Rattle.dm_scope.specs.Scope.{bound_in};
ghost use Rattle.dm_maps.specs.BuildMaps.{lacks_map, with_diagnostic, with_macro_use};
ghost use Rattle.dm_maps.specs.GoesOn.{trait_import_holds, with_macro_seen, with_type_seen, with_unnamed_trait, with_value_seen};
ghost use Rattle.dm_maps.specs.Known.{KnowsAll};
ghost use Rattle.dm_maps.specs.World.{scope_of};
ghost use Rattle.dm_retry.specs.Rounds.{changed_beside, changed_under};

use crate::imports::Imports;
use dm_base::ids::{ExternCrateId, MapId, ModuleId, TraitId};
use dm_base::imports::ImportId;
use dm_base::item_ids::MacroId;
use dm_base::name::Name;
use dm_base::visibility::Visibility;
use dm_scope::diagnostics::DefDiagnostic;
use hir_def_map::laws::answers_alike;
use std::alloc::AllocError;

impl Imports {
    /// Adds a macro to the `macro_use` prelude of a map, under the conditions of `World::add_macro_use`. Each import whose
    /// path has its name as a segment becomes due (dirty). Where an allocation fails, nothing changes.
    pub(crate) fn add_macro_use(
        &mut self,
        map: MapId,
        name: Name,
        m: MacroId,
        brought_by: Option<ExternCrateId>,
    ) -> Result<(), AllocError>
        requires there { lacks_map self.old.world map ≡ false }
        requires known { KnowsAll self.old.world (def_holds (def.MacroId m)) }
        ensures state { OnOk result
            (self.new
            ≡ changed_under self.old name
            (with_macro_use self.old.world map name m brought_by)) }
        ensures err { OnErr result (self.new ≡ self.old) }
    {
        answers_alike();
        let bound = name.copy(self.alloc)?;
        self.world.add_macro_use(map, name, m, brought_by)?;
        self.pendings.wake(&bound);
        Ok(())
    }

    /// Changes the visibility of what a module binds under a name as a type, under the conditions of
    /// `World::update_visibility_types`. Each import whose path has the name as a segment becomes due (dirty). Takes no
    /// memory.
    pub(crate) fn update_visibility_types(&mut self, m: ModuleId, name: &Name, vis: Visibility)
        requires bound { IsSome ((bound_in (scope_of self.old.world m) name.now).types) }
        requires known { KnowsAll self.old.world (vis_holds vis) }
        ensures { self.new
            ≡ changed_under self.old name.now (with_type_seen self.old.world m name.now vis) }
    {
        answers_alike();
        self.world.update_visibility_types(m, name, vis);
        self.pendings.wake(name);
    }

    /// Changes the visibility of what a module binds under a name as a value, under the conditions of
    /// `World::update_visibility_values`. Each import whose path has the name as a segment becomes due (dirty). Takes no
    /// memory.
    pub(crate) fn update_visibility_values(&mut self, m: ModuleId, name: &Name, vis: Visibility)
        requires bound { IsSome ((bound_in (scope_of self.old.world m) name.now).values) }
        requires known { KnowsAll self.old.world (vis_holds vis) }
        ensures { self.new
            ≡ changed_under self.old name.now (with_value_seen self.old.world m name.now vis) }
    {
        answers_alike();
        self.world.update_visibility_values(m, name, vis);
        self.pendings.wake(name);
    }

    /// Changes the visibility of what a module binds under a name as a macro, under the conditions of
    /// `World::update_visibility_macros`. Each import whose path has the name as a segment becomes due (dirty). Takes no
    /// memory.
    pub(crate) fn update_visibility_macros(&mut self, m: ModuleId, name: &Name, vis: Visibility)
        requires bound { IsSome ((bound_in (scope_of self.old.world m) name.now).macros) }
        requires known { KnowsAll self.old.world (vis_holds vis) }
        ensures { self.new
            ≡ changed_under self.old name.now (with_macro_seen self.old.world m name.now vis) }
    {
        answers_alike();
        self.world.update_visibility_macros(m, name, vis);
        self.pendings.wake(name);
    }

    /// Imports a trait without a name into a module, under the conditions of `World::push_unnamed_trait`. No path reads
    /// it, so no import becomes due. Where an allocation fails, nothing changes.
    pub(crate) fn push_unnamed_trait(
        &mut self,
        m: ModuleId,
        tr: TraitId,
        vis: Visibility,
        import: Option<ImportId>,
    ) -> Result<(), AllocError>
        requires known { KnowsAll self.old.world (trait_import_holds m tr vis import) }
        ensures state { OnOk result
            (self.new
            ≡ changed_beside self.old
            (with_unnamed_trait self.old.world m tr vis import)) }
        ensures err { OnErr result (self.new ≡ self.old) }
    {
        answers_alike();
        self.world.push_unnamed_trait(m, tr, vis, import)?;
        Ok(())
    }

    /// Adds what went wrong while a map was made, under the conditions of `World::add_diagnostic`. No path reads it, so no
    /// import becomes due. Where an allocation fails, nothing changes.
    pub(crate) fn add_diagnostic(
        &mut self,
        map: MapId,
        diagnostic: DefDiagnostic,
    ) -> Result<(), AllocError>
        requires there { lacks_map self.old.world map ≡ false }
        requires known { KnowsAll self.old.world (diagnostic_holds diagnostic) }
        ensures state { OnOk result
            (self.new
            ≡ changed_beside self.old
            (with_diagnostic self.old.world map diagnostic)) }
        ensures err { OnErr result (self.new ≡ self.old) }
    {
        answers_alike();
        self.world.add_diagnostic(map, diagnostic)?;
        Ok(())
    }
}
