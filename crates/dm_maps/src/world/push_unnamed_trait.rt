//! Traits that are imported without a name into the scopes of a checked world.
ghost use Rattle.std.specs.Prelude.{◌≡◌, List, IsSome, OnOk, OnErr};
ghost use Rattle.dm_base.specs.declared.ids.ModuleId.{ModuleId};
ghost use Rattle.dm_base.specs.Names.{Name};
ghost use Rattle.dm_scope.specs.Flags.{Globs};
ghost use Rattle.dm_maps.specs.Cut.{cut};
ghost use Rattle.dm_maps.specs.First.{IsChecked};
ghost use Rattle.dm_maps.specs.GoesOn.{HasTraitMore, trait_import_holds, with_unnamed_trait};
ghost use Rattle.dm_maps.specs.Known.{KnowsAll};
ghost use Rattle.dm_maps.specs.PushRes.{StaysShown};
ghost use Rattle.dm_maps.specs.Stays.{StaysKnown};
ghost use Rattle.dm_maps.specs.World.{scope_if_known};

use crate::builder::WorldBuilder;
use crate::world::World;
use dm_base::ids::{ModuleId, TraitId};
use dm_base::imports::ImportId;
use dm_base::visibility::Visibility;
use std::alloc::AllocError;

impl World {
    /// Imports a trait without a name into a module (`use path::Trait as _`), the last of the module's list.
    ///
    /// All that the import holds has to be the world's: `knows_unnamed_trait` tests it. Other scopes and all tables
    /// stay. Where an allocation fails, nothing changes.
    pub fn push_unnamed_trait(
        &mut self,
        m: ModuleId,
        tr: TraitId,
        vis: Visibility,
        import: Option<ImportId>,
    ) -> Result<(), AllocError>
        requires known { KnowsAll self.old (trait_import_holds m tr vis import) }
        ensures ok { OnOk result (self.new ≡ with_unnamed_trait self.old m tr vis import) }
        ensures err { OnErr result (self.new ≡ self.old) }

        // All that the world's tables hold is the world's.
        ensures checked { IsChecked self.new }

        // The module's scope has the trait more, and each other scope is as before.
        ensures scopes { OnOk result (HasTraitMore self.old self.new m tr vis import) }

        // What was known is known, and the name-independent part of the world is as before. Each scope shows the
        // pushes that it showed, and what the world has under any names is as before.
        ensures stays_known { StaysKnown self.old self.new }
        ensures shown { (g : Globs) (k : ModuleId) → StaysShown self.old g self.new g k }
        ensures stays { (N : List Name) → cut self.new N ≡ cut self.old N }
    {
        self.tables.push_unnamed_trait(m, tr, vis, import)?;
        self.tables.lawful();
        Ok(())
    }
}

impl WorldBuilder {
    /// The same, into a module of the builder's.
    fn push_unnamed_trait(
        &mut self,
        m: ModuleId,
        tr: TraitId,
        vis: Visibility,
        import: Option<ImportId>,
    ) -> Result<(), AllocError>
        requires there { IsSome (scope_if_known self.old m) }
        ensures ok { OnOk result (self.new ≡ with_unnamed_trait self.old m tr vis import) }
        ensures err { OnErr result (self.new ≡ self.old) }
    {
        let scope = self.scope_mut(m).unwrap();
        scope.push_unnamed_trait(tr, vis, import)?;
        Ok(())
    }
}
