//! Pushes into the scopes of a world.
ghost use Rattle.std.specs.Prelude.{◌≡◌, false, List, IsSome, OnOk, OnErr};
ghost use Rattle.dm_base.specs.declared.ids.ModuleId.{ModuleId};
ghost use Rattle.dm_base.specs.Tree.{same_module};
ghost use Rattle.dm_scope.specs.Gives.{PushGives};
ghost use Rattle.dm_scope.specs.Push.{scope_after};
ghost use Rattle.dm_scope.specs.PushLaw.{PushLaw, itself};
ghost use Rattle.dm_scope.specs.Shows.{PushAnswers, PushShows, ShowsElsewhere, StillShows, push_of};
ghost use Rattle.dm_maps.specs.Pushes.{push_holds};
ghost use Rattle.dm_maps.specs.PushRes.{with_push, StaysShown};
ghost use Rattle.dm_base.specs.Names.{Name};
ghost use Rattle.dm_maps.specs.Cut.{among, cut};
ghost use Rattle.dm_maps.specs.First.{IsChecked};
ghost use Rattle.dm_maps.specs.Known.{KnowsAll};
ghost use Rattle.dm_maps.specs.Built.{IsBuilt};
ghost use Rattle.dm_maps.specs.CountGrowth.{HaveGrown};
ghost use Rattle.dm_maps.specs.Stays.{StaysKnown};
ghost use Rattle.dm_maps.specs.World.{scope_if_known, scope_of};

use crate::builder::WorldBuilder;
use crate::world::World;
use crate::world::record_counts::RecordCounts;
use dm_base::ids::ModuleId;
use dm_base::imports::ImportOrExternCrate;
use dm_base::name::Name;
use dm_base::per_ns::PerNs;
use dm_scope::glob_imports::PerNsGlobImports;
use std::alloc::AllocError;

impl World {
    /// Pushes what an import, or a declaration, resolves a name of a module to (docs/RULES.md, "Pushes").
    ///
    /// Explicit names shadow globs (`ItemScope::push_res_with_import`).
    ///
    /// All that the push holds has to be the world's: `knows_res` tests it. Answers whether a namespace was written, or
    /// the name went among the unresolved ones. Other scopes and all tables stay. Where an allocation fails, nothing
    /// changes.
    // Not inlined, so that what is inside this call can be counted.
    #[inline(never)]
    pub fn push_res(
        &mut self,
        glob_imports: &mut PerNsGlobImports,
        lookup: (ModuleId, Name),
        res: PerNs,
        import: Option<ImportOrExternCrate>,
    ) -> Result<bool, AllocError>
        requires known { KnowsAll self.old (push_holds lookup.0 res import) }

        // What the push gives in the module's scope: its answer, and what scope and glob table are after it.
        ensures gives { PushGives (scope_of self.old lookup.0) glob_imports.old (scope_of self.new lookup.0)
            glob_imports.new lookup.0 (push_of lookup.1 res import) result }
        ensures world { OnOk result
            (self.new ≡ with_push self.old glob_imports.old lookup.0 lookup.1 res import) }
        ensures err { OnErr result (self.new ≡ self.old) }

        // All that the world's tables hold is the world's.
        ensures checked { IsChecked self.new }

        // The scope of each other module is as before.
        ensures others { (k : ModuleId) → same_module lookup.0 k ≡ false
            → scope_of self.new k ≡ scope_of self.old k }

        // What the world has under other names than the pushed one is as before.
        ensures others_stay { (N : List Name) → among N lookup.1 ≡ false → cut self.new N ≡ cut self.old N }

        // What was known is known, and the name-independent part of the world is as before.
        ensures stays_known { StaysKnown self.old self.new }

        // Where the module's scope and the table show a list of pushes, they show it with this push after it, and the
        // answer is as that list says. After an allocation failure, and in another module, what was shown is shown.
        ensures shown { PushShows (scope_of self.old lookup.0) glob_imports.old (scope_of self.new lookup.0)
            glob_imports.new lookup.0 (push_of lookup.1 res import) result }
        ensures shown_answer { PushAnswers (scope_of self.old lookup.0) glob_imports.old lookup.0
            (push_of lookup.1 res import) result }
        ensures refused { (k : ModuleId)
            → StillShows (scope_of self.old k) glob_imports.old (scope_of self.new k)
            glob_imports.new k result }
        ensures elsewhere { (k : ModuleId) → same_module lookup.0 k ≡ false
            → StaysShown self.old glob_imports.old self.new glob_imports.new k }

        // What it leaves of other pushes, into each module, as a worklist of imports needs it: one that answers false
        // changes nothing, none writes twice, and what a named import would not write it would not write after this
        // push, if that came by another import, by a glob or by none.
        ensures law { OnOk result
            (PushLaw scope_of self.old glob_imports.old self.new glob_imports.new lookup.0
            (push_of lookup.1 res import)) }
    {
        let answer = self
            .tables
            .push_res(&mut self.records, glob_imports, lookup, res, import)?;
        self.tables.lawful();
        Ok(answer)
    }
}

impl WorldBuilder {
    /// Pushes into the scope of a module of the builder's, and counts the records that it then has more.
    fn push_res(
        &mut self,
        records: &mut RecordCounts,
        glob_imports: &mut PerNsGlobImports,
        lookup: (ModuleId, Name),
        res: PerNs,
        import: Option<ImportOrExternCrate>,
    ) -> Result<bool, AllocError>
        requires there { IsSome (scope_if_known self.old lookup.0) }
        ensures gives { PushGives (scope_of self.old lookup.0) glob_imports.old (scope_of self.new lookup.0)
            glob_imports.new lookup.0 (push_of lookup.1 res import) result }
        ensures world { OnOk result
            (self.new ≡ with_push self.old glob_imports.old lookup.0 lookup.1 res import) }
        ensures err { OnErr result (self.new ≡ self.old) }
        ensures counts { OnOk result
            (HaveGrown records.old records.new (scope_of self.old lookup.0)
            (scope_of self.new lookup.0)) }
        ensures err_counts { OnErr result (records.new ≡ records.old) }
        ensures shown { PushShows (scope_of self.old lookup.0) glob_imports.old
            (scope_after (scope_of self.old lookup.0) glob_imports.old lookup.0 lookup.1 res
            import)
            glob_imports.new lookup.0 (push_of lookup.1 res import) result }
        ensures shown_answer { PushAnswers (scope_of self.old lookup.0) glob_imports.old lookup.0
            (push_of lookup.1 res import) result }
        ensures elsewhere { ShowsElsewhere glob_imports.old glob_imports.new lookup.0 }
        ensures law { OnOk result
            (PushLaw itself (scope_of self.old lookup.0) glob_imports.old
            (scope_after (scope_of self.old lookup.0) glob_imports.old lookup.0 lookup.1
            res import)
            glob_imports.new lookup.0 (push_of lookup.1 res import)) }
    {
        let scope = self.scope_mut(lookup.0).unwrap();
        let before = RecordCounts::of_scope(scope);
        let answer = scope.push_res_with_import(glob_imports, lookup, res, import)?;
        let after = RecordCounts::of_scope(scope);
        records.grow(before, after);
        Ok(answer)
    }

    /// What holds of the tables of every builder, checked or not.
    pub(crate) fn lawful(&self)
        ensures { IsBuilt self.now }
    {
        let _places = &self.places;
    }
}
