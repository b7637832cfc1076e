//! `push_res_with_import`: pushes a resolution into all namespaces of a scope.
ghost use Rattle.std.specs.Prelude.{◌≡◌, ◌||◌, false, List, [], ◌∷◌, ◌++◌, IfOk, OnOk, OnErr};
ghost use Rattle.dm_base.specs.declared.ids.ModuleId.{ModuleId};
ghost use Rattle.dm_base.specs.Names.{Name};
ghost use Rattle.dm_base.specs.Tree.{same_module};
ghost use Rattle.dm_scope.specs.Bindings.{bound_after, flags_after, is_effective_at};
ghost use Rattle.dm_scope.specs.Gives.{PushGives};
ghost use Rattle.dm_scope.specs.Push.{types_reading, values_reading, macros_reading, unresolved_after, is_new_unresolved, scope_after, globs_after};
ghost use Rattle.dm_scope.specs.PushLaw.{PushLaw, itself};
ghost use Rattle.dm_scope.specs.Scope.{Scope};
ghost use Rattle.dm_scope.specs.Shows.{IsByNameInEach, PushAnswers, PushShows, ShowsElsewhere, StillShows, push_of};

use super::ItemScope;
use crate::glob_imports::PerNsGlobImports;
use dm_base::ids::ModuleId;
use dm_base::imports::ImportOrExternCrate;
use dm_base::name::Name;
use dm_base::per_ns::PerNs;
use std::alloc::AllocError;

impl ItemScope {
    /// Pushes what an import, or a declaration, resolves a name of a module to (docs/RULES.md, "Pushes").
    ///
    /// Explicit names shadow globs: a named import or a declaration replaces the binding of a glob, and a glob import
    /// never replaces a binding.
    ///
    /// Answers whether a namespace was written, or the name went among the unresolved ones. Where an allocation fails,
    /// scope and glob table are as they were.
    pub fn push_res_with_import(
        &mut self,
        glob_imports: &mut PerNsGlobImports,
        lookup: (ModuleId, Name),
        def: PerNs,
        import: Option<ImportOrExternCrate>,
    ) -> Result<bool, AllocError>
        ensures gives { PushGives self.old glob_imports.old self.new glob_imports.new lookup.0
            (push_of lookup.1 def import) result }

        // Where scope and table show a list of pushes under the module, they show it with this push after it, and the
        // answer is as that list says. After an allocation failure, and under another module, what was shown is shown.
        ensures shown { PushShows self.old glob_imports.old self.new glob_imports.new lookup.0
            (push_of lookup.1 def import) result }
        ensures shown_answer { PushAnswers self.old glob_imports.old lookup.0 (push_of lookup.1 def import) result }
        ensures refused { (k : ModuleId) → StillShows self.old glob_imports.old self.new glob_imports.new k result }

        // What any list of pushes binds to a name in a namespace depends only on the pushes of that name that have an
        // item there, and not on globs where one of these is explicit: explicit names shadow globs.
        ensures by_name { (n : Name) → IsByNameInEach n }
        ensures elsewhere { ShowsElsewhere glob_imports.old glob_imports.new lookup.0 }

        // What it leaves of other pushes, as a worklist of imports needs it: one that answers false changes nothing,
        // none writes twice, and what a named import would not write it would not write after this push, if that came
        // by another import, by a glob or by none.
        ensures law { OnOk result
            (PushLaw itself self.old glob_imports.old self.new glob_imports.new lookup.0
            (push_of lookup.1 def import)) }
    {
        let (m, name) = lookup;
        let answer = self.push_named(glob_imports, m, name, &def, import)?;
        Ok(answer)
    }

    /// The push, with a fast path for one item: the name is moved into the table of its namespace, and there is no step
    /// to undo.
    fn push_named(
        &mut self,
        globs: &mut PerNsGlobImports,
        m: ModuleId,
        name: Name,
        def: &PerNs,
        import: Option<ImportOrExternCrate>,
    ) -> Result<bool, AllocError>
        ensures { PushGives self.old globs.old self.new globs.new m (push_of name def.now import) result }
    {
        match (&def.types, &def.values, &def.macros) {
            (Some(item), None, None) => {
                self.types
                    .push_named(&mut globs.types, m, name, item, import)
            }
            (None, Some(item), None) => {
                self.values
                    .push_named(&mut globs.values, m, name, item, import)
            }
            (None, None, Some(item)) => {
                self.macros
                    .push_named(&mut globs.macros, m, name, item, import)
            }
            _ => self.push_from_types(globs, m, &name, def, import),
        }
    }

    /// The push, in all namespaces: the first step, then all that is below, then the second step, or all undone.
    // Not inlined, so that a push of one item need not read the others.
    #[inline(never)]
    fn push_from_types(
        &mut self,
        globs: &mut PerNsGlobImports,
        m: ModuleId,
        name: &Name,
        def: &PerNs,
        import: Option<ImportOrExternCrate>,
    ) -> Result<bool, AllocError>
        ensures { PushGives self.old globs.old self.new globs.new m (push_of name.now def.now import)
            result }
    {
        let new = self
            .types
            .grow(&mut globs.types, m, name, def.types, import)?;
        match self.push_from_values(globs, m, name, def, import) {
            Ok(below) => {
                self.types
                    .finish(&mut globs.types, new, m, name, def.types, import);
                Ok(new.writes || below)
            }
            Err(refused) => {
                self.types.undo(&mut globs.types, new, m, name);
                Err(refused)
            }
        }
    }

    /// The push from the values on.
    fn push_from_values(
        &mut self,
        globs: &mut PerNsGlobImports,
        m: ModuleId,
        name: &Name,
        def: &PerNs,
        import: Option<ImportOrExternCrate>,
    ) -> Result<bool, AllocError>
        ensures answer { IfOk result
            (λ answer.
            answer
            ≡ (is_effective_at values_reading self.old.values globs.old.values m name.now
            def.now.values import
            || (is_effective_at macros_reading self.old.macros globs.old.macros m
            name.now def.now.macros import
            || is_new_unresolved self.old.unresolved name.now def.now))) }
        ensures scope { OnOk result
            (self.new
            ≡ record (scope_after self.old globs.old m name.now def.now import)
            { types = self.old.types }) }
        ensures globs { OnOk result
            (globs.new
            ≡ record (globs_after self.old globs.old m name.now def.now import)
            { types = globs.old.types }) }
        ensures err { OnErr result (self.new ≡ self.old) }
        ensures err_globs { OnErr result (globs.new ≡ globs.old) }
    {
        let new = self
            .values
            .grow(&mut globs.values, m, name, def.values, import)?;
        match self.push_from_macros(globs, m, name, def, import) {
            Ok(below) => {
                self.values
                    .finish(&mut globs.values, new, m, name, def.values, import);
                Ok(new.writes || below)
            }
            Err(refused) => {
                self.values.undo(&mut globs.values, new, m, name);
                Err(refused)
            }
        }
    }

    /// The push from the macros on.
    fn push_from_macros(
        &mut self,
        globs: &mut PerNsGlobImports,
        m: ModuleId,
        name: &Name,
        def: &PerNs,
        import: Option<ImportOrExternCrate>,
    ) -> Result<bool, AllocError>
        ensures answer { IfOk result
            (λ answer.
            answer
            ≡ (is_effective_at macros_reading self.old.macros globs.old.macros m name.now
            def.now.macros import
            || is_new_unresolved self.old.unresolved name.now def.now)) }
        ensures scope { OnOk result
            (self.new
            ≡ record self.old {
              macros =
                  bound_after macros_reading self.old.macros globs.old.macros m
                  name.now def.now.macros import;
              unresolved = unresolved_after self.old.unresolved name.now def.now;
            }) }
        ensures globs { OnOk result
            (globs.new
            ≡ record globs.old {
              macros =
                  flags_after macros_reading self.old.macros globs.old.macros m
                  name.now def.now.macros import;
            }) }
        ensures err { OnErr result (self.new ≡ self.old) }
        ensures err_globs { OnErr result (globs.new ≡ globs.old) }
    {
        let new = self
            .macros
            .grow(&mut globs.macros, m, name, def.macros, import)?;
        match self.push_unresolved(name, def) {
            Ok(below) => {
                self.macros
                    .finish(&mut globs.macros, new, m, name, def.macros, import);
                Ok(new.writes || below)
            }
            Err(refused) => {
                self.macros.undo(&mut globs.macros, new, m, name);
                Err(refused)
            }
        }
    }

    /// Puts the name of an empty push among the unresolved ones.
    fn push_unresolved(&mut self, name: &Name, def: &PerNs) -> Result<bool, AllocError>
        ensures answer { IfOk result (λ answer. answer ≡ is_new_unresolved self.old.unresolved name.now def.now) }
        ensures scope { OnOk result
            (self.new
            ≡ record self.old
            { unresolved = unresolved_after self.old.unresolved name.now def.now }) }
        ensures err { OnErr result (self.new ≡ self.old) }
    {
        if !def.is_none() || self.rare.is_unresolved(name) {
            return Ok(false);
        }
        let key = name.copy(self.alloc)?;
        self.rare.add_unresolved(key)?;
        Ok(true)
    }
}
