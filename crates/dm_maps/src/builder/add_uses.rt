//! Uses and macros, added to a builder.
ghost use Rattle.std.specs.Prelude.{◌≡◌, ◌∷◌, [], IfOk, OnOk, OnErr, length};
ghost use Rattle.dm_maps.specs.declared.check.held.HeldId.TheVariants as held;
ghost use Rattle.dm_maps.specs.Added.{AreAdded};
ghost use Rattle.dm_maps.specs.BuildItems.{with_use, with_macro, next_use, macro_id};
ghost use Rattle.dm_maps.specs.Faults.{Answers};
ghost use Rattle.dm_maps.specs.ItemFaults.{use_fault, macro_fault};

use crate::build_fault::BuildFault;
use crate::builder::WorldBuilder;
use crate::builder::add_modules::LAST_NUMBER;
use crate::builder::growth::add_last;
use dm_base::ids::{Macro2Id, MacroRulesId, ModuleId, ProcMacroId, UseId};
use dm_base::item_ids::MacroId;
use dm_base::macros::MacroLoc;

impl WorldBuilder {
    /// Adds a use in a module, and answers its number.
    ///
    /// Errors, tested in this order: `NoSuchModule` of a module that is not the builder's, `OutOfNumbers` where there
    /// are 4,294,967,295 uses, and `OutOfMemory`; the builder is then as it was.
    pub fn add_use(&mut self, m: ModuleId) -> Result<UseId, BuildFault>
        ensures ok { OnOk result (self.new ≡ with_use self.old m) }
        ensures number { IfOk result (λ id. id ≡ next_use self.old) }
        ensures fault { Answers (use_fault self.old m) result }
        ensures err { OnErr result (self.new ≡ self.old) }
        ensures added { IfOk result (λ id. AreAdded self.old self.new (held.Use id ∷ [])) }
    {
        if !self.has(m) {
            return Err(BuildFault::NoSuchModule);
        }
        if !(self.uses.len() < LAST_NUMBER) {
            return Err(BuildFault::OutOfNumbers);
        }
        let id = UseId(self.uses.len() as u32);
        add_last(&mut self.uses, m)?;
        Ok(id)
    }

    /// Adds a macro in a module, and answers it. Macros of all kinds are numbered together.
    ///
    /// Errors, tested in this order: `NoSuchModule` of a module that is not the builder's, `OutOfNumbers` where there
    /// are 4,294,967,295 macros, and `OutOfMemory`; the builder is then as it was.
    pub fn add_macro(&mut self, m: ModuleId, loc: MacroLoc) -> Result<MacroId, BuildFault>
        ensures ok { OnOk result (self.new ≡ with_macro self.old m loc) }
        ensures number { IfOk result (λ id. id ≡ macro_id loc (length self.old.macros)) }
        ensures fault { Answers (macro_fault self.old m) result }
        ensures err { OnErr result (self.new ≡ self.old) }
        ensures added { IfOk result (λ id. AreAdded self.old self.new (held.Macro id ∷ [])) }
    {
        if !self.has(m) {
            return Err(BuildFault::NoSuchModule);
        }
        if !(self.macros.len() < LAST_NUMBER) {
            return Err(BuildFault::OutOfNumbers);
        }
        let id = macro_id(loc, self.macros.len() as u32);
        add_last(&mut self.macros, (m, loc))?;
        Ok(id)
    }
}

/// The macro of that number, which is what stands there.
fn macro_id(loc: MacroLoc, n: u32) -> MacroId
    ensures { result ≡ macro_id loc n }
{
    match loc {
        MacroLoc::Macro2(_) => MacroId::Macro2Id(Macro2Id(n)),
        MacroLoc::MacroRules(_) => MacroId::MacroRulesId(MacroRulesId(n)),
        MacroLoc::Proc(_) => MacroId::ProcMacroId(ProcMacroId(n)),
    }
}
