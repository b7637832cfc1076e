//! What comes into the lists of a scope.
ghost use Rattle.std.specs.Prelude.{◌≡◌, true, IfErr, IsTrue, OnErr, OnOk};
ghost use Rattle.crate_tables.specs.ScopeEntries as spec;
ghost use Rattle.crate_tables.specs.TextualMacros.{AllStayShown, StaysKnown};
ghost use Rattle.dm_maps.specs.declared.check.held.HeldId.TheVariants as held;
ghost use Rattle.dm_maps.specs.Known.{knows};
ghost use Rattle.dm_maps.specs.declared.build_fault.BuildFault.TheVariants.{OutOfMemory};

use dm_base::ids::{ConstId, ExternBlockId, ExternCrateId, ImplId, ModuleId};
use dm_base::item_ids::ModuleDefId;
use dm_maps::build_fault::BuildFault;
use dm_maps::builder::WorldBuilder;
use dm_scope::item_scope::ItemScope;
use std::alloc::AllocError;

/// What a scope lists beside the names that it binds.
#[derive(Clone, Copy)]
pub(crate) enum ScopeEntry {
    Declaration(ModuleDefId),
    UnnamedConst(ConstId),
    ExternCrate(ExternCrateId),
    /// An `impl`, and whether it is one of a trait.
    Impl(ImplId, bool),
    ExternBlock(ExternBlockId),
}

/// Adds an entry to its list.
fn enter(scope: &mut ItemScope, entry: ScopeEntry) -> Result<(), AllocError>
    ensures ok { OnOk result (scope.new ≡ spec.entered scope.old entry) }
    ensures err { OnErr result (scope.new ≡ scope.old) }
{
    match entry {
        ScopeEntry::Declaration(def) => scope.declare(def),
        ScopeEntry::UnnamedConst(id) => scope.define_unnamed_const(id),
        ScopeEntry::ExternCrate(id) => scope.define_extern_crate_decl(id),
        ScopeEntry::Impl(id, is_of_trait) => scope.define_impl(id, is_of_trait),
        ScopeEntry::ExternBlock(id) => scope.define_extern_block(id),
    }
}

/// Adds an entry to its list in a module, behind the others.
///
/// # Errors
///
/// Fails only where memory runs out, and then changes nothing.
pub(crate) fn list_entry(
    builder: &mut WorldBuilder,
    m: ModuleId,
    entry: ScopeEntry,
) -> Result<(), BuildFault>
    requires { IsTrue (knows builder.old (held.Module m)) }
    ensures world { OnOk result (builder.new ≡ spec.with_entry builder.old m entry) }
    ensures stays { StaysKnown builder.old builder.new }
    ensures shown { AllStayShown builder.old builder.new }
    ensures fault { IfErr result (λ fault. fault ≡ OutOfMemory) }
{
    builder.scope_facts_of(m);
    let Some(scope) = builder.scope_mut(m) else {
        return Ok(());
    };
    enter(scope, entry)?;
    Ok(())
}
