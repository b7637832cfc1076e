//! Chains of imports: the definition that an import of a scope finally resolves to, through re-exports.
ghost use Rattle.std.specs.Prelude.{◌≡◌};
ghost use Rattle.std.specs.Option.{option_map, option_and_then};
ghost use Rattle.dm_base.specs.Definitions.{widened_macro};
ghost use Rattle.dm_base.specs.declared.per_ns.Namespace.{Namespace};
ghost use Rattle.dm_scope.specs.Chains.{IsFound, public_item};
ghost use Rattle.dm_scope.specs.ChainSteps.{found_from, macro_of};

mod circles;

use crate::import_chains::circles::Passed;
use crate::item_scope::ItemScope;
use crate::scope_tables::ScopeTables;
use dm_base::imports::{ImportId, ImportOrDef};
use dm_base::item_ids::{MacroId, ModuleDefId};
use dm_base::per_ns::{Item, Namespace, PerNs};
use dm_base::visibility::Visibility;

impl ItemScope {
    /// The definitions that a named import of this scope finally resolves to, one for each namespace (docs/RULES.md,
    /// "Chains of imports"). A look-up for each import of the chain. Takes no memory.
    pub fn fully_resolve_import<T: ScopeTables>(&self, tables: &T, import: ImportId) -> PerNs
        ensures types { IsFound Namespace.Types (T.tables tables.now) (self.now, import) (λ d. d)
            result.types }
        ensures values { IsFound Namespace.Values (T.tables tables.now) (self.now, import) (λ d. d)
            result.values }
        ensures macros { IsFound Namespace.Macros (T.tables tables.now) (self.now, import) widened_macro
            result.macros }
    {
        let types = chain_end(self, tables, Namespace::Types, import);
        let values = chain_end(self, tables, Namespace::Values, import);
        let macros = chain_end(self, tables, Namespace::Macros, import);
        PerNs {
            types: public_item(types),
            values: public_item(values),
            macros: public_item(as_macro(macros)),
        }
    }
}

/// The definition in which the chain of a namespace ends. A chain that ends has no pair twice, and so no more pairs
/// than there are records, and one.
fn chain_end<T: ScopeTables>(
    start: &ItemScope,
    tables: &T,
    namespace: Namespace,
    import: ImportId,
) -> Option<ModuleDefId>
    ensures { result ≡ found_from namespace (T.tables tables.now) (start.now, import) }
{
    let mut scope = start;
    let mut at = import;
    let mut left = tables.records(namespace);
    let mut passed = Passed::none();
    loop {
        let next = match scope.record_in(namespace, at)? {
            ImportOrDef::Def(def) => return Some(def),
            ImportOrDef::Import(next) => next,
            ImportOrDef::Glob(_) | ImportOrDef::ExternCrate(_) => return None,
        };
        if left == 0 {
            return None;
        }
        if passed.import == Some(next) {
            return None;
        }
        left -= 1;
        passed = passed.stepped(next);
        let m = tables.use_container(next.use_)?;
        scope = tables.scope_of(m)?;
        at = next;
    }
}

/// A definition that everyone sees, and that no import brought.
fn public_item<D, I>(def: Option<D>) -> Option<Item<D, I>>
    ensures { result ≡ option_map public_item def }
{
    let def = def?;
    Some(Item {
        def,
        vis: Visibility::Public,
        import: None,
    })
}

/// The macro that a definition is.
fn as_macro(def: Option<ModuleDefId>) -> Option<MacroId>
    ensures { result ≡ option_and_then macro_of def }
{
    match def {
        Some(ModuleDefId::MacroId(id)) => Some(id),
        _ => None,
    }
}
