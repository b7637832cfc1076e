//! A mock of a checked world, of scopes alone: code that is generic over worlds is proved and run with this type too.
ghost use Rattle.defmap_callers.specs.Modules.{tables_of};

use bitflags::Flags;
use dm_base::ids::{ModuleId, UseId};
use dm_base::item_ids::MacroId;
use dm_base::macros::MacroCallStyles;
use dm_base::name::Name;
use dm_base::per_ns::Namespace;
use dm_scope::item_scope::ItemScope;
use dm_scope::scope_tables::ScopeTables;

/// The scopes of modules, by number. Each use is in the module of its number.
#[derive(Drop)]
pub struct Modules {
    pub scopes: Vec<ItemScope>,
}

impl ScopeTables for Modules {
    ghost tables = { λ m. tables_of m.scopes.items };

    fn use_container(&self, use_: UseId) -> Option<ModuleId> {
        Some(ModuleId(use_.0))
    }

    fn scope_of(&self, m: ModuleId) -> Option<&ItemScope> {
        self.scopes.get(m.0 as usize)
    }

    fn macro_styles(&self, id: MacroId) -> MacroCallStyles {
        match id {
            MacroId::MacroRulesId(_) => MacroCallStyles::FN_LIKE,
            MacroId::ProcMacroId(_) => MacroCallStyles::DERIVE,
            MacroId::Macro2Id(_) => MacroCallStyles::empty(),
        }
    }

    fn prints_raw(&self, name: &Name) -> bool {
        name.as_str() == "type"
    }

    fn records(&self, namespace: Namespace) -> usize {
        let mut count = 0usize;
        for scope in &self.scopes {
            count = count.saturating_add(scope.record_count(namespace));
        }
        count
    }
}
