//! Item scopes, filled call by call.
mod refused;
mod reported;

use dm_base::ids::{FunctionId, MacroRulesId, ModuleId, StructId};
use dm_base::imports::ImportOrExternCrate;
use dm_base::item_ids::{AdtId, MacroId, ModuleDefId};
use dm_base::name::Name;
use dm_base::per_ns::PerNs;
use dm_base::visibility::Visibility;
use dm_scope::glob_imports::PerNsGlobImports;
use dm_scope::item_scope::ItemScope;
use std::alloc::{AllocError, Global};

/// The module whose scope it is.
const HERE: ModuleId = ModuleId(0);

/// A struct.
fn structure(id: u32) -> ModuleDefId {
    ModuleDefId::AdtId(AdtId::StructId(StructId(id)))
}

fn rules(id: u32) -> MacroId {
    MacroId::MacroRulesId(MacroRulesId(id))
}

/// What a number means in all namespaces, for all to see; none means nothing.
fn in_all(number: Option<u32>) -> PerNs {
    match number {
        None => PerNs::none(),
        Some(id) => {
            let function = ModuleDefId::FunctionId(FunctionId(id));
            let mac = PerNs::macros(rules(id), Visibility::Public, None);
            PerNs::both(structure(id), function, Visibility::Public, None).or(mac)
        }
    }
}

/// A scope, and the flags of globs.
struct Filled {
    scope: ItemScope,
    globs: PerNsGlobImports,
}

/// A hand-written `Drop`, since a scope dropped in each function would be proved there each time.
impl Drop for Filled {
    fn drop(self) {
        let Filled {
            scope: _scope,
            globs: _globs,
        } = self;
    }
}

impl Filled {
    /// Nothing yet.
    fn new(alloc: Global) -> Filled {
        Filled {
            scope: ItemScope::new(alloc),
            globs: PerNsGlobImports::new(alloc),
        }
    }

    /// One push more.
    fn push(
        &mut self,
        alloc: Global,
        name: &str,
        items: PerNs,
        import: Option<ImportOrExternCrate>,
    ) -> Result<bool, AllocError> {
        let name = Name::new(alloc, name)?;
        self.scope
            .push_res_with_import(&mut self.globs, (HERE, name), items, import)
    }
}
