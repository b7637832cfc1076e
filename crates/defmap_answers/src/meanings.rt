//! What names mean in a namespace.
use crate::crates::Crates;
use dm_base::ids::ModuleId;
use dm_base::imports::{ImportOrExternCrate, ImportOrGlob};
use dm_base::item_ids::ModuleDefId;
use dm_base::mod_path::ModPath;
use dm_base::per_ns::{Namespace, PerNs};
use dm_base::visibility::Visibility;

/// What an import of a module takes by its path: of another crate what is public alone.
pub(crate) fn imported<C: Crates>(crates: &C, m: ModuleId, path: &ModPath) -> Option<PerNs> {
    let found = crates.import_meaning(m, path)?;
    if found.segment_index.is_some() {
        return None;
    }
    if found.prefix_info.differing_crate {
        let public = |visibility: Visibility| visibility.is_visible_from_other_crate();
        return Some(found.resolved_def.filter_visibility(public));
    }
    Some(found.resolved_def)
}

/// A definition, who sees it, and what brought it.
#[derive(Clone, Copy)]
pub(crate) struct Meant {
    pub(crate) def: ModuleDefId,
    pub(crate) visibility: Visibility,
    pub(crate) import: Option<ImportOrExternCrate>,
}

fn of_glob(import: ImportOrGlob) -> ImportOrExternCrate {
    match import {
        ImportOrGlob::Import(id) => ImportOrExternCrate::Import(id),
        ImportOrGlob::Glob(id) => ImportOrExternCrate::Glob(id),
    }
}

/// What some items have in a namespace.
pub(crate) fn meant_in(items: PerNs, namespace: Namespace) -> Option<Meant> {
    match namespace {
        Namespace::Types => {
            let item = items.types?;
            Some(Meant {
                def: item.def,
                visibility: item.vis,
                import: item.import,
            })
        }
        Namespace::Values => {
            let item = items.values?;
            Some(Meant {
                def: item.def,
                visibility: item.vis,
                import: item.import.map(of_glob),
            })
        }
        Namespace::Macros => {
            let item = items.macros?;
            Some(Meant {
                def: ModuleDefId::MacroId(item.def),
                visibility: item.vis,
                import: item.import,
            })
        }
    }
}
