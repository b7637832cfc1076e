//! What imports mean by the rules of imports.
use crate::crates::Crates;
use dm_base::ids::ModuleId;
use dm_base::mod_path::{ModPath, PathKind};
use dm_base::per_ns::Namespace;
use dm_imports::named_import::{ImportKind, NamedImport};
use dm_imports::rules::meanings::ImportMeanings;

/// What a path means for a module, in each namespace.
pub(crate) fn meanings_in<C: Crates>(crates: &C, home: ModuleId, path: &ModPath) -> ImportMeanings {
    let textual = match path.segments() {
        [name] if path.kind() == PathKind::Plain => crates.textual_macro(home, name),
        _ => None,
    };
    ImportMeanings {
        types: crates.meaning_by_rules(home, None, path, Namespace::Types),
        values: crates.meaning_by_rules(home, None, path, Namespace::Values),
        macros: crates.meaning_by_rules(home, textual, path, Namespace::Macros),
    }
}

/// What an import at a place among all means; one as `_`, which brings nothing, what its path does.
pub(crate) fn meanings_of<C: Crates>(
    crates: &C,
    place: usize,
    import: &NamedImport,
) -> ImportMeanings {
    match (import.kind, crates.import_meanings(place)) {
        (ImportKind::All | ImportKind::TypeOnly, Some(meanings)) => meanings,
        _ => meanings_in(crates, import.home, &import.path),
    }
}

/// What the path of a glob means for a module, as a type.
pub(crate) fn source_meanings<C: Crates>(
    crates: &C,
    home: ModuleId,
    path: &ModPath,
) -> ImportMeanings {
    ImportMeanings {
        types: crates.meaning_by_rules(home, None, path, Namespace::Types),
        values: None,
        macros: None,
    }
}

pub(crate) fn mean_something(meanings: ImportMeanings) -> bool {
    meanings.types.is_some() || meanings.values.is_some() || meanings.macros.is_some()
}
