//! The imports that something goes through, from the module that it is looked up in on.
use crate::crates::Crates;
use crate::meanings::{Meant, imported, meant_in};
use dm_base::imports::{GlobId, ImportId, ImportOrExternCrate};
use dm_base::name::Name;
use dm_base::per_ns::Namespace;
use dm_imports::container::Container;
use dm_imports::glob_import::GlobImport;
use dm_imports::named_import::NamedImport;
use std::alloc::{AllocError, Global};

/// At most so many imports are told.
const STEPS: usize = 256;

/// The import of an id.
pub(crate) fn import_of(imports: &[NamedImport], id: ImportId) -> Option<&NamedImport> {
    for import in imports {
        if import.import == id {
            return Some(import);
        }
    }
    None
}

/// The glob of an id.
pub(crate) fn glob_of(globs: &[GlobImport], id: GlobId) -> Option<&GlobImport> {
    for glob in globs {
        if glob.import == id {
            return Some(glob);
        }
    }
    None
}

/// What an import under a name leads to, as it is bound where that stands.
fn through_import<C: Crates>(
    crates: &C,
    import: &NamedImport,
    namespace: Namespace,
) -> Option<Meant> {
    let found = imported(crates, import.home, &import.path)?;
    meant_in(found, namespace)
}

/// What a glob brings under a name, as it is bound in the glob's source.
fn through_glob<C: Crates>(
    crates: &C,
    glob: &GlobImport,
    name: &Name,
    namespace: Namespace,
) -> Option<Meant> {
    match crates.source(glob)? {
        Container::Module(m) => meant_in(crates.bound_in(m, name), namespace),
        Container::Enum(_enum) => None,
    }
}

/// The imports that brought something which is bound under a name, the last first.
pub(crate) fn steps_of<'a, C: Crates>(
    alloc: Global,
    crates: &'a C,
    name: &'a Name,
    meant: Meant,
    namespace: Namespace,
) -> Result<Vec<ImportOrExternCrate>, AllocError> {
    let mut steps = Vec::new(alloc);
    let mut known = name;
    let mut next = meant.import;
    for _step in 0..STEPS {
        let Some(import) = next else {
            break;
        };
        steps.push(import)?;
        let before = match import {
            ImportOrExternCrate::ExternCrate(_) => None,
            ImportOrExternCrate::Glob(id) => match glob_of(crates.globs(), id) {
                None => None,
                Some(glob) => through_glob(crates, glob, known, namespace),
            },
            ImportOrExternCrate::Import(id) => match import_of(crates.imports(), id) {
                None => None,
                Some(import) => {
                    if let Some(last) = import.path.segments().last() {
                        known = last;
                    }
                    through_import(crates, import, namespace)
                }
            },
        };
        next = match before {
            None => None,
            Some(before) => before.import,
        };
    }
    Ok(steps)
}
