//! `Step`: an import or a glob, by its place in the list of all.

use dm_base::per_ns::Namespace;

/// An import, in one namespace, or a glob: by its place among the imports or the globs.
#[derive(Clone, Copy, PartialEq, Eq, Debug)]
pub enum Step {
    Import(usize, Namespace),
    Glob(usize),
}
