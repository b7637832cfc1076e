//! Whether imports and globs name only what the world has.
ghost use Rattle.std.specs.Prelude.{◌≡◌, ◌↔◌, All, IsTrue};
ghost use Rattle.dm_base.specs.Visibility.{NamesKnown};
ghost use Rattle.dm_maps.specs.Trees.{tree_of};
ghost use Rattle.dm_imports.specs.Rules.{AreImportsKnown, IsGlobKnown, IsImportKnown, IsModule};
ghost use Rattle.dm_imports.specs.Tables.{is_named as is_named_in, of_tables};

use crate::def_maps::DefMaps;
use crate::glob_import::GlobImport;
use crate::named_import::NamedImport;
use dm_base::ids::ModuleId;
use dm_base::module_tree::ModuleTree;
use dm_base::visibility::Visibility;
use dm_maps::world::World;
use dm_scope::scope_tables::ScopeTables;

/// Whether the module that a visibility names, if it names one, is the world's.
pub(crate) fn is_named(world: &World, vis: Visibility) -> bool
    ensures value { result ≡ is_named_in (tree_of world.now) vis }
    ensures named { IsTrue result ↔ NamesKnown (tree_of world.now) vis }
{
    match vis {
        Visibility::Module(m, _) => world.has(m),
        Visibility::PubCrate(_) => true,
        Visibility::Public => true,
    }
}

/// Whether a module is the world's.
fn is_module(maps: &DefMaps<'_>, m: ModuleId) -> bool
    ensures { IsTrue result ↔ IsModule (of_tables maps.now) m }
{
    maps.world.scope_of(m).is_some() && m.0 < u32::MAX
}

/// Whether the module of an import, and the one that its visibility names, are the world's.
fn is_import_known(maps: &DefMaps<'_>, import: &NamedImport) -> bool
    ensures { IsTrue result ↔ IsImportKnown (of_tables maps.now) import.now }
{
    is_module(maps, import.home) && is_named(maps.world, import.vis)
}

/// The same of some imports.
fn imports_known(maps: &DefMaps<'_>, imports: &[NamedImport]) -> bool
    ensures { IsTrue result ↔ All (IsImportKnown (of_tables maps.now)) imports.now }
{
    for import in imports {
        if !is_import_known(maps, import) {
            return false;
        }
    }
    true
}

/// The same of some globs.
fn globs_known(maps: &DefMaps<'_>, globs: &[GlobImport]) -> bool
    ensures { IsTrue result ↔ All (IsGlobKnown (of_tables maps.now)) globs.now }
{
    for glob in globs {
        if !maps.is_glob_known(glob) {
            return false;
        }
    }
    true
}

impl<'a> DefMaps<'a> {
    /// Whether the module of a glob, and the one that its visibility names, are the world's.
    pub fn is_glob_known(&self, glob: &GlobImport) -> bool
        ensures { IsTrue result ↔ IsGlobKnown (of_tables self.now) glob.now }
    {
        is_module(self, glob.into) && is_named(self.world, glob.vis)
    }

    /// Whether imports and globs stand in modules of the world's, and their visibilities name such: what `is_supported`
    /// asks for.
    pub fn are_imports_known(&self) -> bool
        ensures { IsTrue result ↔ AreImportsKnown (of_tables self.now) }
    {
        imports_known(self, self.imports) && globs_known(self, self.globs)
    }
}
