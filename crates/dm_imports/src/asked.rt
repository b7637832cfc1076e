//! What def maps answer where a module of the world asks, and what a glob offers.
ghost use Rattle.std.specs.Prelude.{◌≡◌, ◌↔◌, IsTrue};
ghost use Rattle.dm_imports.specs.Asked as spec;
ghost use Rattle.dm_imports.specs.Rules.{IsGlobKnown, offer};
ghost use Rattle.dm_imports.specs.Tables.{asks, of_tables};

use crate::asking::Asking;
use crate::container::Container;
use crate::def_maps::DefMaps;
use crate::glob_import::GlobImport;
use crate::meaning::Meaning;
use crate::paths::path_meaning;
use crate::rules::offers::{offer_from, source_of};
use dm_base::ids::ModuleId;
use dm_base::item_ids::MacroId;
use dm_base::mod_path::ModPath;
use dm_base::module_tree::ModuleTree;
use dm_base::name::Name;
use dm_base::per_ns::Namespace;

/// A module that asks, and no import.
fn module_asks<'a>(home: ModuleId) -> Asking<'a>
    ensures { asks result ≡ spec.module_asks home }
{
    Asking {
        home,
        import: None,
        below: None,
        offered: None,
    }
}

impl<'a> DefMaps<'a> {
    /// What a path means that a module asks for; nothing where the module is not the world's. `textual` is the textual
    /// macro of the path's name there. Takes no memory.
    pub fn meaning_in(
        &self,
        home: ModuleId,
        textual: Option<MacroId>,
        path: &ModPath,
        namespace: Namespace,
    ) -> Option<Meaning>
        ensures { result ≡ spec.meaning_in (of_tables self.now) home textual path.now namespace }
    {
        if self.world.has(home) {
            let asking = module_asks(home);
            path_meaning(self, &asking, textual, path, namespace)
        } else {
            None
        }
    }

    /// The module or enum that a glob's path means, if that is not the glob's own module; nothing where the glob's module
    /// is not the world's. Takes no memory.
    pub fn source(&self, glob: &GlobImport) -> Option<Container>
        ensures { result ≡ spec.source_in (of_tables self.now) glob.now }
    {
        if self.world.has(glob.into) {
            source_of(self, glob)
        } else {
            None
        }
    }

    /// What a glob offers its module under a name. Takes no memory.
    ///
    /// The glob has to stand in a module of the world's, and so has that to be which its visibility names:
    /// `is_glob_known` tests it.
    pub fn offer(&self, glob: &GlobImport, name: &Name, namespace: Namespace) -> Option<Meaning>
        requires { IsGlobKnown (of_tables self.now) glob.now }
        ensures { result ≡ offer (of_tables self.now) glob.now name.now namespace }
    {
        let source = source_of(self, glob)?;
        offer_from(self, glob, source, name, namespace)
    }
}
