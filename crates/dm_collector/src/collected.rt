//! `Collected`: crates, collected.
ghost use Rattle.std.specs.Prelude.{◌≡◌};
ghost use Rattle.dm_collector.specs.Collecting.{tables_in};

use crate::macro_uses::MacroUses;
use crate_items::modules::CrateModules;
use crate_tables::assoc_items::filling::AssocPlace;
use crate_tables::crate_table::CrateTable;
use crate_tables::extern_crates::ExternCrateRow;
use dm_imports::declarations::Declarations;
use dm_imports::def_maps::DefMaps;
use dm_imports::glob_import::GlobImport;
use dm_imports::marks::Marks;
use dm_imports::named_import::NamedImport;
use dm_imports::rules::meanings::ImportMeanings;
use dm_imports::slots::Slots;
use dm_maps::world::World;
use dm_scope::glob_imports::PerNsGlobImports;

/// Crates, collected. The crates of the graph have their numbers in the world, too.
pub struct Collected {
    pub world: World,
    /// Which names globs brought.
    pub flags: PerNsGlobImports,
    /// The imports of all crates, but globs.
    pub imports: Vec<NamedImport>,
    /// The globs of all crates.
    pub globs: Vec<GlobImport>,
    /// Who sees enums and the constructors of their variants, and which modules have no preludes.
    pub declarations: Declarations,
    /// The slots that are ambiguous.
    pub ambiguous: Slots<bool>,
    /// The slots whose meaning depends on the order of imports: none where `is_supported`.
    pub order_dependent: Slots<bool>,
    /// What each import brings in each namespace, in the order of the imports.
    pub meanings: Vec<ImportMeanings>,
    /// The roots that each crate has macros from.
    pub uses: Vec<MacroUses>,
    /// Whether the def maps are what the rules of imports give of them, and follow from declarations. Where they are not,
    /// what some names mean goes by the order of imports.
    pub is_supported: bool,
    /// Whether all unnamed traits and all macros of `macro_use` preludes came.
    pub is_settled: bool,
    /// The modules that each crate declares, with what was read of their files.
    pub lists: Vec<CrateModules>,
    /// The table of each crate, from which names and imports were taken: the ids of its modules, and where its uses and
    /// its definitions are written.
    pub tables: Vec<CrateTable>,
    /// The extern crates of all crates, by their numbers.
    pub externs: Vec<ExternCrateRow>,
    /// Where the associated items of all crates are written.
    pub assocs: Vec<AssocPlace>,
}

/// A hand-written `Drop`, to keep proofs small: what drops one has one call to prove.
impl Drop for Collected {
    fn drop(self) {
        let Collected {
            world: _world,
            flags: _flags,
            imports: _imports,
            globs: _globs,
            declarations: _declarations,
            ambiguous: _ambiguous,
            order_dependent: _order_dependent,
            meanings: _meanings,
            uses: _uses,
            is_supported: _is_supported,
            is_settled: _is_settled,
            lists: _lists,
            tables: _tables,
            externs: _externs,
            assocs: _assocs,
        } = self;
    }
}

impl Collected {
    /// The def maps, with what is imported in them.
    pub fn def_maps(&self) -> DefMaps<'_>
        ensures { result ≡ tables_in self.now self.now.world }
    {
        DefMaps {
            world: &self.world,
            imports: self.imports.as_slice(),
            globs: self.globs.as_slice(),
            declarations: &self.declarations,
            ambiguous: Marks {
                table: &self.ambiguous,
                is_all_but: false,
            },
        }
    }
}
