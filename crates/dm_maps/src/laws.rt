//! Lemmas on dumps and on builder calls, for proofs of the crates above. They are functions that do nothing: a function
//! whose proof needs one calls it.
ghost use Rattle.std.specs.Prelude.{◌≡◌, List};
ghost use Rattle.dm_base.specs.declared.ids.Crate.{Crate};
ghost use Rattle.dm_base.specs.declared.ids.MapId.{MapId};
ghost use Rattle.dm_scope.specs.Dumps.{IsDump};
ghost use Rattle.dm_scope.specs.Scope.{Scope};
ghost use Rattle.dm_scope.specs.Tables.{Tables};
ghost use Rattle.dm_def_map.specs.CrateData.{CrateData};
ghost use Rattle.dm_def_map.specs.ItemTables.{ItemTables};
ghost use Rattle.dm_def_map.specs.Maps.{LocalMap, Map};
ghost use Rattle.dm_maps.specs.Added.{IsGrown};
ghost use Rattle.dm_maps.specs.Build.{with_rules};
ghost use Rattle.dm_maps.specs.BuildCrateData.{sharing};
ghost use Rattle.dm_maps.specs.BuildMaps.{with_map};
ghost use Rattle.dm_maps.specs.MapDumps.{scope_text};
ghost use Rattle.dm_maps.specs.World as worlds;
ghost use Rattle.dm_maps.specs.declared.rules.Rules.{Rules};

/// The lines of a scope, its names put in order, are its dump.
pub fn scope_is_dumped()
    ensures { (t : Tables) (s : Scope) → IsDump t s (scope_text t s) }
{}

/// Setters for maps, for the data of a crate, for extern preludes, for tables that belong to no map, and for the
/// version of the rules leave what was known, and each scope.
pub fn settings_keep_scopes()
    ensures maps { (w : worlds.World) (id : MapId) (f : Map → Map) → ((m : Map) → (f m).modules ≡ m.modules)
        → IsGrown w (with_map w id f) }
    ensures crate_data { (w : worlds.World) (k : Crate) (d : CrateData) → IsGrown w (sharing w k d) }
    ensures externs { (w : worlds.World) (ls : List LocalMap) → IsGrown w (record w { local_maps = ls }) }
    ensures tables { (w : worlds.World) (t : ItemTables) → IsGrown w (record w { item_tables = t }) }
    ensures rules { (w : worlds.World) (r : Rules) → IsGrown w (with_rules w r) }
{}
