//! The def maps of crates and blocks, checked worlds of them, and path resolution over one.
pub use crate::path_resolution::ResolvePath;
pub use crate::path_resolution::result::{
    ReachedFixedPoint, ResolveMode, ResolvePathResult, ResolvePathResultPrefixInfo,
};
pub use dm_base::macros::{MacroCallStyles, MacroExpander, MacroLoc, ProcMacroKind};
pub use dm_base::module_tree::ModuleTree;
pub use dm_maps::build_fault::BuildFault;
pub use dm_maps::builder::WorldBuilder;
pub use dm_maps::def_map::DefMap;
pub use dm_maps::derive_helpers::DeriveHelper;
pub use dm_maps::fault::{Holder, WorldFault, WorldFaultKind};
pub use dm_maps::local_def_map::{ExternPrelude, LocalDefMap};
pub use dm_maps::modes::MacroSubNs;
pub use dm_maps::module_data::ModuleData;
pub use dm_maps::module_origin::ModuleOrigin;
pub use dm_maps::modules_iter::{InlineModules, Iter, ModulesForFile};
pub use dm_maps::modules_map::ModulesMap;
pub use dm_maps::rules::Rules;
pub use dm_maps::unstable_features::UnstableFeatures;
pub use dm_maps::world::World;
pub use dm_maps::world::maps_of::{
    AskWorld, block_def_map, crate_def_map, local_def_map, macro_styles_from_id,
};
pub use dm_scope::diagnostics;
