//! The vocabulary of the def-map layer: ids, names, paths, builtin types, imports, items per namespace, visibility,
//! and trees of modules.
#![tactic(auto)]

pub mod builtin_type;
pub mod definition;
pub mod edition;
pub mod fields_shape;
pub mod ids;
pub mod import_source;
pub mod imports;
pub mod item_ids;
pub mod item_in_ns;
pub mod items;
pub mod macros;
pub mod mod_path;
pub mod module_tree;
pub mod name;
pub mod name_hasher;
pub mod overlay;
pub mod per_ns;
pub mod source;
pub mod symbol;
mod text;
pub mod value_eq;
pub mod visibility;
