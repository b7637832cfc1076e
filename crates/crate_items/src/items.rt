//! The items that the modules of a crate have: names, visibilities, shapes, variants and imports.
pub mod constructor;
pub mod crate_attributes;
pub mod declared_field;
pub mod declared_import;
pub mod declared_item;
pub mod declared_variant;
mod file_items;
pub mod item_attributes;
pub mod item_rows;
pub(crate) mod lexeme_names;
pub(crate) mod lookups;
pub mod module_items;
pub mod raw_visibilities;
pub(crate) mod shapes;
pub(crate) mod use_paths;
