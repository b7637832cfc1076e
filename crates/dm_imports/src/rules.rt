//! What the rules give of def maps.

pub(crate) mod all_imports;
mod all_offers;
pub mod examine;
pub mod grounded;
mod join;
pub(crate) mod listing;
pub mod meanings;
pub(crate) mod offers;
mod order_dependent;
pub mod source_names;
pub mod supported;
mod unsupported;
pub(crate) mod visibilities;
