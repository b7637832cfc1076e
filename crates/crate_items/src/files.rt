//! Crates and their files: the graph of crates and its order, the texts of files, lines and columns.
pub mod crate_data;
pub mod crate_graph;
pub mod crate_laws;
pub mod crate_order;
pub mod dependency;
pub mod file_table;
pub(crate) mod found;
pub mod line_index;
pub mod line_rows;
mod order_search;
pub(crate) mod paths;
pub mod source;
pub mod sources;
