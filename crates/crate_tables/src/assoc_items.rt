//! Associated items: those of traits and of implementations.
pub mod containers;
pub mod filling;
mod items;
