//! Calls of `dm_base`, and the callers of these.
mod generic;
mod refused;
