//! The fixed point over unresolved imports: rounds that resolve them again, all of them or the due (dirty) ones alone;
//! what each unresolved import is, one try of one, and the worklist of them.
#![tactic(auto)]

pub mod add_fault;
mod attempt;
mod doubles;
pub mod import_kind;
mod imports;
pub mod kinds;
mod listing;
pub mod meaning;
pub mod pending;
mod pendings;
mod ranks;
pub mod retry;
pub mod retry_fault;
pub mod round_kind;
mod rounds;
mod settle;
pub mod unnamed;
mod worklist;
mod writes;
