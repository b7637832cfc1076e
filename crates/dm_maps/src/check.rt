//! The check for dangling ids, which makes a checked world of a builder's tables: which ids they hold, and the first
//! one that dangles.
ghost use Rattle.std.specs.Prelude.{◌≡◌, ◌↔◌, IsOk, IfOk, IfErr};
ghost use Rattle.dm_maps.specs.First.{holders, IsChecked, IsFirstFault};

mod builder_ids;
pub mod fault;
mod first_fault;
pub mod held;
pub mod kinds;
pub mod known_ids;
pub mod note_diagnostics;
pub(crate) mod note_maps;
pub mod note_preludes;
pub mod note_pushes;
mod note_records;
pub mod note_scopes;
pub mod note_tables;
pub mod notes;

use crate::builder::WorldBuilder;
use crate::check::fault::WorldFault;
use crate::world::World;

impl WorldBuilder {
    /// The world of the builder's tables, if each id that they hold is one of their own, with its kind.
    ///
    /// Else the first holder with a fault, in the order of crates' maps, blocks' maps, modules and tables, each by
    /// number: there the least kind of fault, and of it the least id; with the builder as it was. Takes no memory.
    pub fn check(self) -> Result<World, (WorldBuilder, WorldFault)>
        ensures ok { IsOk result ↔ IsChecked self }
        ensures same { IfOk result (λ world. world ≡ self) }
        ensures builder { IfErr result (λ refused. refused.0 ≡ self) }
        ensures fault { IfErr result (λ refused. IsFirstFault self (holders self) refused.1) }
    {
        match self.first_fault() {
            None => Ok(World::of_checked(self)),
            Some(fault) => Err((self, fault)),
        }
    }
}

impl World {
    /// The tables of the world, to be built on: a check of them as they are finds no fault. Takes no memory.
    pub fn into_builder(self) -> WorldBuilder
        ensures value { result ≡ self }
        ensures checked { IsChecked result }
    {
        self.into_tables()
    }
}
