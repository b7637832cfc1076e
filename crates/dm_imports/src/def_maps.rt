//! `DefMaps`: def maps, with what is imported in them.

use crate::declarations::Declarations;
use crate::glob_import::GlobImport;
use crate::marks::Marks;
use crate::named_import::NamedImport;
use dm_maps::world::World;
use std::marker::Model;

/// Def maps, with what is imported in them.
#[derive(Drop)]
pub struct DefMaps<'a> {
    pub world: &'a World,
    pub imports: &'a [NamedImport],
    pub globs: &'a [GlobImport],
    pub declarations: &'a Declarations,
    /// The slots that are ambiguous.
    pub ambiguous: Marks<'a>,
}

impl<'a> Model for DefMaps<'a> {
    ghost use Rattle.dm_imports.specs.Tables.{MapTables};

    ghost Value = { MapTables };

    ghost view = { λ d. record {
      world = d.world.now;
      imports = d.imports.now;
      globs = d.globs.now;
      declarations = d.declarations.now;
      ambiguous = d.ambiguous;
    } };
}
