//! `Asking`: who asks for what a path means.

use crate::joined::Joined;
use crate::slots::Slots;
use dm_base::ids::ModuleId;
use dm_base::imports::ImportId;
use std::marker::Model;

/// The module in which a path stands, and where it is that of an import also which one, and what globs bring to slots.
#[derive(Drop)]
pub struct Asking<'a> {
    pub home: ModuleId,
    pub import: Option<ImportId>,
    pub below: Option<&'a Slots<Joined>>,
    /// The slots where what globs bring leads on; all where there is no table.
    pub offered: Option<&'a Slots<Joined>>,
}

impl<'a> Model for Asking<'a> {
    ghost use Rattle.std.specs.Option.{option_copied};
    ghost use Rattle.dm_imports.specs.Tables.{Asked};

    ghost Value = { Asked };

    ghost view = { λ a. record { home = a.home; import = a.import; below = option_copied a.below; offered = option_copied a.offered } };
}
