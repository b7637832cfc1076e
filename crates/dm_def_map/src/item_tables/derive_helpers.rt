//! Derive helpers: the helper attributes of derives, by the items that the derives stand on.
ghost use Rattle.std.specs.Prelude.{◌≡◌, ◌<◌, ◌++◌, ◌∷◌, [], length, OnOk, OnErr};
ghost use Rattle.dm_def_map.specs.HelperChanges.{helpers_with, helpers_with_at};

use crate::item_tables::keyed_tables::{place_of_helpers, put_helpers};
use dm_base::ids::{BuiltinDeriveImplId, MacroCallId};
use dm_base::item_ids::MacroId;
use dm_base::name::Name;
use dm_base::source::AstId;
use either::Either;
use indexmap::IndexMap;
use std::alloc::{AllocError, Global};
use std::marker::Model;

/// A helper attribute: its name, the derive's macro, and the macro call, or the `impl` that a builtin derive generates.
pub type DeriveHelper = (Name, MacroId, Either<MacroCallId, BuiltinDeriveImplId>);

/// The helper attributes on an item, in order.
pub struct DeriveHelpers {
    helpers: Vec<DeriveHelper>,
}

/// Hand-written `Drop`, to keep proofs small: dropping one is then a single call.
impl Drop for DeriveHelpers {
    fn drop(self) {
        let DeriveHelpers { helpers: _helpers } = self;
    }
}

impl Model for DeriveHelpers {
    ghost use Rattle.std.specs.Prelude.{List};
    ghost use Rattle.dm_def_map.specs.Helpers.{Helper};

    ghost Value = { List Helper };

    ghost view = { λ h. h.helpers.items };
}

impl DeriveHelpers {
    fn new(alloc: Global) -> DeriveHelpers
        ensures { result ≡ [] }
    {
        DeriveHelpers {
            helpers: Vec::new(alloc),
        }
    }

    /// Adds a helper, the last.
    fn push(&mut self, helper: DeriveHelper) -> Result<(), AllocError>
        ensures ok { OnOk result (self.new ≡ self.old ++ helper ∷ []) }
        ensures err { OnErr result (self.new ≡ self.old) }
    {
        self.helpers.push(helper)?;
        Ok(())
    }

    /// The helpers, in order.
    pub fn as_slice(&self) -> &[DeriveHelper]
        ensures { result.now ≡ self.now }
    {
        self.helpers.as_slice()
    }
}

/// Adds a helper to those on an item, the last.
pub fn add_helper(
    table: &mut IndexMap<AstId, DeriveHelpers>,
    ast: AstId,
    helper: DeriveHelper,
    alloc: Global,
) -> Result<(), AllocError>
    ensures ok { OnOk result (table.new.entries ≡ helpers_with table.old.entries ast helper) }
    ensures err { OnErr result (table.new.entries ≡ table.old.entries) }
{
    match place_of_helpers(table, ast) {
        None => {
            let mut helpers = DeriveHelpers::new(alloc);
            helpers.push(helper)?;
            put_helpers(table, ast, helpers)
        }
        Some(i) => add_helper_at(table, i, helper),
    }
}

/// Adds a helper to those of the item at index `i`, the last.
fn add_helper_at(
    table: &mut IndexMap<AstId, DeriveHelpers>,
    i: usize,
    helper: DeriveHelper,
) -> Result<(), AllocError>
    requires { i < length table.old.entries }
    ensures ok { OnOk result (table.new.entries ≡ helpers_with_at table.old.entries i helper) }
    ensures err { OnErr result (table.new.entries ≡ table.old.entries) }
{
    match table.get_index_mut(i) {
        Some(helpers) => helpers.push(helper),
        None => unreachable!(),
    }
}
