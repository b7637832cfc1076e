//! The trait by which import chains and dumps read the scopes of all modules.
ghost use Rattle.std.specs.Prelude.{◌≡◌, unwrap_or, slice_get, option_copied};
ghost use Rattle.dm_scope.specs.Tables.{record_count, Tables, no_style};

use crate::item_scope::ItemScope;
use dm_base::ids::{ModuleId, UseId};
use dm_base::item_ids::MacroId;
use dm_base::macros::MacroCallStyles;
use dm_base::name::Name;
use dm_base::per_ns::Namespace;

/// Implemented by what owns the scopes of all modules. Modules are numbered from 0, without gaps.
pub trait ScopeTables {
    /// What the tables are, for contracts.
    ghost tables: { Self → Tables };

    /// The module that a `use` item stands in, if the tables have it.
    fn use_container(&self, use_: UseId) -> Option<ModuleId>
        ensures { result ≡ (tables self.now).container use_ };

    /// The scope of a module, if the tables have it.
    fn scope_of(&self, m: ModuleId) -> Option<&ItemScope>
        ensures { option_copied result ≡ slice_get (tables self.now).scopes m.0 };

    /// The ways in which a macro may be called: none for one that the tables lack.
    fn macro_styles(&self, id: MacroId) -> MacroCallStyles
        ensures { result ≡ unwrap_or ((tables self.now).styles id) no_style };

    /// Whether a name is written with `r#` before it.
    fn prints_raw(&self, name: &Name) -> bool
        ensures { result ≡ (tables self.now).prints_raw name.now };

    /// The number of records of a namespace in all scopes, or the greatest `usize` where it is more.
    fn records(&self, namespace: Namespace) -> usize
        ensures { result ≡ record_count namespace (tables self.now) };
}
