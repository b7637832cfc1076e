//! The scopes of a builder's modules, lent to be changed.
ghost use Rattle.std.specs.Prelude.{◌≡◌, IsTrue, Some};
ghost use Rattle.std.specs.Option.{option_copied_mut};
ghost use Rattle.std.specs.Borrow.{sem};
ghost use Rattle.dm_scope.specs.Scope.{Scope};
ghost use Rattle.dm_maps.specs.declared.check.held.HeldId.TheVariants as held;
ghost use Rattle.dm_maps.specs.Added.{IsScoped};
ghost use Rattle.dm_maps.specs.Known.{knows};
ghost use Rattle.dm_maps.specs.World.{scope_if_known, scope_of, with_scope};
ghost use Rattle.dm_maps.specs.LendingWorld.{LendsScope};

use crate::builder::WorldBuilder;
use dm_base::ids::ModuleId;
use dm_scope::item_scope::ItemScope;

impl WorldBuilder {
    /// The scope of a module, to be changed; none where the module is not the builder's.
    ///
    /// What is left there when the borrow ends is the module's scope, and nothing else changes. What the scope then
    /// holds may be no id of the builder's: `check` finds that.
    pub fn scope_mut(&mut self, m: ModuleId) -> Option<&mut ItemScope>
        ensures* writes_back { sem 𝓛 (LendsScope self.entry m result) }
        ensures value { option_copied_mut result ≡ scope_if_known self.old m }
    {
        let place = self.place_of(m)?;
        self.maps.scope_mut(place.map, place.index)
    }

    /// What holds of the scope of a module of the builder's. It does nothing: a caller whose proof needs it calls it,
    /// before `scope_mut`.
    pub fn scope_facts_of(&self, m: ModuleId)
        requires { IsTrue (knows self.now (held.Module m)) }

        // There is one, and with another in its place what was known is known, and each other scope stays.
        ensures there { scope_if_known self.now m ≡ Some (scope_of self.now m) }
        ensures written { (s : Scope) → IsScoped self.now (with_scope self.now m s) m s }
    {
        self.lawful();
    }
}
