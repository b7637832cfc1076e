//! Giving memory back once a builder is filled.
ghost use Rattle.std.specs.Prelude.{◌≡◌};

use crate::builder::WorldBuilder;
use dm_base::ids::ModuleId;

impl WorldBuilder {
    /// Gives back memory that is not needed, where a smaller place can be had: of a builder that is filled, and will not
    /// grow much. The contents stay. It takes time in proportion to the modules and what their scopes hold.
    pub fn shrink_to_fit(&mut self)
        ensures { self.new ≡ self.old }
    {
        self.places.shrink_to_fit();
        self.items.shrink_to_fit();
        self.variants.shrink_to_fit();
        self.macros.shrink_to_fit();
        self.maps.shrink_to_fit();
        self.shrink_scopes();
    }

    fn shrink_scopes(&mut self)
        ensures { self.new ≡ self.old }
    {
        for m in 0..self.places.len() {
            if let Ok(number) = u32::try_from(m) {
                self.shrink_scope(ModuleId(number));
            }
        }
    }

    fn shrink_scope(&mut self, m: ModuleId)
        ensures { self.new ≡ self.old }
    {
        if let Some(scope) = self.scope_mut(m) {
            scope.shrink_to_fit();
        }
    }
}
