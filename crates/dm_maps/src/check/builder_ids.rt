//! Which ids a world has, also while it is built.
ghost use Rattle.std.specs.Prelude.{◌≡◌};
ghost use Rattle.dm_maps.specs.declared.check.held.HeldId.TheVariants as held;
ghost use Rattle.dm_maps.specs.Known.{knows};

use crate::builder::WorldBuilder;
use crate::check::held::HeldId;
use crate::check::kinds::{is_of_kind, macro_number};
use crate::check::known_ids::KnownIds;
use dm_base::item_ids::{ItemKind, MacroId};

impl KnownIds for WorldBuilder {
    ghost use Rattle.dm_maps.specs.Known.{knows};

    ghost known = { knows };

    fn knows(&self, held: HeldId) -> bool {
        match held {
            HeldId::Module(m) => self.has(m),
            HeldId::Crate(krate) => (krate.0 as usize) < self.maps.crates().len(),
            HeldId::Use(u) => (u.0 as usize) < self.uses.len(),
            HeldId::Item(kind, n) => self.knows_item(kind, n),
            HeldId::Variant(v) => (v.0 as usize) < self.variants.len(),
            HeldId::Macro(m) => self.knows_macro(m),
        }
    }
}

impl WorldBuilder {
    fn knows_item(&self, kind: ItemKind, n: u32) -> bool
        ensures { result ≡ knows self.now (held.Item kind n) }
    {
        match self.items.get(n as usize) {
            None => false,
            Some(item) => kind == item.0,
        }
    }

    fn knows_macro(&self, m: MacroId) -> bool
        ensures { result ≡ knows self.now (held.Macro m) }
    {
        match self.macros.get(macro_number(m) as usize) {
            None => false,
            Some(entry) => is_of_kind(m, entry.1),
        }
    }
}
