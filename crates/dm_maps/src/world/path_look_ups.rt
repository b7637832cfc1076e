//! What path resolution reads of a world beside its scopes. None of these calls takes memory.
ghost use Rattle.std.specs.Prelude.{◌≡◌, IsTrue, Some, slice_get};
ghost use Rattle.std.specs.Option.{ForSome};
ghost use Rattle.dm_base.specs.Names.{find_name};
ghost use Rattle.dm_base.specs.Tree.{IsKnown};
ghost use Rattle.dm_maps.specs.declared.check.held.HeldId.TheVariants as held;
ghost use Rattle.dm_maps.specs.Known.{knows};
ghost use Rattle.dm_maps.specs.Readings.{variants_of, root_of, block_root_of, is_2015_in, macro_loc_of, prelude_of, macro_uses_of};
ghost use Rattle.dm_maps.specs.Trees.{tree_of};
ghost use Rattle.dm_maps.specs.World.{scope_of};
ghost use Rattle.dm_scope.specs.Scope.{legacy_in};

use crate::world::World;
use dm_base::fields_shape::FieldsShape;
use dm_base::ids::{BlockId, Crate, EnumId, EnumVariantId, ExternCrateId, MapId, ModuleId};
use dm_base::item_ids::MacroId;
use dm_base::macros::MacroLoc;
use dm_base::name::Name;
use dm_base::source::Edition;

impl World {
    /// The root of a crate.
    pub fn root_of(&self, krate: Crate) -> Option<ModuleId>
        ensures value { result ≡ root_of self.now krate }
        ensures known { ForSome result (IsKnown (tree_of self.now)) }
    {
        self.tables.root_of(krate)
    }

    /// The root of a block's map.
    pub fn block_root_of(&self, block: BlockId) -> Option<ModuleId>
        ensures value { result ≡ block_root_of self.now block }
        ensures known { ForSome result (IsKnown (tree_of self.now)) }
    {
        self.tables.block_root_of(block)
    }

    /// Whether a crate is of edition 2015.
    pub fn is_2015(&self, krate: Crate) -> bool
        ensures { result ≡ is_2015_in self.now krate }
    {
        match self.tables.crate_map(krate) {
            None => false,
            Some(map) => matches!(map.edition(), Edition::Edition2015),
        }
    }

    /// The prelude module of a map.
    pub fn prelude_of(&self, id: MapId) -> Option<ModuleId>
        ensures value { result ≡ prelude_of self.now id }
        ensures known { ForSome result (IsKnown (tree_of self.now)) }
    {
        self.tables.prelude_of(id)
    }

    /// The macro of that name in the `macro_use` prelude of a map.
    pub fn macro_use_of(&self, id: MapId, name: &Name) -> Option<(MacroId, Option<ExternCrateId>)>
        ensures value { result ≡ find_name name.now (macro_uses_of self.now id) }
        ensures known { ForSome result (λ e. IsTrue (knows self.now (held.Macro e.0))) }
    {
        self.tables.macro_use_of(id, name)
    }

    /// The last legacy macro of a module under a name: in textual scope the last definition shadows those before it.
    pub fn legacy_of(&self, m: ModuleId, name: &Name) -> Option<MacroId>
        ensures value { result ≡ legacy_in (scope_of self.now m) name.now }
        ensures known { ForSome result (λ l. IsTrue (knows self.now (held.Macro l))) }
    {
        self.tables.legacy_of(m, name)
    }

    /// What a macro is: how it was written, and how it is expanded. None for one that is not the world's.
    pub fn macro_loc(&self, m: MacroId) -> Option<MacroLoc>
        ensures { result ≡ macro_loc_of self.now m }
    {
        self.tables.macro_loc(m)
    }

    /// The variant of an enum under a name, with its shape.
    pub fn variant_of(&self, e: EnumId, name: &Name) -> Option<(EnumVariantId, FieldsShape)>
        ensures value { result ≡ find_name name.now (variants_of self.now e) }

        // It is the world's, and that enum's.
        ensures known { ForSome result (λ v. IsTrue (knows self.now (held.Variant v.0))) }
        ensures own { ForSome result (λ v. slice_get self.now.variants v.0.0 ≡ Some e) }
    {
        self.tables.variant_of(e, name)
    }
}
