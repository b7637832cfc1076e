//! Setters for the def maps of a builder, and for its extern preludes.
ghost use Rattle.std.specs.Prelude.{◌≡◌, ◌<◌, false, IsOk, OnOk, OnErr, length};
ghost use Rattle.dm_maps.specs.BuildMaps.{AnswersFree, with_map, with_prelude, with_macro_use, with_macro_def, with_helper, locals_with, with_extern_of, lacks_map, map_fault, crate_fault};
ghost use Rattle.dm_maps.specs.Faults.{Answers};
ghost use Rattle.dm_def_map.specs.Locals.{with_extern};
ghost use Rattle.dm_def_map.specs.MapChanges.{changed, grows};

use crate::build_fault::BuildFault;
use crate::builder::WorldBuilder;
use crate::check::held::HeldId;
use crate::check::known_ids::KnownIds;
use dm_base::ids::{
    BuiltinDeriveImplId, Crate, ExternCrateId, MacroCallId, MapId, ModuleId, UseId,
};
use dm_base::item_ids::MacroId;
use dm_base::name::Name;
use dm_base::source::AstId;
use dm_def_map::map_change::MapChange;
use dm_def_map::modules::local_def_map::LocalDefMap;
use either::Either;
use std::alloc::AllocError;

impl WorldBuilder {
    /// Sets the prelude module of a map, with the use that named it, or none. Takes no memory.
    ///
    /// The only error is `NoSuchCrate`, of a map that is not the builder's, which is then as it was. The module and the
    /// use may not be the builder's: `check` finds that.
    pub fn set_prelude(
        &mut self,
        map: MapId,
        prelude: Option<(ModuleId, Option<UseId>)>,
    ) -> Result<(), BuildFault>
        ensures ok { OnOk result (self.new ≡ with_prelude self.old map prelude) }
        ensures fault { AnswersFree (map_fault self.old map) result }
        ensures err { OnErr result (self.new ≡ self.old) }
    {
        if self.lacks_map(map) {
            return Err(BuildFault::NoSuchCrate);
        }
        self.change_map(map, MapChange::Prelude(prelude))?;
        Ok(())
    }

    /// Adds a macro to the `macro_use` prelude of a map (what `#[macro_use] extern crate` brings), with the item that
    /// brought it. A name that is there takes the new macro.
    ///
    /// Errors, tested in this order: `NoSuchCrate` of a map that is not the builder's, and `OutOfMemory`; the builder
    /// is then as it was. The macro may not be the builder's: `check` finds that.
    pub fn add_macro_use(
        &mut self,
        map: MapId,
        name: Name,
        m: MacroId,
        brought_by: Option<ExternCrateId>,
    ) -> Result<(), BuildFault>
        ensures ok { OnOk result (self.new ≡ with_macro_use self.old map name m brought_by) }
        ensures fault { Answers (map_fault self.old map) result }
        ensures err { OnErr result (self.new ≡ self.old) }
    {
        if self.lacks_map(map) {
            return Err(BuildFault::NoSuchCrate);
        }
        self.change_map(map, MapChange::MacroUse(name, (m, brought_by)))?;
        Ok(())
    }

    /// Sets the macro that an AST item defines, in a map. What is there is replaced.
    ///
    /// Errors, tested in this order: `NoSuchCrate` of a map that is not the builder's, and `OutOfMemory`; the builder
    /// is then as it was. The macro may not be the builder's: `check` finds that.
    pub fn add_macro_def(&mut self, map: MapId, ast: AstId, m: MacroId) -> Result<(), BuildFault>
        ensures ok { OnOk result (self.new ≡ with_macro_def self.old map ast m) }
        ensures fault { Answers (map_fault self.old map) result }
        ensures err { OnErr result (self.new ≡ self.old) }
    {
        if self.lacks_map(map) {
            return Err(BuildFault::NoSuchCrate);
        }
        self.change_map(map, MapChange::MacroDef(ast, m))?;
        Ok(())
    }

    /// Adds a helper attribute of a derive at an AST item, in a map, the last of that item: its name, the macro of
    /// the derive, and the call of the derive, or what a builtin derive writes.
    ///
    /// Errors, tested in this order: `NoSuchCrate` of a map that is not the builder's, and `OutOfMemory`; the builder
    /// is then as it was. The macro may not be the builder's: `check` finds that.
    pub fn add_derive_helper(
        &mut self,
        map: MapId,
        ast: AstId,
        name: Name,
        m: MacroId,
        call: Either<MacroCallId, BuiltinDeriveImplId>,
    ) -> Result<(), BuildFault>
        ensures ok { OnOk result (self.new ≡ with_helper self.old map ast (name, m, call)) }
        ensures fault { Answers (map_fault self.old map) result }
        ensures err { OnErr result (self.new ≡ self.old) }
    {
        if self.lacks_map(map) {
            return Err(BuildFault::NoSuchCrate);
        }
        self.change_map(map, MapChange::Helper(ast, (name, m, call)))?;
        Ok(())
    }

    /// Adds a module to the extern prelude of a crate, with the item that named it. A name that is there takes the new
    /// module.
    ///
    /// Errors, tested in this order: `NoSuchCrate` of a crate that is not the builder's, and `OutOfMemory`; the builder
    /// is then as it was. The module may not be the builder's: `check` finds that.
    pub fn add_extern(
        &mut self,
        krate: Crate,
        name: Name,
        m: ModuleId,
        named_by: Option<ExternCrateId>,
    ) -> Result<(), BuildFault>
        ensures ok { OnOk result (self.new ≡ with_extern_of self.old krate name m named_by) }
        ensures fault { Answers (crate_fault self.old krate) result }
        ensures err { OnErr result (self.new ≡ self.old) }
    {
        if !self.knows(HeldId::Crate(krate)) {
            return Err(BuildFault::NoSuchCrate);
        }
        put_extern_at(&mut self.local_maps, krate.0 as usize, name, m, named_by)?;
        Ok(())
    }

    /// Whether there is no map of that number, or it is another crate's.
    pub fn lacks_map(&self, id: MapId) -> bool
        ensures { result ≡ lacks_map self.now id }
    {
        match self.numbered_map(id) {
            None => true,
            Some(map) => map.krate() != id.krate,
        }
    }

    /// Makes a change in the map of that id, which has to be there.
    pub(crate) fn change_map(&mut self, id: MapId, change: MapChange) -> Result<(), AllocError>
        requires { lacks_map self.old id ≡ false }
        ensures ok { OnOk result (self.new ≡ with_map self.old id (changed change)) }
        ensures err { OnErr result (self.new ≡ self.old) }
        ensures free { grows change ≡ false → IsOk result }
    {
        self.maps.change(id, change, self.alloc)?;
        Ok(())
    }
}

/// Adds a module to the extern prelude of number `k`, which has to be there.
fn put_extern_at(
    locals: &mut Vec<LocalDefMap>,
    k: usize,
    name: Name,
    m: ModuleId,
    named_by: Option<ExternCrateId>,
) -> Result<(), AllocError>
    requires { k < length locals.old.items }
    ensures ok { OnOk result
        (locals.new.items ≡ locals_with locals.old.items k (λ L. with_extern L name m named_by)) }
    ensures err { OnErr result (locals.new.items ≡ locals.old.items) }
{
    match locals.get_mut(k) {
        None => unreachable!(),
        Some(local) => local.insert(name, m, named_by),
    }
}
