//! Folds over the ids that a holder has, which find the least dangling one: an id that is not the world's.
ghost use Rattle.std.specs.Prelude.{◌≡◌};
ghost use Rattle.std.specs.List.{fold};
ghost use Rattle.dm_base.specs.declared.item_ids.ModuleDefId.TheVariants as def;
ghost use Rattle.dm_maps.specs.declared.check.held.HeldId.TheVariants as held;
ghost use Rattle.dm_maps.specs.Held.{fault_at, rank, comes_before, lesser, noted, IsJoined, IsLeastFault};
ghost use Rattle.dm_maps.specs.Holding.{def_holds, vis_holds, import_holds, value_import_holds};

use crate::check::fault::WorldFaultKind;
use crate::check::held::{HeldFault, HeldId};
use crate::check::kinds::macro_number;
use crate::check::known_ids::KnownIds;
use dm_base::imports::{ImportOrExternCrate, ImportOrGlob};
use dm_base::item_ids::{AdtId, ItemKind, ModuleDefId};
use dm_base::visibility::Visibility;

fn fault_at(held: HeldId) -> HeldFault
    ensures { result ≡ fault_at held }
{
    let (kind, id) = match held {
        HeldId::Module(m) => (WorldFaultKind::UnknownModule, m.0),
        HeldId::Crate(krate) => (WorldFaultKind::UnknownCrate, krate.0),
        HeldId::Use(u) => (WorldFaultKind::UnknownUse, u.0),
        HeldId::Item(_, n) => (WorldFaultKind::UnknownItem, n),
        HeldId::Variant(v) => (WorldFaultKind::UnknownItem, v.0),
        HeldId::Macro(m) => (WorldFaultKind::UnknownMacro, macro_number(m)),
    };
    HeldFault { kind, id }
}

fn rank(kind: WorldFaultKind) -> u32
    ensures { result ≡ rank kind }
{
    match kind {
        WorldFaultKind::UnknownModule => 1,
        WorldFaultKind::UnknownCrate => 2,
        WorldFaultKind::UnknownUse => 3,
        WorldFaultKind::UnknownItem => 4,
        WorldFaultKind::UnknownMacro => 5,
    }
}

fn comes_before(a: HeldFault, b: HeldFault) -> bool
    ensures { result ≡ comes_before a b }
{
    let (x, y) = (rank(a.kind), rank(b.kind));
    x < y || x == y && a.id < b.id
}

/// The lesser of two faults: of the least faults of two lists of ids, the one of both lists.
pub fn lesser(one: Option<HeldFault>, other: Option<HeldFault>) -> Option<HeldFault>
    ensures value { result ≡ lesser one other }
    ensures joined { IsJoined one other result }
{
    match (one, other) {
        (None, _) => other,
        (Some(_), None) => one,
        (Some(found), Some(next)) => if comes_before(next, found) {
            other
        } else {
            one
        },
    }
}

/// One step of the folds: the least fault so far, with one more id looked at.
pub(crate) fn note<T: KnownIds>(
    world: &T,
    least: Option<HeldFault>,
    held: HeldId,
) -> Option<HeldFault>
    ensures { result ≡ noted (T.known world.now) least held }
{
    if world.knows(held) {
        return least;
    }
    lesser(least, Some(fault_at(held)))
}

/// Folds in the ids that a visibility holds.
pub(crate) fn note_vis<T: KnownIds>(
    world: &T,
    least: Option<HeldFault>,
    vis: Visibility,
) -> Option<HeldFault>
    ensures { result ≡ fold (noted (T.known world.now)) least (vis_holds vis) }
{
    match vis {
        Visibility::Module(m, _) => note(world, least, HeldId::Module(m)),
        Visibility::PubCrate(krate) => note(world, least, HeldId::Crate(krate)),
        Visibility::Public => least,
    }
}

/// The fault of a visibility whose module or crate is not the world's.
pub fn vis_fault<T: KnownIds>(world: &T, vis: Visibility) -> Option<HeldFault>
    ensures { IsLeastFault (T.known world.now) (vis_holds vis) result }
{
    note_vis(world, None, vis)
}

/// The fault of a definition that is not the world's, or of another kind there; builtin types are everyone's.
pub fn def_fault<T: KnownIds>(world: &T, def: ModuleDefId) -> Option<HeldFault>
    ensures { IsLeastFault (T.known world.now) (def_holds def) result }
{
    note_def(world, None, def)
}

/// Folds in the ids that a definition holds: itself, but for a builtin type.
pub(crate) fn note_def<T: KnownIds>(
    world: &T,
    least: Option<HeldFault>,
    def: ModuleDefId,
) -> Option<HeldFault>
    ensures { result ≡ fold (noted (T.known world.now)) least (def_holds def) }
{
    match def {
        ModuleDefId::ModuleId(m) => note(world, least, HeldId::Module(m)),
        ModuleDefId::FunctionId(n) => note(world, least, HeldId::Item(ItemKind::Function, n.0)),
        ModuleDefId::AdtId(adt) => note_adt(world, least, adt),
        ModuleDefId::EnumVariantId(v) => note(world, least, HeldId::Variant(v)),
        ModuleDefId::ConstId(n) => note(world, least, HeldId::Item(ItemKind::Const, n.0)),
        ModuleDefId::StaticId(n) => note(world, least, HeldId::Item(ItemKind::Static, n.0)),
        ModuleDefId::TraitId(n) => note(world, least, HeldId::Item(ItemKind::Trait, n.0)),
        ModuleDefId::TypeAliasId(n) => note(world, least, HeldId::Item(ItemKind::TypeAlias, n.0)),
        ModuleDefId::BuiltinType(_) => least,
        ModuleDefId::MacroId(m) => note(world, least, HeldId::Macro(m)),
    }
}

fn note_adt<T: KnownIds>(world: &T, least: Option<HeldFault>, adt: AdtId) -> Option<HeldFault>
    ensures { result ≡ fold (noted (T.known world.now)) least (def_holds (def.AdtId adt)) }
{
    match adt {
        AdtId::StructId(n) => note(world, least, HeldId::Item(ItemKind::Struct, n.0)),
        AdtId::UnionId(n) => note(world, least, HeldId::Item(ItemKind::Union, n.0)),
        AdtId::EnumId(n) => note(world, least, HeldId::Item(ItemKind::Enum, n.0)),
    }
}

/// Folds in the use of an import; an extern crate has none.
pub(crate) fn note_import<T: KnownIds>(
    world: &T,
    least: Option<HeldFault>,
    import: ImportOrExternCrate,
) -> Option<HeldFault>
    ensures { result ≡ fold (noted (T.known world.now)) least (import_holds import) }
{
    match import {
        ImportOrExternCrate::Glob(id) => note(world, least, HeldId::Use(id.use_)),
        ImportOrExternCrate::Import(id) => note(world, least, HeldId::Use(id.use_)),
        ImportOrExternCrate::ExternCrate(_) => least,
    }
}

/// Folds in the use of an import that can bring a value.
pub(crate) fn note_value_import<T: KnownIds>(
    world: &T,
    least: Option<HeldFault>,
    import: ImportOrGlob,
) -> Option<HeldFault>
    ensures { result ≡ fold (noted (T.known world.now)) least (value_import_holds import) }
{
    match import {
        ImportOrGlob::Glob(id) => note(world, least, HeldId::Use(id.use_)),
        ImportOrGlob::Import(id) => note(world, least, HeldId::Use(id.use_)),
    }
}
