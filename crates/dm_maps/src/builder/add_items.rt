//! Items, added to a builder.
ghost use Rattle.std.specs.Prelude.{◌≡◌, IfOk, OnOk, OnErr, length};
ghost use Rattle.dm_maps.specs.Holding.{def_holds};
ghost use Rattle.dm_maps.specs.Added.{AreAdded};
ghost use Rattle.dm_maps.specs.Build.{with_item, item_def};
ghost use Rattle.dm_maps.specs.Faults.{Answers, item_fault, is_full};

use crate::build_fault::BuildFault;
use crate::builder::WorldBuilder;
use crate::builder::add_modules::LAST_NUMBER;
use crate::builder::growth::add_last;
use dm_base::ids::{
    ConstId, EnumId, FunctionId, ModuleId, StaticId, StructId, TraitId, TypeAliasId, UnionId,
};
use dm_base::item_ids::{AdtId, ItemKind, ModuleDefId};

impl WorldBuilder {
    /// Adds an item of that kind in a module, and answers it. Items of all kinds are numbered together.
    ///
    /// Errors, tested in this order: `NoSuchModule` of a module that is not the builder's, `OutOfNumbers` where there
    /// are 4,294,967,295 items, and `OutOfMemory`; the builder is then as it was.
    pub fn add_item(&mut self, kind: ItemKind, m: ModuleId) -> Result<ModuleDefId, BuildFault>
        ensures ok { OnOk result (self.new ≡ with_item self.old kind m) }
        ensures number { IfOk result (λ def. def ≡ item_def kind (length self.old.items)) }
        ensures fault { Answers (item_fault self.old m) result }
        ensures err { OnErr result (self.new ≡ self.old) }
        ensures added { IfOk result (λ def. AreAdded self.old self.new (def_holds def)) }
    {
        if !self.has(m) {
            return Err(BuildFault::NoSuchModule);
        }
        if !(self.items.len() < LAST_NUMBER) {
            return Err(BuildFault::OutOfNumbers);
        }
        let def = item_def(kind, self.items.len() as u32);
        add_last(&mut self.items, (kind, m))?;
        Ok(def)
    }
}

/// The definition that an item of that kind and number is.
fn item_def(kind: ItemKind, n: u32) -> ModuleDefId
    ensures { result ≡ item_def kind n }
{
    match kind {
        ItemKind::Function => ModuleDefId::FunctionId(FunctionId(n)),
        ItemKind::Struct => ModuleDefId::AdtId(AdtId::StructId(StructId(n))),
        ItemKind::Union => ModuleDefId::AdtId(AdtId::UnionId(UnionId(n))),
        ItemKind::Enum => ModuleDefId::AdtId(AdtId::EnumId(EnumId(n))),
        ItemKind::Const => ModuleDefId::ConstId(ConstId(n)),
        ItemKind::Static => ModuleDefId::StaticId(StaticId(n)),
        ItemKind::Trait => ModuleDefId::TraitId(TraitId(n)),
        ItemKind::TypeAlias => ModuleDefId::TypeAliasId(TypeAliasId(n)),
    }
}
