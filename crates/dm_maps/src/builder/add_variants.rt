//! Variants of enums, added to a builder.
ghost use Rattle.std.specs.Prelude.{◌≡◌, ◌<◌, ◌∷◌, [], None, IfOk, OnOk, OnErr, length};
ghost use Rattle.dm_base.specs.Names.{find_name};
ghost use Rattle.dm_maps.specs.declared.check.held.HeldId.TheVariants as held;
ghost use Rattle.dm_maps.specs.Added.{AreAdded};
ghost use Rattle.dm_maps.specs.BuildItems.{with_variant, next_variant};
ghost use Rattle.dm_maps.specs.Faults.{Answers, first_fault, none_found, is_full};
ghost use Rattle.dm_maps.specs.ItemFaults.{variant_fault, lacks_enum};
ghost use Rattle.dm_maps.specs.Lists.{IsEnum};
ghost use Rattle.dm_maps.specs.Readings.{variants_of};

use crate::build_fault::BuildFault;
use crate::builder::WorldBuilder;
use crate::builder::add_modules::LAST_NUMBER;
use crate::check::held::HeldId;
use crate::check::known_ids::KnownIds;
use dm_base::fields_shape::FieldsShape;
use dm_base::ids::{EnumId, EnumVariantId};
use dm_base::item_ids::ItemKind;
use dm_base::name::Name;
use dm_def_map::item_tables::variants::add_to_enum;
use std::alloc::AllocError;

impl WorldBuilder {
    /// Adds a variant of that name and shape to an enum, and answers its number. Variants of all enums are numbered
    /// together.
    ///
    /// Errors, tested in this order: `NoSuchEnum` of what is no enum of the builder's, `TakenVariant` where the enum
    /// has a variant of that name, `OutOfNumbers` where there are 4,294,967,295 variants, and `OutOfMemory`; the
    /// builder is then as it was.
    pub fn add_variant(
        &mut self,
        e: EnumId,
        name: Name,
        shape: FieldsShape,
    ) -> Result<EnumVariantId, BuildFault>
        ensures ok { OnOk result (self.new ≡ with_variant self.old e name shape) }
        ensures number { IfOk result (λ id. id ≡ next_variant self.old) }
        ensures fault { Answers (variant_fault self.old e name) result }
        ensures err { OnErr result (self.new ≡ self.old) }
        ensures added { IfOk result (λ id. AreAdded self.old self.new (held.Variant id ∷ [])) }
    {
        match self.named_variant_fault(e, &name) {
            Some(fault) => Err(fault),
            None => {
                let id = self.next_variant();
                self.push_variant(e, name, id, shape)?;
                Ok(id)
            }
        }
    }

    /// The error that adding a variant of the name of that text gives, if there is one, allocation failure aside. Takes
    /// no memory.
    ///
    /// It is for callers that could not allocate the name: the text is compared with the name of each variant of the
    /// enum.
    #[tactic(auto, unfolding(crate::specs::ItemFaults::variant_fault))]
    pub fn variant_fault(&self, e: EnumId, text: &str) -> Option<BuildFault>
        ensures { result ≡ variant_fault self.now e text.now }
    {
        let is_taken = match self.enums.get(&e) {
            None => false,
            Some(variants) => variants.contains(text),
        };
        self.fault_of_variant(e, is_taken)
    }

    /// The same, where the name is at hand and is looked up.
    #[tactic(auto, unfolding(crate::specs::ItemFaults::variant_fault))]
    fn named_variant_fault(&self, e: EnumId, name: &Name) -> Option<BuildFault>
        ensures { result ≡ variant_fault self.now e name.now }
    {
        let is_taken = self.variant_of(e, name).is_some();
        self.fault_of_variant(e, is_taken)
    }

    /// The first fault of a new variant, where it is known whether the enum has one of its name.
    fn fault_of_variant(&self, e: EnumId, is_taken: bool) -> Option<BuildFault>
        ensures { result
            ≡ first_fault
            (record none_found {
              no_enum = lacks_enum self.now e;
              taken_variant = is_taken;
              full = is_full self.now.variants;
            }) }
    {
        if !self.knows(HeldId::Item(ItemKind::Enum, e.0)) {
            return Some(BuildFault::NoSuchEnum);
        }
        if is_taken {
            return Some(BuildFault::TakenVariant);
        }
        if !(self.variants.len() < LAST_NUMBER) {
            return Some(BuildFault::OutOfNumbers);
        }
        None
    }

    /// The number of the next variant.
    fn next_variant(&self) -> EnumVariantId
        requires { length self.now.variants < 4294967295 }
        ensures { result ≡ next_variant self.now }
    {
        EnumVariantId(self.variants.len() as u32)
    }

    fn push_variant(
        &mut self,
        e: EnumId,
        name: Name,
        id: EnumVariantId,
        shape: FieldsShape,
    ) -> Result<(), AllocError>
        requires known { IsEnum self.old.items e }
        requires number { id ≡ next_variant self.old }
        requires free { find_name name (variants_of self.old e) ≡ None }
        ensures ok { OnOk result (self.new ≡ with_variant self.old e name shape) }
        ensures err { OnErr result (self.new ≡ self.old) }
    {
        self.variants.push(e)?;
        match add_to_enum(&mut self.enums, e, name, (id, shape), self.alloc) {
            Ok(()) => Ok(()),
            Err(refused) => {
                self.variants.pop();
                Err(refused)
            }
        }
    }
}
