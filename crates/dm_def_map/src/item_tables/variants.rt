//! The variants of an enum, by name.
ghost use Rattle.std.specs.Prelude.{◌≡◌, ◌<◌, ◌++◌, ◌∷◌, [], None, length, OnOk, OnErr, is_some};
ghost use Rattle.std.specs.Option.{option_copied};
ghost use Rattle.dm_base.specs.Names.{find_name};
ghost use Rattle.dm_def_map.specs.Variants.{variants_in, enums_with_variant, IsFreeAt, enums_with_variant_at};

use crate::growth::put_last;
use crate::texts::has_text;
use dm_base::fields_shape::FieldsShape;
use dm_base::ids::{EnumId, EnumVariantId};
use dm_base::name::Name;
use indexmap::IndexMap;
use indexmap::map::Slice;
use std::alloc::{AllocError, Global};
use std::marker::Model;

/// The variants of an enum, in order.
pub struct EnumVariants {
    variants: IndexMap<Name, (EnumVariantId, FieldsShape)>,
}

/// Hand-written `Drop`, to keep proofs small: dropping one is then a single call.
impl Drop for EnumVariants {
    fn drop(self) {
        let EnumVariants {
            variants: _variants,
        } = self;
    }
}

impl Model for EnumVariants {
    ghost use Rattle.std.specs.Prelude.{List};
    ghost use Rattle.dm_base.specs.Names.{Name};
    ghost use Rattle.dm_base.specs.declared.ids.EnumVariantId.{EnumVariantId};
    ghost use Rattle.dm_base.specs.declared.fields_shape.FieldsShape.{FieldsShape};

    ghost Value = { List (Name × (EnumVariantId × FieldsShape)) };

    ghost view = { λ v. v.variants.entries };
}

impl EnumVariants {
    /// No variants.
    pub(crate) fn new(alloc: Global) -> EnumVariants
        ensures { result ≡ [] }
    {
        EnumVariants {
            variants: IndexMap::new(alloc),
        }
    }

    /// Adds a variant, the last. None may have that name yet.
    pub(crate) fn push(
        &mut self,
        name: Name,
        variant: (EnumVariantId, FieldsShape),
    ) -> Result<(), AllocError>
        requires { find_name name self.old ≡ None }
        ensures ok { OnOk result (self.new ≡ self.old ++ (name, variant) ∷ []) }
        ensures err { OnErr result (self.new ≡ self.old) }
    {
        put_last(&mut self.variants, name, variant)?;
        Ok(())
    }

    /// The variant of that name, with its shape.
    pub fn get(&self, name: &Name) -> Option<(EnumVariantId, FieldsShape)>
        ensures { result ≡ find_name name.now self.now }
    {
        self.variants.get(name).copied()
    }

    /// Whether there is a variant of that name. It compares with each name: with a `Name` at hand, `get` looks it up.
    /// Does not allocate.
    pub fn contains(&self, text: &str) -> bool
        ensures { result ≡ is_some (find_name text.now self.now) }
    {
        has_text(self.variants.as_slice(), text)
    }

    /// The variants in order, each under its name. Does not allocate.
    pub fn entries(&self) -> Slice<'_, Name, (EnumVariantId, FieldsShape)>
        ensures { result ≡ self.now }
    {
        self.variants.as_slice()
    }
}

/// Adds a variant to an enum, which has none yet of that name.
pub fn add_to_enum(
    enums: &mut IndexMap<EnumId, EnumVariants>,
    e: EnumId,
    name: Name,
    variant: (EnumVariantId, FieldsShape),
    alloc: Global,
) -> Result<(), AllocError>
    requires { find_name name (variants_in enums.old.entries e) ≡ None }
    ensures ok { OnOk result (enums.new.entries ≡ enums_with_variant enums.old.entries e name variant) }
    ensures err { OnErr result (enums.new.entries ≡ enums.old.entries) }
{
    match enums.get_index_of(&e) {
        None => {
            let mut variants = EnumVariants::new(alloc);
            variants.push(name, variant)?;
            put_last(enums, e, variants)
        }
        Some(i) => add_to_nth(enums, i, name, variant),
    }
}

/// Adds a variant to the enum at index `i`, which has none yet of that name.
fn add_to_nth(
    enums: &mut IndexMap<EnumId, EnumVariants>,
    i: usize,
    name: Name,
    variant: (EnumVariantId, FieldsShape),
) -> Result<(), AllocError>
    requires within { i < length enums.old.entries }
    requires free { IsFreeAt enums.old.entries i name }
    ensures ok { OnOk result (enums.new.entries ≡ enums_with_variant_at enums.old.entries i name variant) }
    ensures err { OnErr result (enums.new.entries ≡ enums.old.entries) }
{
    match enums.get_index_mut(i) {
        Some(variants) => variants.push(name, variant),
        None => unreachable!(),
    }
}
