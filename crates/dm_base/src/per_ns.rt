//! `PerNs`: what a name resolves to, at most one item in each namespace.
ghost use Rattle.std.specs.Prelude.{◌≡◌, ⊤, [], ◌∷◌, codes, true, false};
ghost use Rattle.std.specs.Map.Iter.{ShowsInOrder};
ghost use Rattle.dm_base.specs.PerNs.{nothing, over, Listed, items_of, is_reresolved, type_alone, value_alone, macro_alone, type_and_value, of_def, is_empty, is_full, definition, seen_as, availability, AsksItem, AsksInOrder, MayAskItem, MayAskInOrder};

use crate::imports::{ImportId, ImportOrExternCrate, ImportOrGlob};
use crate::item_ids::{AdtId, MacroId, ModuleDefId};
use crate::items::IterItems;
use crate::visibility::Visibility;
use bitflags::{Flag, Flags};

/// The namespaces. A name means at most one item in each.
#[derive(Clone, Copy, PartialEq, Eq, Hash, Debug)]
pub enum Namespace {
    Types,
    Values,
    Macros,
}

/// In which namespaces there is an item, as bit flags.
#[derive(Clone, Copy, PartialEq, Eq, Debug)]
pub struct NsAvailability(pub u32);

impl NsAvailability {
    /// There is a type.
    pub const TYPES: NsAvailability = NsAvailability(1);

    /// There is a value.
    pub const VALUES: NsAvailability = NsAvailability(2);

    /// There is a macro.
    pub const MACROS: NsAvailability = NsAvailability(4);

    const FLAGS: &'static [Flag<NsAvailability>] = &[
        Flag {
            name: "TYPES",
            value: NsAvailability::TYPES,
        },
        Flag {
            name: "VALUES",
            value: NsAvailability::VALUES,
        },
        Flag {
            name: "MACROS",
            value: NsAvailability::MACROS,
        },
    ];
}

impl Flags for NsAvailability {
    type Bits = u32;

    ghost exact = { ⊤ };

    ghost table = { (codes "TYPES", 1) ∷ (codes "VALUES", 2) ∷ (codes "MACROS", 4) ∷ [] };

    ghost set_of = { λ availability. availability.0 };

    fn flags<'a>() -> &'a [Flag<NsAvailability>] {
        NsAvailability::FLAGS
    }

    fn bits(&self) -> u32 {
        self.0
    }

    fn from_bits_retain(bits: u32) -> NsAvailability {
        NsAvailability(bits)
    }
}

/// A definition, its visibility, and the import that brought it.
#[derive(Clone, Copy, PartialEq, Eq, Hash, Debug)]
pub struct Item<Def, Import = ImportId> {
    pub def: Def,
    pub vis: Visibility,
    pub import: Option<Import>,
}

impl<Def: PartialEq, Import: Copy + PartialEq> Item<Def, Import> {
    /// Whether `import` is the import that brought this item, and resolves to another definition than the item's.
    pub fn is_reresolved_by(&self, def: &Def, import: Option<Import>) -> bool
        ensures { result ≡ is_reresolved Import.eq Def.eq self.now def.now import }
    {
        import.is_some() && self.import == import && self.def != *def
    }
}

/// A type. An `extern crate` may have brought it.
pub type TypesItem = Item<ModuleDefId, ImportOrExternCrate>;

/// A value, which no `extern crate` brings.
pub type ValuesItem = Item<ModuleDefId, ImportOrGlob>;

/// A macro. An `extern crate` may have brought it.
pub type MacrosItem = Item<MacroId, ImportOrExternCrate>;

/// What a name resolves to in each namespace.
#[derive(Clone, Copy, PartialEq, Eq, Hash, Debug)]
pub struct PerNs {
    pub types: Option<TypesItem>,
    pub values: Option<ValuesItem>,
    pub macros: Option<MacrosItem>,
}

impl PerNs {
    /// Nothing in any namespace.
    pub fn none() -> PerNs
        ensures { result ≡ nothing }
    {
        PerNs {
            types: None,
            values: None,
            macros: None,
        }
    }

    /// A value alone.
    pub fn values(def: ModuleDefId, vis: Visibility, import: Option<ImportOrGlob>) -> PerNs
        ensures { result ≡ value_alone def vis import }
    {
        PerNs {
            values: Some(Item { def, vis, import }),
            ..PerNs::none()
        }
    }

    /// A type alone.
    pub fn types(def: ModuleDefId, vis: Visibility, import: Option<ImportOrExternCrate>) -> PerNs
        ensures { result ≡ type_alone def vis import }
    {
        PerNs {
            types: Some(Item { def, vis, import }),
            ..PerNs::none()
        }
    }

    /// A type and a value of one visibility. An `extern crate` brings the type alone: the value then has no import.
    pub fn both(
        types: ModuleDefId,
        values: ModuleDefId,
        vis: Visibility,
        import: Option<ImportOrExternCrate>,
    ) -> PerNs
        ensures { result ≡ type_and_value types vis values vis import }
    {
        PerNs {
            values: Some(Item {
                def: values,
                vis,
                import: import.and_then(ImportOrExternCrate::import_or_glob),
            }),
            ..PerNs::types(types, vis, import)
        }
    }

    /// A macro alone.
    pub fn macros(def: MacroId, vis: Visibility, import: Option<ImportOrExternCrate>) -> PerNs
        ensures { result ≡ macro_alone def vis import }
    {
        PerNs {
            macros: Some(Item { def, vis, import }),
            ..PerNs::none()
        }
    }

    /// The items of a definition: one in its namespace; a struct or a variant whose constructor has a visibility
    /// is a type and a value.
    pub fn from_def(
        def: ModuleDefId,
        vis: Visibility,
        value_ns_ctor_vis: Option<Visibility>,
        import: Option<ImportOrExternCrate>,
    ) -> PerNs
        ensures { result ≡ of_def def vis value_ns_ctor_vis import }
    {
        let value_import = import.and_then(ImportOrExternCrate::import_or_glob);
        match def {
            ModuleDefId::AdtId(AdtId::StructId(_)) | ModuleDefId::EnumVariantId(_) => {
                PerNs {
                    values: value_ns_ctor_vis.map(|vis| Item {
                        def,
                        vis,
                        import: value_import,
                    }),
                    ..PerNs::types(def, vis, import)
                }
            }
            ModuleDefId::FunctionId(_) | ModuleDefId::ConstId(_) | ModuleDefId::StaticId(_) => {
                PerNs::values(def, vis, value_import)
            }
            ModuleDefId::ModuleId(_)
            | ModuleDefId::AdtId(AdtId::UnionId(_) | AdtId::EnumId(_))
            | ModuleDefId::TraitId(_)
            | ModuleDefId::TypeAliasId(_)
            | ModuleDefId::BuiltinType(_) => PerNs::types(def, vis, import),
            ModuleDefId::MacroId(id) => PerNs::macros(id, vis, import),
        }
    }

    /// In which namespaces there is an item.
    pub fn availability(&self) -> NsAvailability
        ensures { result.0 ≡ availability self.now }
    {
        let mut result = NsAvailability::empty();
        result.set(NsAvailability::TYPES, self.types.is_some());
        result.set(NsAvailability::VALUES, self.values.is_some());
        result.set(NsAvailability::MACROS, self.macros.is_some());
        result
    }

    /// Whether there is an item in no namespace.
    pub fn is_none(&self) -> bool
        ensures { result ≡ is_empty self.now }
    {
        self.types.is_none() && self.values.is_none() && self.macros.is_none()
    }

    /// Whether there is an item in every namespace.
    pub fn is_full(&self) -> bool
        ensures { result ≡ is_full self.now }
    {
        self.types.is_some() && self.values.is_some() && self.macros.is_some()
    }

    /// The type's definition.
    pub fn take_types(self) -> Option<ModuleDefId>
        ensures { result ≡ definition self.types }
    {
        self.types.map(|item| item.def)
    }

    /// The type, with its visibility and its import.
    pub fn take_types_full(self) -> Option<TypesItem>
        ensures { result ≡ self.types }
    {
        self.types
    }

    /// The value's definition.
    pub fn take_values(self) -> Option<ModuleDefId>
        ensures { result ≡ definition self.values }
    {
        self.values.map(|item| item.def)
    }

    /// The value, with its visibility and its import.
    pub fn take_values_full(self) -> Option<ValuesItem>
        ensures { result ≡ self.values }
    {
        self.values
    }

    /// The macro's definition.
    pub fn take_macros(self) -> Option<MacroId>
        ensures { result ≡ definition self.macros }
    {
        self.macros.map(|item| item.def)
    }

    /// The macro, with its visibility and its import.
    pub fn take_macros_full(self) -> Option<MacrosItem>
        ensures { result ≡ self.macros }
    {
        self.macros
    }

    /// The items whose visibility passes.
    ///
    /// The closure `f` is called for the type, the value and the macro in that order, once for each that is there. The
    /// caller has to meet the `requires` of `f` for these calls alone.
    pub fn filter_visibility<F: FnMut(Visibility) -> bool + Drop>(self, mut f: F) -> PerNs
        requires { MayAskInOrder F.pre F.step self f }
        ensures { AsksInOrder F.step self f result }
    {
        let types = kept_if(self.types, &mut f);
        let values = kept_if(self.values, &mut f);
        let macros = kept_if(self.macros, &mut f);
        PerNs {
            types,
            values,
            macros,
        }
    }

    /// The same items, each with the visibility `vis`.
    pub fn with_visibility(self, vis: Visibility) -> PerNs
        ensures { result ≡ seen_as vis self }
    {
        PerNs {
            types: self.types.map(|item| Item { vis, ..item }),
            values: self.values.map(|item| Item { vis, ..item }),
            macros: self.macros.map(|item| Item { vis, ..item }),
        }
    }

    /// In each namespace this item, else the other's: items of `self` shadow those of `other`.
    pub fn or(self, other: PerNs) -> PerNs
        ensures { result ≡ over self other }
    {
        PerNs {
            types: self.types.or(other.types),
            values: self.values.or(other.values),
            macros: self.macros.or(other.macros),
        }
    }

    /// In each namespace this item, else that of the result of `f`.
    ///
    /// `f` is called once where an item is missing, and never where none is.
    pub fn or_else<F: FnOnce() -> PerNs>(self, f: F) -> PerNs
        requires { is_full self ≡ false → F.pre f }
        ensures full { is_full self ≡ true → result ≡ self }
        ensures asked { is_full self ≡ false → ((other : PerNs) × F.post f other × (result ≡ over self other)) }
    {
        if self.is_full() {
            return self;
        }
        self.or(f())
    }

    /// The items in a row, types before values before macros, each with the import that brought it.
    pub fn iter_items(self) -> IterItems
        ensures rest { result ≡ items_of self }
        ensures runs { ShowsInOrder (λ (x : Listed). x) }
    {
        IterItems::new(self)
    }
}

impl Default for PerNs {
    ghost is_default = { λ n. n ≡ nothing };

    fn default() -> PerNs {
        PerNs::none()
    }
}

/// The item, if there is one and its visibility passes.
fn kept_if<D: Copy, I: Copy, F: FnMut(Visibility) -> bool>(
    item: Option<Item<D, I>>,
    f: &mut F,
) -> Option<Item<D, I>>
    requires { MayAskItem F.pre item f.old }
    ensures { AsksItem F.step item f.old result f.new }
{
    match item {
        None => None,
        Some(item) => if f(item.vis) { Some(item) } else { None },
    }
}
