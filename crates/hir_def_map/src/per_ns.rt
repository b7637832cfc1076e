//! Items per namespace: what a name means as a type, as a value and as a macro.
pub use dm_base::item_in_ns::{ItemInNs, ItemModules};
pub use dm_base::items::IterItems;
pub use dm_base::overlay::Overlay;
pub use dm_base::per_ns::{
    Item, MacrosItem, Namespace, NsAvailability, PerNs, TypesItem, ValuesItem,
};
pub use dm_base::value_eq::ValueEq;
