//! Names that modules declare.
use dm_base::ids::ModuleId;
use dm_base::name::Name;
use dm_base::per_ns::PerNs;

/// A name that a module declares, and what it is there.
pub struct DeclaredName {
    pub home: ModuleId,
    pub name: Name,
    pub items: PerNs,
}

/// Hand-written `Drop`, to keep proofs small: dropping one is then a single call.
impl Drop for DeclaredName {
    fn drop(self) {
        let DeclaredName {
            home: _home,
            name: _name,
            items: _items,
        } = self;
    }
}
