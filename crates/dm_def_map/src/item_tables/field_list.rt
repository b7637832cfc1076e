//! The visibilities of the fields of a variant, a struct or a union.
ghost use Rattle.std.specs.Prelude.{◌≡◌};

use dm_base::visibility::RawVisibility;
use std::marker::Model;

/// The visibility of each field, in order.
pub struct FieldList {
    fields: Vec<RawVisibility>,
}

/// Hand-written `Drop`, to keep proofs small: dropping one is then a single call.
impl Drop for FieldList {
    fn drop(self) {
        let FieldList { fields: _fields } = self;
    }
}

impl Model for FieldList {
    ghost use Rattle.std.specs.Prelude.{List};
    ghost use Rattle.dm_base.specs.declared.visibility.RawVisibility.{RawVisibility};

    ghost Value = { List RawVisibility };

    ghost view = { λ l. l.fields.items };
}

impl FieldList {
    pub fn new(fields: Vec<RawVisibility>) -> FieldList
        ensures { result ≡ fields.items }
    {
        FieldList { fields }
    }

    pub fn as_slice(&self) -> &[RawVisibility]
        ensures { result.now ≡ self.now }
    {
        self.fields.as_slice()
    }
}
