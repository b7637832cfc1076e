//! The shape of a struct, union or variant: record, tuple or unit.
ghost use Rattle.std.specs.Prelude.{◌≡◌};
ghost use Rattle.dm_base.specs.Kinds.{has_constructor};

/// The shape of fields: named (record), in parentheses (tuple), or none at all (unit).
#[derive(Clone, Copy, PartialEq, Eq, Hash, Debug)]
pub enum FieldsShape {
    Record,
    Tuple,
    Unit,
}

impl FieldsShape {
    /// Whether a struct or variant of this shape has a constructor in the value namespace, under its own name.
    pub fn has_value_ns_ctor(self) -> bool
        ensures { result ≡ has_constructor self }
    {
        match self {
            FieldsShape::Record => false,
            FieldsShape::Tuple | FieldsShape::Unit => true,
        }
    }
}
