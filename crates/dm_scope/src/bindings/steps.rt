//! The undo record of a push: what its first step put into a scope and its glob table.
ghost use Rattle.std.specs.Prelude.{◌≡◌, false};

/// What it put into a namespace and its flags, and whether the second step is to write.
#[derive(Clone, Copy)]
pub(crate) struct NewKeys {
    pub writes: bool,
    pub item: bool,
    pub record_key: bool,
    pub flag: bool,
}

impl NewKeys {
    /// Nothing new, and nothing to write.
    pub(crate) fn none() -> NewKeys
        ensures { result ≡ record { writes = false; item = false; record_key = false; flag = false } }
    {
        NewKeys {
            writes: false,
            item: false,
            record_key: false,
            flag: false,
        }
    }
}
