//! The text of a dump; contracts see it as its bytes.
ghost use Rattle.std.specs.Prelude.{◌≡◌, string_bytes};

use std::marker::Model;

/// The text of a dump.
#[derive(Drop)]
pub(crate) struct DumpText {
    text: String,
}

impl Model for DumpText {
    ghost use Rattle.std.specs.Prelude.{ℕ, List, string_bytes};

    ghost Value = { List ℕ };

    ghost view = { λ dump. string_bytes dump.text };
}

impl DumpText {
    pub(crate) fn new(text: String) -> DumpText
        ensures { result ≡ string_bytes text }
    {
        DumpText { text }
    }

    pub(crate) fn as_str(&self) -> &str
        ensures { result.now ≡ self.now }
    {
        self.text.as_str()
    }
}
