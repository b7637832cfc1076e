//! Symbols: texts other than names, such as features, tools, and suffixes of literals.
ghost use Rattle.std.specs.Prelude.{◌≡◌, IfOk, Some};

use crate::text::Text;
use std::alloc::{AllocError, Global};
use std::fmt;
use std::marker::Model;

/// A symbol, a text that is no name. Contracts see it as its bytes.
#[derive(PartialEq, Eq, PartialOrd, Ord, Hash)]
pub struct Symbol {
    text: Text,
}

/// Hand-written `Drop`, to keep proofs small: dropping one is then a single call.
impl Drop for Symbol {
    fn drop(self) {
        let Symbol { text: _text } = self;
    }
}

impl Model for Symbol {
    ghost use Rattle.std.specs.Prelude.{ℕ, List};

    ghost Value = { List ℕ };

    ghost view = { λ s. s.text };

    ghost inverse = { λ bytes. record { text = bytes } };
}

impl Symbol {
    /// A symbol of this text, which may be any text.
    ///
    /// Fails where an allocation fails, and then changes nothing.
    pub fn new(alloc: Global, text: &str) -> Result<Symbol, AllocError>
        ensures { IfOk result (λ symbol. symbol ≡ text.now) }
    {
        Ok(Symbol {
            text: Text::new(alloc, text)?,
        })
    }

    /// The text of a symbol.
    pub fn as_str(&self) -> &str
        ensures { result.now ≡ self.now }
    {
        self.text.as_str()
    }

    /// A second symbol of the same text.
    ///
    /// Fails where an allocation fails, and then changes nothing.
    pub fn copy(&self, alloc: Global) -> Result<Symbol, AllocError>
        ensures { IfOk result (λ symbol. symbol ≡ self.now) }
    {
        Symbol::new(alloc, self.as_str())
    }
}

impl fmt::Debug for Symbol {
    fn fmt<W: fmt::Write>(&self, f: &mut fmt::Formatter<W>) -> fmt::Result {
        fmt::Debug::fmt(&self.as_str(), f)
    }
}

impl fmt::Display for Symbol {
    ghost output = { λ symbol. Some symbol };

    fn fmt<W: fmt::Write>(&self, f: &mut fmt::Formatter<W>) -> fmt::Result {
        f.write_str(self.as_str())
    }
}
