//! What went wrong beside the answer, and what is not known: lines for the standard error.
ghost use Rattle.std.specs.Prelude.{◌≡◌, map};
ghost use Rattle.std.specs.String.{string_bytes};

use std::alloc::{AllocError, Global};
use std::marker::Model;

/// Lines that say what could not be read, each once, and lines that say what else is not known.
pub struct Complaints {
    lines: Vec<String>,
    warnings: Vec<String>,
}

/// A hand-written `Drop`, to keep proofs small: what drops one has one call to prove.
impl Drop for Complaints {
    fn drop(self) {
        let Complaints {
            lines: _lines,
            warnings: _warnings,
        } = self;
    }
}

impl Model for Complaints {
    ghost use Rattle.std.specs.Prelude.{map};
    ghost use Rattle.std.specs.String.{string_bytes};
    ghost use Rattle.defmap_inputs.specs.Complaints.{Said};

    ghost Value = { Said };

    ghost view = { λ c. record {
      lines = map string_bytes c.lines.items;
      warnings = map string_bytes c.warnings.items;
    } };
}

impl Complaints {
    pub(crate) fn new(alloc: Global) -> Complaints {
        Complaints {
            lines: Vec::new(alloc),
            warnings: Vec::new(alloc),
        }
    }

    /// The lines that say what could not be read, in the order in which they came.
    pub fn lines(&self) -> &[String]
        ensures { map string_bytes result.now ≡ self.now.lines }
    {
        self.lines.as_slice()
    }

    /// Those that say what else is not known.
    pub fn warnings(&self) -> &[String]
        ensures { map string_bytes result.now ≡ self.now.warnings }
    {
        self.warnings.as_slice()
    }

    /// Adds one of these.
    pub(crate) fn warn(&mut self, line: String) -> Result<(), AllocError> {
        self.warnings.push(line)?;
        Ok(())
    }

    /// Adds a line, unless it is there.
    pub(crate) fn add(&mut self, line: String) -> Result<(), AllocError> {
        for one in &self.lines {
            if one.as_str() == line.as_str() {
                return Ok(());
            }
        }
        self.lines.push(line)?;
        Ok(())
    }
}
