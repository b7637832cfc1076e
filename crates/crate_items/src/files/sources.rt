//! The files that a crate reads, each once.
ghost use Rattle.std.specs.Prelude.{◌≡◌, ◌<◌, IfOk, IsSome, None, OnOk, Some, if◌then◌else◌, length, nat_eq};
ghost use Rattle.std.specs.Option.{option_copied};
ghost use Rattle.crate_items.specs.Sources.{AreSourcesOf, Extends, source_at};
ghost use Rattle.dm_base.specs.declared.ids.FileId.{FileId};

use crate::files::file_table::FileTable;
use crate::files::source::Source;
use dm_base::edition::Edition;
use dm_base::ids::FileId;
use item_tree::cfg::CfgOptions;
use std::alloc::{AllocError, Global};
use std::marker::Model;

/// What a crate read of the files of a table. A contract sees for each file what was read of it, if it was.
pub struct Sources {
    read: Vec<Option<Source>>,
}

/// Hand-written `Drop`, to keep proofs small: dropping one is then a single call.
impl Drop for Sources {
    fn drop(self) {
        let Sources { read: _read } = self;
    }
}

impl Model for Sources {
    ghost use Rattle.std.specs.Prelude.{List, Option};
    ghost use Rattle.crate_items.specs.Sources.{Source};

    ghost Value = { List (Option Source) };

    ghost view = { λ s. s.read.items };
}

impl Sources {
    /// Nothing read of so many files.
    ///
    /// # Errors
    ///
    /// Fails only where memory runs out.
    pub(crate) fn new(alloc: Global, count: usize) -> Result<Sources, AllocError>
        ensures len { IfOk result (λ sources. length sources ≡ count) }
        ensures empty { IfOk result (λ sources. (id : FileId) → source_at sources id ≡ None) }
    {
        let mut read = Vec::with_capacity(alloc, count)?;
        for _ in 0..count {
            read.push(None)?;
        }
        Ok(Sources { read })
    }

    /// What was read of a file, if it was read.
    pub fn get(&self, file: FileId) -> Option<&Source>
        ensures { option_copied result ≡ source_at self.now file }
    {
        match self.read.get(file.0 as usize) {
            None => None,
            Some(source) => source.as_ref(),
        }
    }

    /// Keeps what was read of a file.
    fn put(&mut self, file: FileId, source: Source)
        requires { file.0 < length self.old }
        ensures len { length self.new ≡ length self.old }
        ensures exact { (id : FileId) → source_at self.new id ≡
            (if nat_eq id.0 file.0 then Some source else source_at self.old id) }
    {
        self.read[file.0 as usize] = Some(source);
    }

    /// Reads a file, if it was not read before.
    ///
    /// # Errors
    ///
    /// Fails only where memory runs out, and then changes nothing.
    pub(crate) fn read(
        &mut self,
        alloc: Global,
        edition: Edition,
        options: &CfgOptions,
        files: &FileTable,
        file: FileId,
    ) -> Result<(), AllocError>
        requires there { file.0 < length files.now }
        requires len { length self.old ≡ length files.now }
        requires right { AreSourcesOf edition options.now files.now self.old }
        ensures len { length self.new ≡ length files.now }
        ensures right { AreSourcesOf edition options.now files.now self.new }
        ensures kept { Extends self.old self.new }
        ensures read { OnOk result (IsSome (source_at self.new file)) }
    {
        if self.get(file).is_some() {
            return Ok(());
        }
        let source = Source::read(alloc, edition, options, files.text(file))?;
        self.put(file, source);
        Ok(())
    }
}
