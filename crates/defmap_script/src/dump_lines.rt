//! Parses the lines that ask for dumps.
ghost use Rattle.std.specs.Prelude.{◌≡◌};
ghost use Rattle.defmap_script.specs.DumpLines.{dump_line, dumpmap_line};
ghost use Rattle.defmap_script.specs.Lines.{words_left};

use crate::build_words::{MapName, map_name};
use crate::lines::Words;
use crate::words::number;
use dm_base::ids::ModuleId;

/// What is to be dumped.
#[derive(Clone, Copy)]
pub(crate) enum Dumping {
    /// A module's scope.
    Scope(ModuleId),
    /// A map, and those from it outwards.
    Map(MapName),
}

/// `dump MODULE`, behind its first word.
pub(crate) fn dump_line(mut words: Words<'_>) -> Option<Dumping>
    ensures { result ≡ dump_line (words_left words.entry) }
{
    let module = ModuleId(number(words.next()?)?);
    words.end()?;
    Some(Dumping::Scope(module))
}

/// `dumpmap MAP`, behind its first word.
pub(crate) fn dumpmap_line(mut words: Words<'_>) -> Option<Dumping>
    ensures { result ≡ dumpmap_line (words_left words.entry) }
{
    let map = map_name(words.next()?)?;
    words.end()?;
    Some(Dumping::Map(map))
}
