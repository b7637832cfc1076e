//! Parses the lines that ask about visibility.
ghost use Rattle.std.specs.Prelude.{◌≡◌};
ghost use Rattle.defmap_script.specs.Lines.{words_left};
ghost use Rattle.defmap_script.specs.SeeingLines.{max_line, min_line, sees_line, two, two_in_map};

use crate::build_words::{MapName, map_name};
use crate::lines::Words;
use crate::words::{number, visibility};
use dm_base::ids::ModuleId;
use dm_base::visibility::Visibility;

/// A question about visibilities.
#[derive(Clone, Copy)]
pub(crate) enum Sight {
    /// Whether an item of that visibility is visible from a module.
    Sees(Visibility, ModuleId),
    /// The most permissive of two visibilities, in a map.
    Max(MapName, Visibility, Visibility),
    /// The least permissive of two.
    Min(MapName, Visibility, Visibility),
}

/// `sees VIS MODULE`, behind its first word.
pub(crate) fn sees_line(mut words: Words<'_>) -> Option<Sight>
    ensures { result ≡ sees_line (words_left words.entry) }
{
    let visibility = visibility(words.next()?)?;
    let module = ModuleId(number(words.next()?)?);
    words.end()?;
    Some(Sight::Sees(visibility, module))
}

/// `max MAP VIS VIS`, behind its first word.
pub(crate) fn max_line(words: Words<'_>) -> Option<Sight>
    ensures { result ≡ max_line (words_left words.entry) }
{
    let (map, one, two) = two_in_map(words)?;
    Some(Sight::Max(map, one, two))
}

/// `min MAP VIS VIS`, behind its first word.
pub(crate) fn min_line(words: Words<'_>) -> Option<Sight>
    ensures { result ≡ min_line (words_left words.entry) }
{
    let (map, one, two) = two_in_map(words)?;
    Some(Sight::Min(map, one, two))
}

/// A map and two visibilities.
fn two_in_map(mut words: Words<'_>) -> Option<(MapName, Visibility, Visibility)>
    ensures { result ≡ two_in_map (words_left words.entry) }
{
    let map = map_name(words.next()?)?;
    let (one, two) = two(words)?;
    Some((map, one, two))
}

/// Two visibilities.
fn two(mut words: Words<'_>) -> Option<(Visibility, Visibility)>
    ensures { result ≡ two (words_left words.entry) }
{
    let one = visibility(words.next()?)?;
    let two = visibility(words.next()?)?;
    words.end()?;
    Some((one, two))
}
