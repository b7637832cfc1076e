//! Look-ups by `&str` in tables whose keys are names.
ghost use Rattle.std.specs.Prelude.{◌≡◌, is_some};
ghost use Rattle.std.specs.List.{list_any};
ghost use Rattle.dm_base.specs.Names.{find_name, same_name};

use dm_base::name::Name;
use indexmap::map::Slice;

/// Whether a table has an entry under the name of that text. It compares with each name, and does not allocate.
pub fn has_text<V>(table: Slice<'_, Name, V>, text: &str) -> bool
    ensures { result ≡ is_some (find_name text.now table.entry) }
{
    is_among(table.keys().as_slice(), text)
}

/// Whether one of the names has that text.
fn is_among(names: &[Name], text: &str) -> bool
    ensures { result ≡ list_any (same_name text.now) names.now }
{
    names.iter().any(|name| text == name.as_str())
}
