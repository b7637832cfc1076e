//! Whether a push replaces what is bound, and how a namespace sees its import: explicit names shadow what a glob bound.
ghost use Rattle.std.specs.Prelude.{◌≡◌, Some};
ghost use Rattle.std.specs.Option.{option_and_then};
ghost use Rattle.dm_scope.specs.Shadowing.{is_glob_by, writes};

use crate::bindings::reads::Reads;
use dm_base::definition::Definition;
use dm_base::import_source::ImportSource;
use dm_base::imports::ImportOrExternCrate;
use dm_base::per_ns::Item;

/// The import of a push, as a namespace with imports `I` stores it. Takes no memory.
pub(crate) fn narrowed<I: ImportSource>(import: Option<ImportOrExternCrate>) -> Option<I>
    ensures { result ≡ option_and_then I.narrowed import }
{
    match import {
        None => None,
        Some(i) => I::narrow(i),
    }
}

/// Whether there is an import and it is a glob. Takes no memory.
pub(crate) fn is_glob<I: ImportSource>(import: Option<I>) -> bool
    ensures { result ≡ is_glob_by I.globs import }
{
    match import {
        None => false,
        Some(i) => i.is_glob(),
    }
}

/// Whether a push replaces what is bound under its name: from that, whether the glob flag of the name stands, and what
/// is pushed by which import (docs/RULES.md, "Pushes"). Takes no memory.
pub(crate) fn replaces<D: Definition, I: ImportSource>(
    bound: &Item<D, I>,
    flag: bool,
    item: &Item<D, I>,
    import: Option<I>,
) -> bool
    ensures { result ≡ writes ⟦<D as Reads<I>>⟧.reading (Some bound.now) flag item.now import }
{
    !is_glob(import) && (flag || bound.is_reresolved_by(&item.def, import))
}
