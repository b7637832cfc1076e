//! Def maps, as they are seen by one who knows some slots alone.
ghost use Rattle.std.specs.Prelude.{◌≡◌};
ghost use Rattle.dm_imports.specs.Brought.{AreAllNamed, IsBrought};
ghost use Rattle.dm_imports.specs.Grounded as spec;
ghost use Rattle.dm_imports.specs.Grounding.{AreReady, offers_in, slots_of};
ghost use Rattle.dm_imports.specs.Rules.{IsImportKnown};
ghost use Rattle.dm_imports.specs.Tables.{asks, of_tables};

use crate::asking::Asking;
use crate::def_maps::DefMaps;
use crate::joined::Joined;
use crate::marks::Marks;
use crate::meaning::Meaning;
use crate::named_import::NamedImport;
use crate::paths::path_meaning;
use crate::slots::Slots;
use dm_base::per_ns::Namespace;

/// Def maps, as one sees them who knows the slots of a table alone.
pub(crate) fn knowing<'a>(maps: &DefMaps<'a>, known: &'a Slots<bool>) -> DefMaps<'a>
    ensures { of_tables result ≡ spec.knowing (of_tables maps.now) (slots_of known.now) }
{
    DefMaps {
        world: maps.world,
        imports: maps.imports,
        globs: maps.globs,
        declarations: maps.declarations,
        ambiguous: Marks {
            table: known,
            is_all_but: true,
        },
    }
}

/// Whether something is found, and at a known slot or at none.
pub(crate) fn is_clear(found: Option<Meaning>) -> bool
    ensures { result ≡ spec.is_clear found }
{
    match found {
        None => false,
        Some(meaning) => !meaning.is_ambiguous,
    }
}

/// Who asks for what an import's path means, where `brought` is what globs bring, and `offered` what is offered by known
/// slots.
fn knowing_asks<'a>(
    maps: &DefMaps<'_>,
    brought: &'a Slots<Joined>,
    offered: &'a Slots<Joined>,
    import: &NamedImport,
) -> Asking<'a>
    requires { IsBrought (of_tables maps.now) brought.now }
    ensures { asks result ≡ spec.knowing_asks (of_tables maps.now) (offers_in offered.now) import.now }
{
    let _globs = maps.globs;
    Asking {
        home: import.home,
        import: Some(import.import),
        below: Some(brought),
        offered: Some(offered),
    }
}

/// Whether an import's path leads to something by known slots.
pub(crate) fn leads_by(
    maps: &DefMaps<'_>,
    known: &Slots<bool>,
    brought: &Slots<Joined>,
    offered: &Slots<Joined>,
    import: &NamedImport,
    namespace: Namespace,
) -> bool
    requires ready { AreReady (of_tables maps.now) brought.now }
    requires import { IsImportKnown (of_tables maps.now) import.now }
    ensures { result
        ≡ spec.leads_by (of_tables maps.now) (slots_of known.now) (offers_in offered.now) import.now namespace }
{
    let seen = knowing(maps, known);
    let asking = knowing_asks(maps, brought, offered, import);
    let found = path_meaning(&seen, &asking, import.textual, &import.path, namespace);
    is_clear(found)
}
