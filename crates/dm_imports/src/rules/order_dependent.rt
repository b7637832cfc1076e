//! Which slots of def maps depend on the order in which imports are taken.
ghost use Rattle.std.specs.Prelude.{All, IfOk, IsTrue, OnOk};
ghost use Rattle.dm_base.specs.declared.ids.ModuleId.{ModuleId};
ghost use Rattle.dm_base.specs.Names.{Name};
ghost use Rattle.dm_imports.specs.Grounding.{IsMore, has_slot, slots_of};
ghost use Rattle.dm_imports.specs.Marking as spec;
ghost use Rattle.dm_imports.specs.Rules.{IsModule};
ghost use Rattle.dm_imports.specs.Tables.{of_tables};

use crate::def_maps::DefMaps;
use crate::rules::grounded::ways::Way;
use crate::rules::unsupported::Judged;
use crate::slots::Slots;
use std::alloc::AllocError;

/// Marks the slots of ways that stay open.
fn mark_open(
    found: &mut Slots<bool>,
    maps: &DefMaps<'_>,
    left: &[Way<'_>],
) -> Result<(), AllocError>
    requires { spec.AreUngrounded (of_tables maps.now) left.now }
    ensures more { OnOk result (IsMore (slots_of found.old) (slots_of found.new)) }
    ensures marked { OnOk result (All (λ w. IsTrue (has_slot (slots_of found.new) w)) left.now) }
    ensures just { OnOk result (spec.AreDependent (of_tables maps.now) (slots_of found.old)
        → spec.AreDependent (of_tables maps.now) (slots_of found.new)) }
{
    for way in left {
        found.put(way.home, way.name, way.namespace, true)?;
    }
    Ok(())
}

/// The slots of modules that depend on the order of imports: those that have not what the rules give, as judged,
/// and those of the ways that stay open.
///
/// Fails only where memory runs out.
pub(crate) fn order_dependent(
    judged: Judged,
    maps: &DefMaps<'_>,
    left: &[Way<'_>],
) -> Result<Slots<bool>, AllocError>
    requires just { spec.IsJust (of_tables maps.now) judged }
    requires judged { (m : ModuleId) → IsModule (of_tables maps.now) m → (n : Name)
        → spec.AreJudged (of_tables maps.now) (slots_of judged.unsupported) m n }
    requires each { spec.AreUngrounded (of_tables maps.now) left.now }
    requires all { spec.HasUngrounded (of_tables maps.now) left.now }
    ensures { IfOk result (λ found. spec.AreThoseDependent (of_tables maps.now) (slots_of found)) }
{
    let Judged {
        unsupported,
        is_supported: _is_supported,
    } = judged;
    let mut found = unsupported;
    mark_open(&mut found, maps, left)?;
    Ok(found)
}
