//! Who sees enums.
ghost use Rattle.std.specs.Prelude.{◌≡◌, if◌then◌else◌, IfOk, OnOk, Some};
ghost use Rattle.std.specs.Map.{lookup};
ghost use Rattle.std.specs.Option.{option_or};
ghost use Rattle.dm_base.specs.declared.ids.EnumId.{EnumId as Id};
ghost use Rattle.dm_def_map.specs.Variants.{same_enum};
ghost use Rattle.dm_collector.specs.Enums as spec;

use crate_tables::declared_name::DeclaredName;
use dm_base::ids::EnumId;
use dm_base::item_ids::{AdtId, ModuleDefId};
use dm_base::per_ns::PerNs;
use dm_base::visibility::Visibility;
use indexmap::IndexMap;
use std::alloc::{AllocError, Global};

/// The enum that a name declares, and who sees it.
fn enum_in(items: &PerNs) -> Option<(EnumId, Visibility)>
    ensures { result ≡ spec.enum_in items.now }
{
    let item = items.types?;
    match item.def {
        ModuleDefId::AdtId(AdtId::EnumId(e)) => Some((e, item.vis)),
        _ => None,
    }
}

/// Gives an enum a visibility.
fn put(
    enums: &mut IndexMap<EnumId, Visibility>,
    e: EnumId,
    vis: Visibility,
) -> Result<(), AllocError>
    ensures { OnOk result ((k : Id) → lookup (same_enum k) enums.new.entries
        ≡ (if same_enum e k then Some vis else lookup (same_enum k) enums.old.entries)) }
{
    enums.insert(e, vis)?;
    Ok(())
}

/// Adds the enum that a name declares.
fn add(enums: &mut IndexMap<EnumId, Visibility>, name: &DeclaredName) -> Result<(), AllocError>
    ensures { OnOk result ((e : Id) → lookup (same_enum e) enums.new.entries
        ≡ option_or (spec.seen_by name.now e) (lookup (same_enum e) enums.old.entries)) }
{
    match enum_in(&name.items) {
        None => Ok(()),
        Some((e, vis)) => {
            put(enums, e, vis)?;
            Ok(())
        }
    }
}

/// Who sees each of the enums that some names declare.
///
/// # Errors
///
/// Fails only where memory runs out.
pub fn enum_visibilities(
    alloc: Global,
    names: &[DeclaredName],
) -> Result<IndexMap<EnumId, Visibility>, AllocError>
    ensures { IfOk result
        (λ enums. (e : Id) → lookup (same_enum e) enums.entries ≡ spec.enum_vis names.now e) }
{
    let mut enums = IndexMap::new(alloc);
    for name in names {
        add(&mut enums, name)?;
    }
    Ok(enums)
}
