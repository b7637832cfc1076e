//! The results that path resolution can end with.
ghost use Rattle.std.specs.Prelude.{◌≡◌};
ghost use Rattle.hir_def_map.specs.Answers.{reached, nothing_yes, nothing_no, stopped, variant_answer, yes_in_block};

use crate::path_resolution::result::{
    ReachedFixedPoint, ResolvePathResult, ResolvePathResultPrefixInfo,
};
use dm_base::fields_shape::FieldsShape;
use dm_base::ids::EnumVariantId;
use dm_base::item_ids::ModuleDefId;
use dm_base::per_ns::{PerNs, TypesItem};

/// What was reached.
pub(crate) fn reached(here: PerNs) -> ResolvePathResult
    ensures { result ≡ reached here }
{
    ResolvePathResult {
        resolved_def: here,
        segment_index: None,
        reached_fixedpoint: ReachedFixedPoint::Yes,
        prefix_info: ResolvePathResultPrefixInfo::default(),
    }
}

/// Nothing, yes.
pub(crate) fn nothing_yes() -> ResolvePathResult
    ensures { result ≡ nothing_yes }
{
    reached(PerNs::none())
}

/// Nothing, no.
pub(crate) fn nothing_no() -> ResolvePathResult
    ensures { result ≡ nothing_no }
{
    ResolvePathResult {
        reached_fixedpoint: ReachedFixedPoint::No,
        ..nothing_yes()
    }
}

/// The types item alone, at the segment that it leaves unresolved.
pub(crate) fn stopped(item: TypesItem, position: usize) -> ResolvePathResult
    ensures { result ≡ stopped item position }
{
    ResolvePathResult {
        segment_index: Some(position),
        ..reached(PerNs::types(item.def, item.vis, item.import))
    }
}

/// A variant, with the visibility of the enum's binding.
pub(crate) fn variant_answer(
    item: TypesItem,
    variant: EnumVariantId,
    shape: FieldsShape,
) -> ResolvePathResult
    ensures { result ≡ variant_answer item (variant, shape) }
{
    let def = ModuleDefId::EnumVariantId(variant);
    let found = if shape.has_value_ns_ctor() {
        PerNs::both(def, def, item.vis, None)
    } else {
        PerNs::types(def, item.vis, None)
    };
    ResolvePathResult {
        prefix_info: ResolvePathResultPrefixInfo {
            differing_crate: false,
            enum_variant: true,
        },
        ..reached(found)
    }
}

/// The answer of a module that lies in a block, or does not: a block's has status yes.
pub(crate) fn yes_in_block(in_block: bool, answer: ResolvePathResult) -> ResolvePathResult
    ensures { result ≡ yes_in_block in_block answer }
{
    if in_block {
        ResolvePathResult {
            reached_fixedpoint: ReachedFixedPoint::Yes,
            ..answer
        }
    } else {
        answer
    }
}
