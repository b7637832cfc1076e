//! What is generic over traits with laws, over trees and over closures, at one type each; and displayed numbers.
ghost use Rattle.std.specs.Prelude.{◌≡◌};
ghost use Rattle.dm_base.specs.declared.visibility.Visibility.TheVariants.{Module};
ghost use Rattle.dm_base.specs.declared.visibility.VisibilityExplicitness.TheVariants.{Implicit};

use crate::tests::same;
use defmap_callers::base::{
    are_one, definitions, is_reached, layered, seen_from, type_or, widened_by,
};
use defmap_callers::tree::SmallTree;
use dm_base::builtin_type::{BuiltinFloat, BuiltinInt, BuiltinUint};
use dm_base::ids::{BlockId, Crate, FunctionId, MapId, ModuleId};
use dm_base::item_ids::ModuleDefId;
use dm_base::item_in_ns::ItemInNs;
use dm_base::module_tree::ModuleTree;
use dm_base::overlay::Overlay;
use dm_base::per_ns::PerNs;
use dm_base::visibility::{Visibility, VisibilityExplicitness};
use std::test::Fail;

const FUNCTION: ModuleDefId = ModuleDefId::FunctionId(FunctionId(1));

const MODULE: ModuleDefId = ModuleDefId::ModuleId(ModuleId(2));

/// The root of block 2, which lies in module 6 of block 0.
const INNERMOST: ModuleId = ModuleId(9);

/// The map of block 0.
const BLOCK_0: MapId = MapId {
    krate: Crate(0),
    block: Some(BlockId(0)),
};

fn inside(n: u32) -> Visibility
    ensures { result ≡ Module (record { 0 = n }) Implicit }
{
    Visibility::Module(ModuleId(n), VisibilityExplicitness::Implicit)
}

/// The type of the upper layer shadows that of the lower one.
#[test]
fn layers_are_laid_over_one_another(rt: HostRuntime) -> Result<(), Fail> {
    let upper = PerNs::types(MODULE, Visibility::Public, None);
    let lower = PerNs::both(FUNCTION, FUNCTION, Visibility::Public, None);
    let both = layered(PerNs::empty(), upper, lower);
    let listed = definitions(rt.alloc(), both)?;
    same(
        &rt,
        &listed.as_slice(),
        &[ItemInNs::Types(MODULE), ItemInNs::Values(FUNCTION)].as_slice(),
    );
    assert!(rt; are_one(&type_or(PerNs::none(), MODULE), &upper));
    Ok(())
}

#[test]
fn steps_go_outwards_through_blocks(rt: HostRuntime) {
    let tree = SmallTree::new();
    assert!(rt; tree.contains(ModuleId(0), INNERMOST));
    assert!(rt; tree.is_block_root(INNERMOST));
    same(
        &rt,
        &[
            tree.outside_root(INNERMOST),
            Some(tree.home(INNERMOST)),
            tree.outer_member(INNERMOST, 2),
        ],
        &[Some(ModuleId(6)), Some(ModuleId(6)), Some(ModuleId(0))],
    );
}

#[test]
fn callers_ask_any_tree_who_sees_what(rt: HostRuntime) {
    let tree = SmallTree::new();
    let item = PerNs::types(MODULE, inside(1), None);
    same(&rt, &seen_from(&tree, ModuleId(2), item), &item);
    let vis = Visibility::PubCrate(Crate(0));
    assert!(rt; is_reached(&tree, inside(1), vis, ModuleId(2)));
    same(
        &rt,
        &widened_by(&tree, BLOCK_0, inside(6), inside(5)),
        &inside(5),
    );
}

#[test]
fn numbers_are_displayed_as_their_words(rt: HostRuntime) -> Result<(), Fail> {
    let text = format!(in rt.alloc();
        "{} {} {}",
        BuiltinInt::Isize,
        BuiltinUint::U8,
        BuiltinFloat::F128
    )?;
    same(&rt, &text.as_str(), &"isize u8 f128");
    Ok(())
}
