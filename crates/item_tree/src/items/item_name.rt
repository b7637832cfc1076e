//! Where the name of an item stands.
ghost use Rattle.std.specs.Prelude.{◌≡◌, ◌≤◌, IfSome};
ghost use Rattle.item_tree.specs.ItemNames as spec;

use crate::items::head::kind_at;
use crate::items::item_kind::{ItemKind, is_mutable, is_type};
use crate::lexer::trees::Tree;

/// Where the name of an item stands, from its own word on.
pub(crate) fn name_place(kind: ItemKind, trees: &[Tree]) -> Option<usize>
    ensures small { IfSome result (λ place. place ≤ 2) }
    ensures exact { result ≡ spec.name_place kind trees.now }
{
    match kind {
        ItemKind::MacroRules | ItemKind::ExternCrate => Some(2),
        ItemKind::Static => {
            if is_mutable(kind_at(trees, 1)) {
                Some(2)
            } else {
                Some(1)
            }
        }
        ItemKind::Const => {
            if is_type(kind_at(trees, 0)) {
                Some(2)
            } else {
                Some(1)
            }
        }
        ItemKind::Use
        | ItemKind::ExternBlock
        | ItemKind::Impl
        | ItemKind::MacroCall
        | ItemKind::CfgIf
        | ItemKind::CfgSelect
        | ItemKind::CfgArm
        | ItemKind::InnerAttribute
        | ItemKind::Error => None,
        _ => Some(1),
    }
}

/// How many trees are an item's own words: up to its name, or one.
pub(crate) fn words_len(kind: ItemKind, trees: &[Tree]) -> usize
    ensures small { result ≤ 3 }
    ensures exact { result ≡ spec.words_len kind trees.now }
{
    match name_place(kind, trees) {
        None => 1,
        Some(place) => place + 1,
    }
}
