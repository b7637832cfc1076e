//! The names of the kinds of fragments.
ghost use Rattle.std.specs.Prelude.{◌≡◌, codes};
ghost use Rattle.macro_rules.specs.FragmentNames as spec;

use crate::token::FragmentKind;
use dm_base::edition::Edition;

fn expression_kind(edition: Edition) -> FragmentKind
    ensures { result ≡ spec.expression_kind edition }
{
    match edition {
        Edition::Edition2024 => FragmentKind::Expr,
        _ => FragmentKind::Expr2021,
    }
}

fn pattern_kind(edition: Edition) -> FragmentKind
    ensures { result ≡ spec.pattern_kind edition }
{
    match edition {
        Edition::Edition2015 | Edition::Edition2018 => FragmentKind::PatParam,
        _ => FragmentKind::Pat,
    }
}

/// The kind of fragments of that name, in a macro of a crate of that edition.
#[tactic(auto, unfolding(crate::specs::FragmentNames::kind_named))]
pub fn kind_named(name: &[u8], edition: Edition) -> Option<FragmentKind>
    ensures { result ≡ spec.kind_named edition name.now }
{
    if name == b"ident".as_slice() {
        Some(FragmentKind::Ident)
    } else if name == b"lifetime".as_slice() {
        Some(FragmentKind::Lifetime)
    } else if name == b"tt".as_slice() {
        Some(FragmentKind::Tt)
    } else if name == b"literal".as_slice() {
        Some(FragmentKind::Literal)
    } else if name == b"vis".as_slice() {
        Some(FragmentKind::Vis)
    } else if name == b"block".as_slice() {
        Some(FragmentKind::Block)
    } else if name == b"path".as_slice() {
        Some(FragmentKind::Path)
    } else if name == b"ty".as_slice() {
        Some(FragmentKind::Ty)
    } else if name == b"meta".as_slice() {
        Some(FragmentKind::Meta)
    } else if name == b"item".as_slice() {
        Some(FragmentKind::Item)
    } else if name == b"expr".as_slice() {
        Some(expression_kind(edition))
    } else if name == b"expr_2021".as_slice() {
        Some(FragmentKind::Expr2021)
    } else if name == b"pat".as_slice() {
        Some(pattern_kind(edition))
    } else if name == b"pat_param".as_slice() {
        Some(FragmentKind::PatParam)
    } else if name == b"stmt".as_slice() {
        Some(FragmentKind::Stmt)
    } else {
        None
    }
}
