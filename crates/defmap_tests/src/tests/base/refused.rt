//! Fault injection: names, symbols and the builtin types with their names.
use crate::tests::{a_name, gives};
use dm_base::builtin_type::BuiltinType;
use dm_base::name::AsName;
use dm_base::symbol::Symbol;
use std::alloc::{AllocError, Global};
use std::test::Fail;

/// Whether a text is the same after one copy as a name.
fn is_copied_as_name(alloc: Global, text: &str) -> Result<bool, AllocError> {
    let name = a_name(alloc, text)?;
    let copy = again!(name.copy(alloc))?;
    Ok(copy == name && copy.as_str() == text)
}

/// Whether it is the same after one copy as a symbol.
fn is_copied_as_symbol(alloc: Global, text: &str) -> Result<bool, AllocError> {
    let symbol = again!(Symbol::new(alloc, text))?;
    let copy = again!(symbol.copy(alloc))?;
    Ok(copy == symbol && copy.as_str() == text)
}

/// Whether what has a name gives that one.
fn is_named<T: AsName>(alloc: Global, named: &T, word: &str) -> Result<bool, AllocError> {
    let name = again!(named.as_name(alloc))?;
    Ok(name.as_str() == word)
}

/// Whether the last of the builtin types has its name.
fn is_last_named(alloc: Global) -> Result<bool, AllocError> {
    let all = again!(BuiltinType::all_builtin_types(alloc))?;
    is_named(alloc, &all[18].1, "f128")
}

#[test]
fn a_refused_name_is_made_again(rt: HostRuntime) -> Result<(), Fail> {
    gives(&rt, is_copied_as_name(rt.alloc(), "core"), true)?;
    gives(&rt, is_copied_as_symbol(rt.alloc(), "core"), true)?;
    gives(&rt, is_last_named(rt.alloc()), true)
}
