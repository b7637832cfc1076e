//! The names and the imports of some crates.
ghost use Rattle.std.specs.Prelude.{◌≡◌, ◌++◌, ◌∷◌, [], IfOk, OnOk, map};
ghost use Rattle.std.specs.List.{flat_map};
ghost use Rattle.crate_tables.specs.CrateTables.{Table, emptied};

use crate::crate_table::CrateTable;
use crate::declared_name::DeclaredName;
use crate::use_leaf::UseLeaf;
use std::alloc::{AllocError, Global};

/// The names that some crates declare, what they import, and the tables without these.
#[derive(Drop)]
pub struct TableParts {
    pub names: Vec<DeclaredName>,
    pub leaves: Vec<UseLeaf>,
    pub rest: Vec<CrateTable>,
}

fn push_names(names: &mut Vec<DeclaredName>, more: Vec<DeclaredName>) -> Result<(), AllocError>
    ensures { OnOk result (names.new.items ≡ names.old.items ++ more.items) }
{
    for name in more {
        names.push(name)?;
    }
    Ok(())
}

fn push_leaves(leaves: &mut Vec<UseLeaf>, more: Vec<UseLeaf>) -> Result<(), AllocError>
    ensures { OnOk result (leaves.new.items ≡ leaves.old.items ++ more.items) }
{
    for leaf in more {
        leaves.push(leaf)?;
    }
    Ok(())
}

/// Adds what a crate has.
fn push_parts(
    names: &mut Vec<DeclaredName>,
    leaves: &mut Vec<UseLeaf>,
    rest: &mut Vec<CrateTable>,
    alloc: Global,
    table: CrateTable,
) -> Result<(), AllocError>
    ensures names { OnOk result (names.new.items ≡ names.old.items ++ table.names) }
    ensures leaves { OnOk result (leaves.new.items ≡ leaves.old.items ++ table.leaves) }
    ensures rest { OnOk result (rest.new.items ≡ rest.old.items ++ emptied table ∷ []) }
{
    let (more_names, more_leaves, remains) = table.into_parts(alloc);
    push_names(names, more_names)?;
    push_leaves(leaves, more_leaves)?;
    rest.push(remains)?;
    Ok(())
}

/// The names that some crates declare, and what they import, crate by crate, and the tables without these.
///
/// # Errors
///
/// Fails only where memory runs out.
pub fn table_parts(alloc: Global, tables: Vec<CrateTable>) -> Result<TableParts, AllocError>
    ensures names { IfOk result (λ parts. parts.names.items ≡ flat_map (λ (t : Table). t.names) tables.items) }
    ensures leaves { IfOk result (λ parts. parts.leaves.items ≡ flat_map (λ (t : Table). t.leaves) tables.items) }
    ensures rest { IfOk result (λ parts. parts.rest.items ≡ map emptied tables.items) }
{
    let mut names = Vec::new(alloc);
    let mut leaves = Vec::new(alloc);
    let mut rest = Vec::new(alloc);
    for table in tables {
        push_parts(&mut names, &mut leaves, &mut rest, alloc, table)?;
    }
    Ok(TableParts {
        names,
        leaves,
        rest,
    })
}
