//! The leaves of uses, as imports and as globs.
ghost use Rattle.std.specs.Prelude.{◌≡◌, ◌++◌, ◌∷◌, [], if◌then◌else◌, IfOk, OnOk};
ghost use Rattle.std.specs.List.{flat_map};
ghost use Rattle.dm_base.specs.declared.visibility.Visibility.TheVariants.{Module};
ghost use Rattle.dm_base.specs.declared.visibility.VisibilityExplicitness.TheVariants.{Implicit};
ghost use Rattle.dm_collector.specs.Leaves as spec;

use crate_items::items::declared_import::DeclaredImport;
use crate_tables::use_leaf::UseLeaf;
use dm_base::ids::ModuleId;
use dm_base::imports::{GlobId, ImportId};
use dm_base::name::Name;
use dm_base::visibility::{Visibility, VisibilityExplicitness};
use dm_imports::glob_import::GlobImport;
use dm_imports::named_import::{ImportKind, NamedImport};
use item_tree::items::imports;
use std::alloc::{AllocError, Global};

/// Imports, and globs.
#[derive(Drop)]
pub struct Leaves {
    pub imports: Vec<NamedImport>,
    pub globs: Vec<GlobImport>,
}

fn kind_of(is_unnamed: bool, kind: imports::ImportKind) -> ImportKind
    ensures { result ≡ spec.kind_of is_unnamed kind }
{
    if is_unnamed {
        return ImportKind::Unnamed;
    }
    match kind {
        imports::ImportKind::TypeOnly => ImportKind::TypeOnly,
        _ => ImportKind::All,
    }
}

/// The name that an import stands under.
fn name_of(alloc: Global, is_unnamed: bool, name: Option<Name>) -> Result<Option<Name>, AllocError>
    ensures { IfOk result (λ found. found ≡ spec.name_of is_unnamed name) }
{
    if is_unnamed {
        let name = Name::new(alloc, "_")?;
        Ok(Some(name))
    } else {
        Ok(name)
    }
}

fn is_glob_kind(kind: imports::ImportKind) -> bool
    ensures { result ≡ spec.is_glob_kind kind }
{
    matches!(kind, imports::ImportKind::Glob)
}

/// Who sees what an import brings, at most: what a list of nothing asks for is seen by its module alone.
fn vis_of(home: ModuleId, visibility: Visibility, is_empty_list: bool) -> Visibility
    ensures { result ≡ (if is_empty_list then Module home Implicit else visibility) }
{
    if is_empty_list {
        Visibility::Module(home, VisibilityExplicitness::Implicit)
    } else {
        visibility
    }
}

/// Adds the import that a leaf is, if it has a name to bind.
fn push_import(
    imports: &mut Vec<NamedImport>,
    alloc: Global,
    leaf: UseLeaf,
) -> Result<(), AllocError>
    ensures { OnOk result (imports.new.items ≡ imports.old.items
        ++ spec.imports_named leaf (spec.name_of leaf.import.is_unnamed leaf.import.name)) }
{
    let UseLeaf {
        home,
        visibility,
        use_,
        import,
        textual,
    } = leaf;
    let DeclaredImport {
        tree,
        kind,
        path,
        name,
        is_unnamed,
        is_empty_list,
    } = import;
    let Some(name) = name_of(alloc, is_unnamed, name)? else {
        return Ok(());
    };
    imports.push(NamedImport {
        home,
        name,
        path,
        vis: vis_of(home, visibility, is_empty_list),
        kind: kind_of(is_unnamed, kind),
        import: ImportId { use_, idx: tree },
        textual,
    })?;
    Ok(())
}

/// Adds the glob that a leaf is.
fn push_glob(globs: &mut Vec<GlobImport>, leaf: UseLeaf) -> Result<(), AllocError>
    ensures { OnOk result (globs.new.items ≡ globs.old.items ++ spec.glob_by leaf ∷ []) }
{
    let UseLeaf {
        home,
        visibility,
        use_,
        import,
        textual: _textual,
    } = leaf;
    let DeclaredImport {
        tree,
        kind: _kind,
        path,
        name: _name,
        is_unnamed: _is_unnamed,
        is_empty_list: _is_empty_list,
    } = import;
    globs.push(GlobImport {
        into: home,
        path,
        vis: visibility,
        import: GlobId { use_, idx: tree },
    })?;
    Ok(())
}

/// Adds a leaf to the imports or to the globs.
fn push_leaf(
    imports: &mut Vec<NamedImport>,
    globs: &mut Vec<GlobImport>,
    alloc: Global,
    leaf: UseLeaf,
) -> Result<(), AllocError>
    ensures imports { OnOk result (imports.new.items ≡ imports.old.items ++ spec.imports_of leaf) }
    ensures globs { OnOk result (globs.new.items ≡ globs.old.items ++ spec.globs_of leaf) }
{
    if is_glob_kind(leaf.import.kind) {
        push_glob(globs, leaf)
    } else {
        push_import(imports, alloc, leaf)
    }
}

/// Some leaves, as imports and as globs, each in order.
///
/// # Errors
///
/// Fails only where memory runs out.
pub fn split(alloc: Global, leaves: Vec<UseLeaf>) -> Result<Leaves, AllocError>
    ensures imports { IfOk result (λ found. found.imports.items ≡ flat_map spec.imports_of leaves.items) }
    ensures globs { IfOk result (λ found. found.globs.items ≡ flat_map spec.globs_of leaves.items) }
{
    let mut imports = Vec::new(alloc);
    let mut globs = Vec::new(alloc);
    for leaf in leaves {
        push_leaf(&mut imports, &mut globs, alloc, leaf)?;
    }
    Ok(Leaves { imports, globs })
}
