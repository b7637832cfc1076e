//! What `use` items import.
ghost use Rattle.std.specs.Prelude.{◌≡◌, ◌<◌, ◌++◌, ◌+◌, IfOk, OnOk, false, length, slice_get};
ghost use Rattle.std.specs.Option.{option_map_or};
ghost use Rattle.crate_items.specs.DeclaredImports as spec;
ghost use Rattle.item_tree.specs.UseTrees.{use_trees_of};

use crate::files::file_table::FileTable;
use crate::files::source::Source;
use crate::items::declared_item::DeclaredItem;
use crate::items::lexeme_names::{kind_at, name_at};
use crate::items::lookups::{item_at, text_of};
use crate::items::use_paths::path_of;
use crate::modules::CrateModules;
use dm_base::ids::UseTreeIdx;
use dm_base::mod_path::{ModPath, PathKind};
use dm_base::name::Name;
use item_tree::ids::use_tree_idx;
use item_tree::items::imports::{ImportKind, import_kind, import_path};
use item_tree::items::item_kind::ItemKind;
use item_tree::items::use_tree::{UseTree, UseTreeKind, use_trees};
use item_tree::items::{Item, Range};
use item_tree::lexer::lexeme::{Lexeme, LexemeKind};
use item_tree::lexer::word::Word;
use std::alloc::{AllocError, Global};

/// A leaf of the use trees of an item: what it imports, and what it binds that under.
#[derive(Drop)]
pub struct DeclaredImport {
    /// The number of the tree, among those of its item.
    pub tree: UseTreeIdx,
    pub kind: ImportKind,
    /// The whole path, behind those of the lists around.
    pub path: ModPath,
    /// The name that is bound; none for a glob, and for `as _`.
    pub name: Option<Name>,
    /// Whether it is `as _`, or a list of nothing.
    pub is_unnamed: bool,
    /// Whether it is a list of nothing (`use a::b::{};`), which asks for what it is of, and is seen by its module alone.
    pub is_empty_list: bool,
}

/// What is bound.
#[derive(Drop)]
struct Binding {
    name: Option<Name>,
    is_unnamed: bool,
}

fn named(name: Option<Name>) -> Option<Binding>
    ensures { result ≡ spec.named name }
{
    match name {
        None => None,
        Some(name) => Some(Binding {
            name: Some(name),
            is_unnamed: false,
        }),
    }
}

/// What the lexeme behind `as` binds.
fn by_alias(
    alloc: Global,
    text: &[u8],
    lexemes: &[Lexeme],
    alias: usize,
) -> Result<Option<Binding>, AllocError>
    ensures { IfOk result (λ bound. bound ≡ spec.by_alias text.now lexemes.now alias) }
{
    match kind_at(lexemes, alias) {
        LexemeKind::Word(Word::Underscore) => Ok(Some(Binding {
            name: None,
            is_unnamed: true,
        })),
        _ => {
            let name = name_at(alloc, text, lexemes, alias)?;
            Ok(named(name))
        }
    }
}

/// The last segment of a path.
fn last_segment(alloc: Global, path: &ModPath) -> Result<Option<Name>, AllocError>
    ensures { IfOk result (λ name. name ≡ spec.last_segment path.now) }
{
    match path.segments().last() {
        None => Ok(None),
        Some(name) => {
            let copied = name.copy(alloc)?;
            Ok(Some(copied))
        }
    }
}

/// What is bound of what a path names, under the name behind `as` or the last one of the path.
fn single(
    alloc: Global,
    text: &[u8],
    lexemes: &[Lexeme],
    alias: Option<usize>,
    path: &ModPath,
) -> Result<Option<Binding>, AllocError>
    ensures { IfOk result (λ bound. bound ≡ spec.single text.now lexemes.now alias path.now) }
{
    match alias {
        Some(place) => by_alias(alloc, text, lexemes, place),
        None => {
            let name = last_segment(alloc, path)?;
            Ok(named(name))
        }
    }
}

/// What a tree of a kind binds.
fn bound_by(
    alloc: Global,
    text: &[u8],
    lexemes: &[Lexeme],
    kind: ImportKind,
    alias: Option<usize>,
    path: &ModPath,
) -> Result<Option<Binding>, AllocError>
    ensures { IfOk result (λ bound. bound ≡ spec.bound_by text.now lexemes.now kind alias path.now) }
{
    match kind {
        ImportKind::Glob => Ok(Some(Binding {
            name: None,
            is_unnamed: false,
        })),
        ImportKind::Plain | ImportKind::TypeOnly => single(alloc, text, lexemes, alias, path),
    }
}

/// Where a leaf stands, and what it is.
#[derive(Clone, Copy)]
struct Leaf {
    tree: UseTreeIdx,
    kind: ImportKind,
    alias: Option<usize>,
    is_empty_list: bool,
}

fn is_list(kind: UseTreeKind) -> bool
    ensures { result ≡ spec.is_list kind }
{
    matches!(kind, UseTreeKind::Prefixed)
}

/// Whether the tree of a number stands in a list of another one.
fn is_in(trees: &[UseTree], number: usize, list: usize) -> bool
    ensures { result ≡ option_map_or (spec.is_in list) (slice_get trees.now number) false }
{
    match trees.get(number) {
        None => false,
        Some(tree) => match tree.parent {
            None => false,
            Some(parent) => list == parent,
        },
    }
}

/// Whether the tree of a number is a list of nothing: what is in a list stands right behind it.
fn is_empty_list(trees: &[UseTree], number: usize, tree: UseTree) -> bool
    requires { number < length trees.now }
    ensures { result ≡ spec.is_empty_list trees.now number tree }
{
    is_list(tree.kind) && !is_in(trees, number + 1, number)
}

/// The tree of a number as a leaf; none, if it is another list or an error.
fn leaf_of(lexemes: &[Lexeme], trees: &[UseTree], number: usize, tree: UseTree) -> Option<Leaf>
    requires { number < length trees.now }
    ensures { result ≡ spec.leaf_of lexemes.now trees.now number tree }
{
    let is_empty_list = is_empty_list(trees, number, tree);
    let kind = if is_empty_list {
        Some(ImportKind::TypeOnly)
    } else {
        import_kind(lexemes, tree)
    };
    match (use_tree_idx(number), kind) {
        (Some(idx), Some(kind)) => Some(Leaf {
            tree: idx,
            kind,
            alias: tree.alias,
            is_empty_list,
        }),
        _ => None,
    }
}

/// Whether a path has no names, and does not begin with `crate`, `self` or `super`.
fn says_nothing(path: &ModPath) -> bool
    ensures { result ≡ spec.says_nothing path.now }
{
    path.segments().is_empty() && matches!(path.kind(), PathKind::Plain | PathKind::Abs)
}

/// What a list of nothing binds: nothing, and where it is of nothing, it does not ask either.
fn bound_by_list(path: &ModPath) -> Option<Binding>
    ensures { result ≡ spec.of_list path.now }
{
    if says_nothing(path) {
        None
    } else {
        Some(Binding {
            name: None,
            is_unnamed: true,
        })
    }
}

/// Adds an import by a path, if there is one, and if it binds anything.
fn push_by_path(
    found: &mut Vec<DeclaredImport>,
    leaf: Leaf,
    path: ModPath,
    bound: Option<Binding>,
) -> Result<(), AllocError>
    ensures { OnOk result
        (found.new.items ≡ found.old.items ++ spec.of_binding leaf path bound) }
{
    match bound {
        None => Ok(()),
        Some(bound) => {
            found.push(DeclaredImport {
                tree: leaf.tree,
                kind: leaf.kind,
                path,
                name: bound.name,
                is_unnamed: bound.is_unnamed,
                is_empty_list: leaf.is_empty_list,
            })?;
            Ok(())
        }
    }
}

/// Adds a leaf with its path, if that is one.
fn push_leaf(
    found: &mut Vec<DeclaredImport>,
    alloc: Global,
    text: &[u8],
    lexemes: &[Lexeme],
    leaf: Leaf,
    path: Option<ModPath>,
) -> Result<(), AllocError>
    ensures { OnOk result (found.new.items ≡ found.old.items
        ++ spec.of_path text.now lexemes.now leaf path) }
{
    match path {
        None => Ok(()),
        Some(path) => {
            let bound = if leaf.is_empty_list {
                bound_by_list(&path)
            } else {
                bound_by(alloc, text, lexemes, leaf.kind, leaf.alias, &path)?
            };
            push_by_path(found, leaf, path, bound)?;
            Ok(())
        }
    }
}

/// Whether a leaf is `self` in a list.
fn is_self(leaf: Leaf) -> bool
    ensures { result ≡ spec.is_self leaf }
{
    matches!(leaf.kind, ImportKind::TypeOnly) && !leaf.is_empty_list
}

/// The path of a leaf. `self` in a list of no path is the module that the `use` stands in.
fn leaf_path(
    alloc: Global,
    text: &[u8],
    lexemes: &[Lexeme],
    leaf: Leaf,
    places: &[usize],
) -> Result<Option<ModPath>, AllocError>
    ensures { IfOk result (λ path. path ≡ spec.leaf_path text.now lexemes.now leaf places.now) }
{
    if is_self(leaf) && places.is_empty() {
        Ok(Some(ModPath::from_segments(PathKind::Super(0), Vec::new(alloc))))
    } else {
        path_of(alloc, text, lexemes, places)
    }
}

/// Adds what the tree of a number imports.
fn push_tree(
    found: &mut Vec<DeclaredImport>,
    alloc: Global,
    text: &[u8],
    lexemes: &[Lexeme],
    trees: &[UseTree],
    number: usize,
    tree: UseTree,
) -> Result<(), AllocError>
    requires { number < length trees.now }
    ensures { OnOk result (found.new.items ≡ found.old.items
        ++ spec.import_of text.now lexemes.now trees.now number tree) }
{
    match leaf_of(lexemes, trees, number, tree) {
        None => Ok(()),
        Some(leaf) => {
            let places = import_path(alloc, lexemes, trees, number)?;
            let path = leaf_path(alloc, text, lexemes, leaf, places.as_slice())?;
            push_leaf(found, alloc, text, lexemes, leaf, path)?;
            Ok(())
        }
    }
}

/// What some use trees import.
fn imports_of_trees(
    alloc: Global,
    text: &[u8],
    lexemes: &[Lexeme],
    trees: &[UseTree],
) -> Result<Vec<DeclaredImport>, AllocError>
    ensures { IfOk result (λ found. found.items ≡
        spec.imports_from text.now lexemes.now trees.now 0 trees.now) }
{
    let mut found = Vec::new(alloc);
    for (number, tree) in trees.iter().enumerate() {
        push_tree(&mut found, alloc, text, lexemes, trees, number, *tree)?;
    }
    Ok(found)
}

/// The use trees behind a `use`.
fn trees_behind(
    alloc: Global,
    lexemes: &[Lexeme],
    word: usize,
    behind: usize,
) -> Result<Vec<UseTree>, AllocError>
    ensures { IfOk result (λ found. found.items ≡
        use_trees_of lexemes.now (record { first = word + 1; behind = behind })) }
{
    if word < lexemes.len() {
        let range = Range {
            first: word + 1,
            behind,
        };
        let trees = use_trees(alloc, lexemes, range)?;
        Ok(trees)
    } else {
        Ok(Vec::new(alloc))
    }
}

/// What an item of a tree imports.
fn imports_of_item(
    alloc: Global,
    text: &[u8],
    lexemes: &[Lexeme],
    item: Item,
) -> Result<Vec<DeclaredImport>, AllocError>
    ensures { IfOk result (λ found. found.items ≡
        spec.imports_of_item text.now lexemes.now item.kind item.word item.behind) }
{
    match item.kind {
        ItemKind::Use => {
            let trees = trees_behind(alloc, lexemes, item.word, item.behind)?;
            imports_of_trees(alloc, text, lexemes, trees.as_slice())
        }
        _ => Ok(Vec::new(alloc)),
    }
}

/// What a `use` item imports: each leaf of its use trees, in order, with its whole path and the name that it binds.
/// Where a path has anything but names behind its beginning, or more than 255 `super`, or nothing to bind, there is no
/// import. What is no `use` imports nothing.
///
/// # Errors
///
/// Fails only where memory runs out.
pub fn declared_imports(
    alloc: Global,
    list: &CrateModules,
    files: &FileTable,
    item: &DeclaredItem,
) -> Result<Vec<DeclaredImport>, AllocError>
    ensures { IfOk result
        (λ found. found.items ≡ spec.declared_imports list.now files.now item.now) }
{
    match list.sources().get(item.file) {
        None => Ok(Vec::new(alloc)),
        Some(source) => match item_at(source, item.item) {
            None => Ok(Vec::new(alloc)),
            Some(read) => {
                let text = text_of(files, item.file);
                imports_of_item(alloc, text, source.lexemes(), read)
            }
        },
    }
}
