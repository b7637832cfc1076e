//! The dump of a def map, as text.
ghost use Rattle.std.specs.Prelude.{◌≡◌, ◌++◌, ◌<◌, ◌≤◌, IfOk, IsSome, OnOk, Some, length, map, string_bytes};
ghost use Rattle.dm_maps.specs.Branches.{AllLie, branch_text, child_text, children_text, left_text};
ghost use Rattle.dm_maps.specs.MapDumps.{in_order, map_dump, map_text, path_and, scope_text, tree};
ghost use Rattle.dm_maps.specs.MapFacts.{IsMapOf};
ghost use Rattle.dm_maps.specs.ScopeTables.{scope_tables};
ghost use Rattle.dm_maps.specs.World.{numbered_map};
ghost use Rattle.dm_def_map.specs.Maps.{module_at};
ghost use Rattle.dm_scope.specs.Dumps.{Appends};
ghost use Rattle.dm_scope.specs.Sorted.{seen};

use crate::world::World;
use crate::world::outwards::next_outwards;
use dm_base::ids::ModuleId;
use dm_base::name::Name;
use dm_def_map::def_map::DefMap;
use dm_def_map::modules::module_data::ModuleData;
use dm_scope::item_scope::ItemScope;
use dm_scope::name_order::sorted_names;
use dm_scope::scope_tables::ScopeTables;
use std::alloc::AllocError;

/// A child whose tree is still to be written, and the path that it stands under.
struct Branch {
    path: String,
    child: ModuleId,
}

/// Hand-written `Drop`, to keep proofs small: dropping one is then a single call.
impl Drop for Branch {
    fn drop(self) {
        let Branch {
            path: _path,
            child: _child,
        } = self;
    }
}

/// The dump of a map, and of those from it outwards.
pub(crate) fn dump_map(world: &World, first: &DefMap) -> Result<String, AllocError>
    requires { numbered_map world.now first.now.id ≡ Some first.now }
    ensures { IfOk result (λ text. string_bytes text ≡ map_dump world.now first.now) }
{
    let mut text = String::new(world.tables().alloc);
    let mut map = first;
    'maps: loop {
        write_map(world, map, &mut text)?;
        match next_outwards(world, map) {
            None => return Ok(text),
            Some((outer, _container)) => map = outer,
        }
    }
}

/// Adds what a dump has of one map.
fn write_map(world: &World, map: &DefMap, text: &mut String) -> Result<(), AllocError>
    requires { IsMapOf world.now map.now }
    ensures { Appends text.old text.new (map_text world.now map.now) result }
{
    match map.block_id() {
        None => write_tree(world, map, "crate", text)?,
        Some(_block) => {
            write_tree(world, map, "(block scope)", text)?;
            text.push_str("\n")?;
        }
    }
    Ok(())
}

/// Adds the tree of a map's root, which stands under a path.
fn write_tree(world: &World, map: &DefMap, path: &str, text: &mut String) -> Result<(), AllocError>
    requires { IsMapOf world.now map.now }
    ensures { Appends text.old text.new (tree world.now map.now path.now map.now.root) result }
{
    let mut left = Vec::new(world.tables().alloc);
    write_module(world, map, path, map.root_module_id(), text, &mut left)?;
    while let Some(next) = left.pop() {
        write_branch(world, map, next, text, &mut left)?;
    }
    Ok(())
}

/// Adds an empty line and a branch's module, and puts the children of that to what is left.
fn write_branch(
    world: &World,
    map: &DefMap,
    branch: Branch,
    text: &mut String,
    left: &mut Vec<Branch>,
) -> Result<(), AllocError>
    requires facts { IsMapOf world.now map.now }
    requires lies { IsSome (module_at map.now.modules branch.child) }
    requires left { AllLie map.now left.old.items }
    ensures text { OnOk result
        (string_bytes text.new ++ left_text world.now map.now left.new.items
        ≡ string_bytes text.old ++ branch_text world.now map.now branch
        ++ left_text world.now map.now left.old.items) }
    ensures grows { OnOk result (length (string_bytes text.old) < length (string_bytes text.new)) }
    ensures lie { OnOk result (AllLie map.now left.new.items) }
{
    text.push_str("\n")?;
    write_module(world, map, branch.path.as_str(), branch.child, text, left)?;
    Ok(())
}

/// Adds a module, and puts its children to what is left.
fn write_module(
    world: &World,
    map: &DefMap,
    path: &str,
    m: ModuleId,
    text: &mut String,
    left: &mut Vec<Branch>,
) -> Result<(), AllocError>
    requires facts { IsMapOf world.now map.now }
    requires lies { IsSome (module_at map.now.modules m) }
    requires left { AllLie map.now left.old.items }
    ensures text { OnOk result
        (string_bytes text.new ++ left_text world.now map.now left.new.items
        ≡ string_bytes text.old ++ tree world.now map.now path.now m
        ++ left_text world.now map.now left.old.items) }
    ensures grows { OnOk result (length (string_bytes text.old) ≤ length (string_bytes text.new)) }
    ensures lie { OnOk result (AllLie map.now left.new.items) }
{
    let parent = map.module(m);
    text.push_str(path)?;
    text.push_str("\n")?;
    write_scope(world, parent.scope(), text)?;
    add_children(world, map, path, m, parent, left)?;
    Ok(())
}

/// Adds the dump of a scope.
fn write_scope(world: &World, scope: &ItemScope, text: &mut String) -> Result<(), AllocError>
    ensures { Appends text.old text.new (scope_text (scope_tables world.now) scope.now) result }
{
    scope.dump(world, text)?;
    Ok(())
}

/// Puts the children of a module to what is left, the first of them last.
fn add_children(
    world: &World,
    map: &DefMap,
    path: &str,
    m: ModuleId,
    parent: &ModuleData,
    left: &mut Vec<Branch>,
) -> Result<(), AllocError>
    requires facts { IsMapOf world.now map.now }
    requires is { module_at map.now.modules m ≡ Some parent.now }
    requires left { AllLie map.now left.old.items }
    ensures text { OnOk result
        (left_text world.now map.now left.new.items
        ≡ children_text world.now map.now path.now parent.now
        ++ left_text world.now map.now left.old.items) }
    ensures lie { OnOk result (AllLie map.now left.new.items) }
{
    let mut names = child_names(world, parent)?;
    while let Some(name) = names.pop() {
        add_child(world, map, path, m, parent, name, left)?;
    }
    Ok(())
}

/// Puts a module's child of that name to what is left.
fn add_child(
    world: &World,
    map: &DefMap,
    path: &str,
    m: ModuleId,
    parent: &ModuleData,
    name: &Name,
    left: &mut Vec<Branch>,
) -> Result<(), AllocError>
    requires facts { IsMapOf world.now map.now }
    requires is { module_at map.now.modules m ≡ Some parent.now }
    requires left { AllLie map.now left.old.items }
    ensures text { OnOk result
        (left_text world.now map.now left.new.items
        ≡ child_text world.now map.now path.now parent.now name.now
        ++ left_text world.now map.now left.old.items) }
    ensures lie { OnOk result (AllLie map.now left.new.items) }
{
    let Some(child) = parent.child(name) else {
        return Ok(());
    };
    let path = path_of(world, path, name)?;
    left.push(Branch { path, child })?;
    Ok(())
}

/// A path with a name behind it.
fn path_of(world: &World, path: &str, name: &Name) -> Result<String, AllocError>
    ensures { IfOk result
        (λ whole. string_bytes whole ≡ path_and (scope_tables world.now) path.now name.now) }
{
    let mut whole = String::new(world.tables().alloc);
    whole.push_str(path)?;
    whole.push_str("::")?;
    whole.push_str(if world.prints_raw(name) { "r#" } else { "" })?;
    whole.push_str(name.as_str())?;
    Ok(whole)
}

/// The names of a module's children, in order of their bytes.
fn child_names<'a>(world: &World, parent: &'a ModuleData) -> Result<Vec<&'a Name>, AllocError>
    ensures { IfOk result (λ v. seen v.items ≡ in_order (map (λ e. e.0) parent.now.children)) }
{
    names_in_order(world, parent.children().keys().as_slice())
}

/// Names in order of their bytes, each once.
fn names_in_order<'a>(world: &World, names: &'a [Name]) -> Result<Vec<&'a Name>, AllocError>
    ensures { IfOk result (λ v. seen v.items ≡ in_order names.now) }
{
    let sorted = sorted_names(names.iter(), world.tables().alloc)?;
    Ok(sorted)
}
