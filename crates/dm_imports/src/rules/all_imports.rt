//! What imports by name bring.
ghost use Rattle.std.specs.Prelude.{◌≡◌, ◌++◌, ◌∷◌, [], All, IfOk, OnOk, cond, fold, map};
ghost use Rattle.std.specs.Option.{option_or};
ghost use Rattle.dm_base.specs.declared.ids.ModuleId.{ModuleId};
ghost use Rattle.dm_base.specs.declared.per_ns.Namespace.{Namespace};
ghost use Rattle.dm_base.specs.Names.{Name};
ghost use Rattle.dm_base.specs.Tree.{IsKnown};
ghost use Rattle.dm_base.specs.Visibility.{NamesKnown};
ghost use Rattle.dm_maps.specs.Trees.{tree_of};
ghost use Rattle.dm_imports.specs.Asked as asked;
ghost use Rattle.dm_imports.specs.Brought.{AreAllNamed, IsBrought};
ghost use Rattle.dm_imports.specs.Paths.{AreVariantsNamed};
ghost use Rattle.dm_imports.specs.Rules as spec;
ghost use Rattle.dm_imports.specs.Rules.{AreMapsKnown};
ghost use Rattle.dm_imports.specs.Slots.{same_slot, slot_at};
ghost use Rattle.dm_imports.specs.Tables.{asks, of_tables};

use crate::asking::Asking;
use crate::def_maps::DefMaps;
use crate::joined::Joined;
use crate::meaning::{Meaning, Source};
use crate::named_import::{ImportKind, NamedImport};
use crate::paths::path_meaning;
use crate::rules::meanings::{ImportMeanings, meanings_of};
use crate::rules::visibilities::least;
use crate::slots::Slots;
use dm_base::ids::ModuleId;
use dm_base::item_ids::ModuleDefId;
use dm_base::item_in_ns::ItemModules;
use dm_base::name::Name;
use dm_base::per_ns::Namespace;
use dm_base::visibility::Visibility;
use dm_maps::world::World;
use std::alloc::{AllocError, Global};

/// Whether an import of a kind brings what a namespace has.
pub(crate) fn brings(kind: ImportKind, namespace: Namespace) -> bool
    ensures { result ≡ spec.brings kind namespace }
{
    match (kind, namespace) {
        (ImportKind::All, _) => true,
        (ImportKind::TypeOnly, Namespace::Types) => true,
        _ => false,
    }
}

/// Who asks for what an import's path means, where `below` is what globs bring.
fn import_asks<'a>(maps: &DefMaps<'_>, below: &'a Slots<Joined>, import: &NamedImport) -> Asking<'a>
    requires { IsBrought (of_tables maps.now) below.now }
    ensures { asks result ≡ spec.import_asks (of_tables maps.now) import.now }
{
    let _globs = maps.globs;
    Asking {
        home: import.home,
        import: Some(import.import),
        below: Some(below),
        offered: None,
    }
}

/// Whether a module is the root of its crate.
fn is_root(world: &World, m: ModuleId) -> bool
    ensures { result ≡ spec.is_root world.now m }
{
    match world.module_krate(m) {
        None => false,
        Some(krate) => match world.root_of(krate) {
            None => false,
            Some(root) => m == root,
        },
    }
}

/// Whether it is an extern crate, by its declaration.
pub(crate) fn is_extern_crate(world: &World, found: Meaning) -> bool
    ensures { result ≡ spec.is_extern_crate world.now found }
{
    match (found.source, found.def) {
        (Source::Declaration, ModuleDefId::ModuleId(m)) => is_root(world, m),
        _ => false,
    }
}

/// Who sees what an import brings of what its path means: none who does not see that; but `pub use` shows an extern crate to
/// all.
fn imported_vis(maps: &DefMaps<'_>, import: &NamedImport, found: Meaning) -> Visibility
    requires home { IsKnown (tree_of maps.now.world) import.now.home }
    requires vis { NamesKnown (tree_of maps.now.world) import.now.vis }
    requires found { NamesKnown (tree_of maps.now.world) found.vis }
    ensures { result ≡ spec.imported_vis (of_tables maps.now) import.now found }
{
    if matches!(import.vis, Visibility::Public) && is_extern_crate(maps.world, found) {
        return Visibility::Public;
    }
    least(maps.world, import.home, import.vis, found.vis)
}

/// What an import brings of what its path means.
fn imported(maps: &DefMaps<'_>, import: &NamedImport, found: Meaning) -> Meaning
    requires home { IsKnown (tree_of maps.now.world) import.now.home }
    requires vis { NamesKnown (tree_of maps.now.world) import.now.vis }
    requires found { NamesKnown (tree_of maps.now.world) found.vis }
    ensures { result ≡ spec.imported (of_tables maps.now) import.now found }
{
    Meaning {
        vis: imported_vis(maps, import, found),
        source: Source::Import(import.import),
        ..found
    }
}

/// What an import brings in a namespace.
pub(crate) fn import_brings(
    maps: &DefMaps<'_>,
    below: &Slots<Joined>,
    import: &NamedImport,
    namespace: Namespace,
) -> Option<Meaning>
    requires below { IsBrought (of_tables maps.now) below.now }
    requires named { AreAllNamed maps.now.world below.now }
    requires variants { AreVariantsNamed (of_tables maps.now) }
    requires home { IsKnown (tree_of maps.now.world) import.now.home }
    requires vis { NamesKnown (tree_of maps.now.world) import.now.vis }
    ensures { result ≡ spec.import_brings (of_tables maps.now) import.now namespace }
{
    if !brings(import.kind, namespace) {
        return None;
    }
    let asking = import_asks(maps, below, import);
    let found = path_meaning(maps, &asking, import.textual, &import.path, namespace)?;
    Some(imported(maps, import, found))
}

/// Gives a slot what is brought there, if it has nothing.
fn put_if_vacant(
    all: &mut Slots<Meaning>,
    m: ModuleId,
    name: &Name,
    namespace: Namespace,
    brought: Option<Meaning>,
) -> Result<(), AllocError>
    ensures { OnOk result ((k : ModuleId) (x : Name) (t : Namespace) → slot_at all.new k x t
        ≡ cond (same_slot m name.now namespace k x t) (option_or (slot_at all.old k x t) brought)
        (slot_at all.old k x t)) }
{
    if all.get(m, name, namespace).is_some() {
        return Ok(());
    }
    match brought {
        None => Ok(()),
        Some(meaning) => all.put(m, name, namespace, meaning),
    }
}

/// What imports by name bring: to each slot, and each import for itself.
#[derive(Drop)]
pub(crate) struct ByName {
    pub(crate) slots: Slots<Meaning>,
    /// In the order of the imports.
    pub(crate) each: Vec<ImportMeanings>,
}

/// Adds what an import brings, to slots where no import before it brings anything.
fn add_import(
    all: &mut ByName,
    maps: &DefMaps<'_>,
    below: &Slots<Joined>,
    import: &NamedImport,
) -> Result<(), AllocError>
    requires below { IsBrought (of_tables maps.now) below.now }
    requires named { AreAllNamed maps.now.world below.now }
    requires variants { AreVariantsNamed (of_tables maps.now) }
    requires home { IsKnown (tree_of maps.now.world) import.now.home }
    requires vis { NamesKnown (tree_of maps.now.world) import.now.vis }
    ensures slots { OnOk result ((k : ModuleId) (x : Name) (t : Namespace) → slot_at all.new.slots k x t
        ≡ option_or (slot_at all.old.slots k x t) (spec.import_to (of_tables maps.now) k x t import.now)) }
    ensures each { OnOk result
        (all.new.each.items ≡ all.old.each.items ++ asked.meanings_of (of_tables maps.now) import.now ∷ []) }
{
    let (home, name) = (import.home, &import.name);
    let found = meanings_of(maps, below, import);
    put_if_vacant(&mut all.slots, home, name, Namespace::Types, found.types)?;
    put_if_vacant(&mut all.slots, home, name, Namespace::Values, found.values)?;
    put_if_vacant(&mut all.slots, home, name, Namespace::Macros, found.macros)?;
    all.each.push(found)?;
    Ok(())
}

/// The same of some imports.
fn add_imports(
    all: &mut ByName,
    maps: &DefMaps<'_>,
    below: &Slots<Joined>,
    imports: &[NamedImport],
) -> Result<(), AllocError>
    requires below { IsBrought (of_tables maps.now) below.now }
    requires named { AreAllNamed maps.now.world below.now }
    requires variants { AreVariantsNamed (of_tables maps.now) }
    requires imports { All (spec.IsImportKnown (of_tables maps.now)) imports.now }
    ensures slots { OnOk result ((k : ModuleId) (x : Name) (t : Namespace) → slot_at all.new.slots k x t
        ≡ fold (λ y i. option_or y (spec.import_to (of_tables maps.now) k x t i)) (slot_at all.old.slots k x t)
        imports.now) }
    ensures each { OnOk result
        (all.new.each.items ≡ all.old.each.items ++ map (asked.meanings_of (of_tables maps.now)) imports.now) }
{
    for import in imports {
        add_import(all, maps, below, import)?;
    }
    Ok(())
}

/// What the imports by name bring, to each slot and each for itself, where `below` is what globs bring.
///
/// Fails only where memory runs out.
pub(crate) fn all_imports(
    alloc: Global,
    maps: &DefMaps<'_>,
    below: &Slots<Joined>,
) -> Result<ByName, AllocError>
    requires known { AreMapsKnown (of_tables maps.now) }
    requires below { IsBrought (of_tables maps.now) below.now }
    requires named { AreAllNamed maps.now.world below.now }
    ensures slots { IfOk result (λ all. (k : ModuleId) (x : Name) (t : Namespace) → slot_at all.slots k x t
        ≡ spec.all_imports (of_tables maps.now) maps.now.imports k x t) }
    ensures each { IfOk result (λ all. all.each.items ≡ map (asked.meanings_of (of_tables maps.now)) maps.now.imports) }
{
    let mut all = ByName {
        slots: Slots::new(alloc),
        each: Vec::new(alloc),
    };
    add_imports(&mut all, maps, below, maps.imports)?;
    Ok(all)
}
