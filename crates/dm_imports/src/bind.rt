//! Imports and globs, bound in the def maps of a world.
ghost use Rattle.std.specs.Prelude.{◌≡◌, Contains, true};
ghost use Rattle.dm_imports.specs.Bound as spec;

use crate::glob_import::GlobImport;
use crate::importing::Importing;
use crate::meaning::{Meaning, Source};
use crate::named_import::NamedImport;
use crate::search::results::{Binding, Outcome};
use crate::search::search;
use crate::slots::Slots;
use crate::step::Step;
use dm_base::ids::{Crate, ModuleId};
use dm_base::imports::{ImportOrExternCrate, ImportOrGlob};
use dm_base::item_ids::ModuleDefId;
use dm_base::name::Name;
use dm_base::per_ns::{Namespace, PerNs};
use dm_maps::world::World;
use dm_scope::glob_imports::PerNsGlobImports;
use std::alloc::{AllocError, Global};

/// The import or glob by which something came.
fn import_of(source: Source) -> Option<ImportOrExternCrate>
    ensures { result ≡ spec.import_of source }
{
    match source {
        Source::Declaration => None,
        Source::Import(id) => Some(ImportOrExternCrate::Import(id)),
        Source::Glob(id) => Some(ImportOrExternCrate::Glob(id)),
    }
}

/// The same of a value.
fn value_import_of(source: Source) -> Option<ImportOrGlob>
    ensures { result ≡ spec.value_import_of source }
{
    match source {
        Source::Declaration => None,
        Source::Import(id) => Some(ImportOrGlob::Import(id)),
        Source::Glob(id) => Some(ImportOrGlob::Glob(id)),
    }
}

/// A macro, if a definition is one.
fn macro_of(meaning: Meaning) -> PerNs
    ensures { result ≡ spec.macro_of meaning }
{
    match meaning.def {
        ModuleDefId::MacroId(id) => PerNs::macros(id, meaning.vis, import_of(meaning.source)),
        _ => PerNs::none(),
    }
}

/// What is pushed for a meaning in a namespace.
fn items_of(namespace: Namespace, meaning: Meaning) -> PerNs
    ensures { result ≡ spec.items_of namespace meaning }
{
    match namespace {
        Namespace::Types => PerNs::types(meaning.def, meaning.vis, import_of(meaning.source)),
        Namespace::Values => {
            PerNs::values(meaning.def, meaning.vis, value_import_of(meaning.source))
        }
        Namespace::Macros => macro_of(meaning),
    }
}

/// Binds a slot, if the world has all that its meaning names.
fn push(
    world: &mut World,
    flags: &mut PerNsGlobImports,
    m: ModuleId,
    name: Name,
    namespace: Namespace,
    meaning: Meaning,
) -> Result<(), AllocError>
    ensures bound { spec.IsBoundOrSame (record { home = m; name = name; namespace = namespace; meaning = meaning })
        (record { world = world.old; flags = flags.old }) (record { world = world.new; flags = flags.new }) }
    ensures shown { spec.IsShownOrSame (record { home = m; name = name; namespace = namespace; meaning = meaning })
        (record { world = world.old; flags = flags.old }) (record { world = world.new; flags = flags.new }) }
{
    let items = items_of(namespace, meaning);
    let import = import_of(meaning.source);
    if !world.knows_res(m, &items, import) {
        return Ok(());
    }
    world.push_res(flags, (m, name), items, import)?;
    Ok(())
}

/// Binds the slot of an import.
fn push_import(
    world: &mut World,
    flags: &mut PerNsGlobImports,
    alloc: Global,
    given: &Importing<'_>,
    import: &NamedImport,
    namespace: Namespace,
    meaning: Meaning,
) -> Result<(), AllocError>
    requires { Contains given.now.imports.now import.now }
    ensures { spec.AreBound given.now.imports.now given.now.globs.now (record { world = world.old; flags = flags.old })
        (record { world = world.new; flags = flags.new }) }
{
    let name = import.name.copy(alloc)?;
    let source = Source::Import(import.import);
    push(
        world,
        flags,
        import.home,
        name,
        namespace,
        Meaning { source, ..meaning },
    )
}

/// Binds a slot that a glob has a name for.
fn push_glob(
    world: &mut World,
    flags: &mut PerNsGlobImports,
    given: &Importing<'_>,
    glob: &GlobImport,
    name: Name,
    namespace: Namespace,
    meaning: Meaning,
) -> Result<(), AllocError>
    requires { Contains given.now.globs.now glob.now }
    ensures { spec.AreBound given.now.imports.now given.now.globs.now (record { world = world.old; flags = flags.old })
        (record { world = world.new; flags = flags.new }) }
{
    let source = Source::Glob(glob.import);
    push(
        world,
        flags,
        glob.into,
        name,
        namespace,
        Meaning { source, ..meaning },
    )
}

/// Binds a slot by the import or glob that brings what was found.
fn bind(
    world: &mut World,
    flags: &mut PerNsGlobImports,
    alloc: Global,
    given: &Importing<'_>,
    binding: Binding,
) -> Result<(), AllocError>
    ensures { spec.AreBound given.now.imports.now given.now.globs.now (record { world = world.old; flags = flags.old })
        (record { world = world.new; flags = flags.new }) }
{
    let Binding {
        by,
        m: _m,
        name,
        namespace,
        meaning,
    } = binding;
    match by {
        Step::Import(place, _) => match given.imports.get(place) {
            None => Ok(()),
            Some(import) => { push_import(world, flags, alloc, given, import, namespace, meaning) }
        },
        Step::Glob(place) => match given.globs.get(place) {
            None => Ok(()),
            Some(glob) => push_glob(world, flags, given, glob, name, namespace, meaning),
        },
    }
}

/// Binds what was found of some slots.
fn bind_all(
    world: &mut World,
    flags: &mut PerNsGlobImports,
    alloc: Global,
    given: &Importing<'_>,
    bindings: Vec<Binding>,
) -> Result<(), AllocError>
    ensures { spec.AreBound given.now.imports.now given.now.globs.now (record { world = world.old; flags = flags.old })
        (record { world = world.new; flags = flags.new }) }
{
    for binding in bindings {
        bind(world, flags, alloc, given, binding)?;
    }
    Ok(())
}

/// Marks the slots that are ambiguous.
fn mark(ambiguous: &mut Slots<bool>, bindings: &[Binding]) -> Result<(), AllocError> {
    for binding in bindings {
        if binding.meaning.is_ambiguous {
            ambiguous.put(binding.m, &binding.name, binding.namespace, true)?;
        }
    }
    Ok(())
}

/// Appends steps.
fn append(steps: &mut Vec<Step>, taken: &[Step]) -> Result<(), AllocError> {
    for step in taken {
        steps.push(*step)?;
    }
    Ok(())
}

/// Binds what the imports and globs of a crate bring, where those of all crates that it depends on are bound, and marks
/// the slots that are ambiguous. Of one crate it is called once, when its modules bind what they declare.
///
/// To `steps` come the imports in the order in which they were found to bring something, and among them the globs as their
/// sources were found. Nothing is claimed of that.
///
/// Whether that is what the rules give, `is_supported` tells.
///
/// # Errors
///
/// Fails only where memory runs out: then some of it may be bound.
pub fn bind_crate(
    world: &mut World,
    flags: &mut PerNsGlobImports,
    ambiguous: &mut Slots<bool>,
    steps: &mut Vec<Step>,
    alloc: Global,
    given: &Importing<'_>,
    krate: Crate,
) -> Result<(), AllocError>
    // What is bound now and was not before came by these imports and globs.
    ensures { spec.AreBound given.now.imports.now given.now.globs.now (record { world = world.old; flags = flags.old })
        (record { world = world.new; flags = flags.new }) }
{
    let Outcome {
        bindings,
        steps: taken,
    } = search(alloc, world, given, krate, ambiguous)?;
    mark(ambiguous, bindings.as_slice())?;
    append(steps, taken.as_slice())?;
    bind_all(world, flags, alloc, given, bindings)
}
