//! `is_supported` and `is_grounded` on a crate with the modules `generic` and `unix`, each with a function `open`, and
//! `sys`, in which `pub use crate::generic::*; pub use crate::unix::open;` stand.
use dm_base::ids::{
    Crate, FileAstId, FileId, FunctionId, MacroCallId, ModuleId, UseId, UseTreeIdx,
};
use dm_base::imports::{GlobId, ImportId, ImportOrExternCrate, ImportOrGlob};
use dm_base::item_ids::{ItemKind, ModuleDefId};
use dm_base::mod_path::{ModPath, PathKind};
use dm_base::name::Name;
use dm_base::per_ns::{Namespace, PerNs};
use dm_base::source::{Edition, EditionedFileId, HirFileId, TreeId};
use dm_base::visibility::Visibility;
use dm_imports::bind::bind_crate;
use dm_imports::declarations::Declarations;
use dm_imports::def_maps::DefMaps;
use dm_imports::glob_import::GlobImport;
use dm_imports::importing::Importing;
use dm_imports::marks::Marks;
use dm_imports::named_import::{ImportKind, NamedImport};
use dm_imports::rules::grounded::is_grounded;
use dm_imports::rules::supported::is_supported;
use dm_imports::slots::Slots;
use dm_imports::step::Step;
use dm_maps::builder::WorldBuilder;
use dm_maps::module_origin::ModuleOrigin;
use dm_maps::world::World;
use dm_scope::glob_imports::PerNsGlobImports;
use std::alloc::{AllocError, Global};

const ROOT: ModuleId = ModuleId(0);

const SYS: ModuleId = ModuleId(3);

/// The modules in the root, each with its name there.
const CHILDREN: [(ModuleId, &'static str); 3] = [
    (ModuleId(1), "generic"),
    (ModuleId(2), "unix"),
    (SYS, "sys"),
];

/// In a macro expansion, so that no module needs a file.
const EXPANDED: ModuleOrigin = ModuleOrigin::Inline {
    definition_tree_id: TreeId {
        file: HirFileId::Macro(MacroCallId(0)),
        block: None,
    },
    definition: FileAstId(0),
};

const GLOB: GlobId = GlobId {
    use_: UseId(0),
    idx: UseTreeIdx(0),
};

const IMPORT: ImportId = ImportId {
    use_: UseId(1),
    idx: UseTreeIdx(0),
};

/// The functions, and the two uses.
fn tables(alloc: Global) -> Option<WorldBuilder> {
    let mut builder = WorldBuilder::new(alloc);
    let file = EditionedFileId {
        file: FileId(0),
        edition: Edition::Edition2021,
    };
    builder.add_crate(Edition::Edition2021, file).ok()?;
    for (_m, name) in CHILDREN {
        let name = Name::new(alloc, name).ok()?;
        builder
            .add_module(ROOT, name, EXPANDED, Visibility::Public)
            .ok()?;
    }
    builder.add_item(ItemKind::Function, ModuleId(1)).ok()?;
    builder.add_item(ItemKind::Function, ModuleId(2)).ok()?;
    builder.add_use(SYS).ok()?;
    builder.add_use(SYS).ok()?;
    Some(builder)
}

/// Binds a name in a module.
fn bind(
    world: &mut World,
    globs: &mut PerNsGlobImports,
    m: ModuleId,
    name: Name,
    items: PerNs,
    import: Option<ImportOrExternCrate>,
) -> Option<bool> {
    if !world.knows_res(m, &items, import) {
        return None;
    }
    world.push_res(globs, (m, name), items, import).ok()
}

/// What `open` is bound to: one of the functions, by an import.
fn open(function: u32, import: Option<ImportOrGlob>) -> PerNs {
    let def = ModuleDefId::FunctionId(FunctionId(function));
    PerNs::values(def, Visibility::Public, import)
}

/// The world, with what is declared.
fn declared(alloc: Global, globs: &mut PerNsGlobImports) -> Option<World> {
    let mut world = tables(alloc)?.check().ok()?;
    for (m, name) in CHILDREN {
        let name = Name::new(alloc, name).ok()?;
        let items = PerNs::types(ModuleDefId::ModuleId(m), Visibility::Public, None);
        bind(&mut world, globs, ROOT, name, items, None)?;
    }
    let name = Name::new(alloc, "open").ok()?;
    bind(&mut world, globs, ModuleId(1), name, open(0, None), None)?;
    let name = Name::new(alloc, "open").ok()?;
    bind(&mut world, globs, ModuleId(2), name, open(1, None), None)?;
    Some(world)
}

/// A path of one or two segments behind `crate`.
fn path(alloc: Global, first: &str, second: Option<&str>) -> Result<ModPath, AllocError> {
    let mut segments = Vec::new(alloc);
    segments.push(Name::new(alloc, first)?)?;
    if let Some(name) = second {
        segments.push(Name::new(alloc, name)?)?;
    }
    Ok(ModPath::from_segments(PathKind::Crate, segments))
}

/// `pub use` of `open` of a module.
fn import(alloc: Global, first: &str) -> Result<NamedImport, AllocError> {
    Ok(NamedImport {
        home: SYS,
        name: Name::new(alloc, "open")?,
        path: path(alloc, first, Some("open"))?,
        vis: Visibility::Public,
        kind: ImportKind::All,
        import: IMPORT,
        textual: None,
    })
}

/// `pub use crate::generic::*;`
fn glob(alloc: Global) -> Result<GlobImport, AllocError> {
    Ok(GlobImport {
        into: SYS,
        path: path(alloc, "generic", None)?,
        vis: Visibility::Public,
        import: GLOB,
    })
}

/// What is imported in `sys`.
struct Uses {
    imports: Vec<NamedImport>,
    globs: Vec<GlobImport>,
    declarations: Declarations,
}

/// A hand-written `Drop`, to keep proofs small: what drops one has one call to prove.
impl Drop for Uses {
    fn drop(self) {
        let Uses {
            imports: _imports,
            globs: _globs,
            declarations: _declarations,
        } = self;
    }
}

fn only<T: Drop>(alloc: Global, one: T) -> Result<Vec<T>, AllocError> {
    let mut list = Vec::new(alloc);
    list.push(one)?;
    Ok(list)
}

/// `pub use` of `open` of a module, and the glob.
fn both_uses(alloc: Global) -> Result<Uses, AllocError> {
    Ok(Uses {
        imports: only(alloc, import(alloc, "unix")?)?,
        globs: only(alloc, glob(alloc)?)?,
        declarations: Declarations::new(alloc),
    })
}

/// `pub use` of `open` of a module alone.
fn one_use(alloc: Global, first: &str) -> Result<Uses, AllocError> {
    Ok(Uses {
        imports: only(alloc, import(alloc, first)?)?,
        globs: Vec::new(alloc),
        declarations: Declarations::new(alloc),
    })
}

fn maps_of<'a>(world: &'a World, uses: &'a Uses, ambiguous: &'a Slots<bool>) -> DefMaps<'a> {
    let marks = Marks {
        table: ambiguous,
        is_all_but: false,
    };
    DefMaps {
        world,
        imports: uses.imports.as_slice(),
        globs: uses.globs.as_slice(),
        declarations: &uses.declarations,
        ambiguous: marks,
    }
}

/// Whether the def maps of a world are supported.
fn are_supported(
    alloc: Global,
    world: &World,
    uses: &Uses,
    ambiguous: &Slots<bool>,
) -> Option<bool> {
    let maps = maps_of(world, uses, ambiguous);
    if !maps.are_imports_known() {
        return None;
    }
    is_supported(alloc, &maps).ok()
}

/// Whether they are grounded.
fn are_grounded(
    alloc: Global,
    world: &World,
    uses: &Uses,
    ambiguous: &Slots<bool>,
) -> Option<bool> {
    let maps = maps_of(world, uses, ambiguous);
    if !maps.are_imports_known() {
        return None;
    }
    is_grounded(alloc, &maps, &[Step::Import(0, Namespace::Values)]).ok()
}

/// Binds what the uses bring.
fn bind_uses(
    world: &mut World,
    flags: &mut PerNsGlobImports,
    ambiguous: &mut Slots<bool>,
    alloc: Global,
    uses: &Uses,
) -> Option<()> {
    let given = Importing {
        imports: uses.imports.as_slice(),
        globs: uses.globs.as_slice(),
        declarations: &uses.declarations,
    };
    let mut steps = Vec::new(alloc);
    bind_crate(world, flags, ambiguous, &mut steps, alloc, &given, Crate(0)).ok()
}

/// What `sys::open` is bound to by some uses, and whether the def maps are supported then.
fn bound_by(alloc: Global, uses: &Uses) -> Option<(PerNs, bool)> {
    let mut flags = PerNsGlobImports::new(alloc);
    let mut world = declared(alloc, &mut flags)?;
    let name = Name::new(alloc, "open").ok()?;
    let mut ambiguous = Slots::new(alloc);
    bind_uses(&mut world, &mut flags, &mut ambiguous, alloc, uses)?;
    let is_right = are_supported(alloc, &world, uses, &ambiguous)?;
    Some((world.bound_in(SYS, &name), is_right))
}

fn bound(alloc: Global) -> Option<(PerNs, bool)> {
    let uses = both_uses(alloc).ok()?;
    bound_by(alloc, &uses)
}

/// The world, with what is declared, in which `sys::open` is a function by an import.
fn declared_and_bound(
    alloc: Global,
    function: u32,
    import_: ImportOrGlob,
    by: ImportOrExternCrate,
) -> Option<World> {
    let mut flags = PerNsGlobImports::new(alloc);
    let mut world = declared(alloc, &mut flags)?;
    let name = Name::new(alloc, "open").ok()?;
    let items = open(function, Some(import_));
    bind(&mut world, &mut flags, SYS, name, items, Some(by))?;
    Some(world)
}

/// Whether the def maps are supported in which `sys::open` is bound so.
fn supports(
    alloc: Global,
    function: u32,
    import_: ImportOrGlob,
    by: ImportOrExternCrate,
) -> Option<bool> {
    let uses = both_uses(alloc).ok()?;
    let world = declared_and_bound(alloc, function, import_, by)?;
    let none = Slots::new(alloc);
    are_supported(alloc, &world, &uses, &none)
}

#[test]
fn an_import_by_name_goes_before_a_glob(rt: HostRuntime) -> Result<(), AllocError> {
    let alloc = rt.alloc();
    let right = supports(
        alloc,
        1,
        ImportOrGlob::Import(IMPORT),
        ImportOrExternCrate::Import(IMPORT),
    );
    assert!(rt; right == Some(true));
    let wrong = supports(
        alloc,
        0,
        ImportOrGlob::Glob(GLOB),
        ImportOrExternCrate::Glob(GLOB),
    );
    assert!(rt; wrong == Some(false));
    Ok(())
}

#[test]
fn bind_crate_binds_what_the_rules_give(rt: HostRuntime) -> Result<(), AllocError> {
    let by = Some(ImportOrGlob::Import(IMPORT));
    assert!(rt; bound(rt.alloc()) == Some((open(1, by), true)));
    Ok(())
}

/// Whether the def maps are grounded in which `sys::open` is the function of `unix`, by an import of `open` of a module.
fn grounds(alloc: Global, first: &str) -> Option<bool> {
    let uses = one_use(alloc, first).ok()?;
    let (import_, by) = (
        ImportOrGlob::Import(IMPORT),
        ImportOrExternCrate::Import(IMPORT),
    );
    let world = declared_and_bound(alloc, 1, import_, by)?;
    let none = Slots::new(alloc);
    are_grounded(alloc, &world, &uses, &none)
}

#[test]
fn an_import_of_itself_has_no_ground(rt: HostRuntime) -> Result<(), AllocError> {
    let alloc = rt.alloc();
    assert!(rt; grounds(alloc, "unix") == Some(true));
    assert!(rt; grounds(alloc, "sys") == Some(false));
    Ok(())
}
