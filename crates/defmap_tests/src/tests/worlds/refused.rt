//! Fault injection: each call of a builder, a push into a checked world, and what is asked of a world and allocates.
//! What is generic over worlds, or over closures that are called with its maps, is asked too.
mod local_maps;
mod rounds;

use super::{
    Bound, Call, ENUM, FUNCTION, KRATE, ROOT, RULES, STRUCT, THE_STRUCT, TRAIT, ast, dump_of,
    world_of,
};
use crate::tests::{a_name, path, same};
use defmap_callers::finding::offered;
use defmap_callers::maps::{Refused, bring_by_glob, child_outwards};
use defmap_callers::paths::meaning_in_root;
use dm_base::ids::{Crate, EnumVariantId, ModuleId, ProcMacroId, UseId, UseTreeIdx};
use dm_base::imports::GlobId;
use dm_base::item_ids::{AdtId, AssocItemId, ItemKind, MacroId, ModuleDefId, VariantId};
use dm_base::item_in_ns::ItemInNs;
use dm_base::mod_path::PathKind;
use dm_base::module_tree::ModuleTree;
use dm_base::name::Name;
use dm_base::per_ns::PerNs;
use dm_base::symbol::Symbol;
use dm_base::visibility::Visibility;
use dm_maps::def_map::DefMap;
use dm_maps::world::World;
use dm_scope::scope_tables::ScopeTables;
use hir_def_map::visibility::VariantFields;
use std::alloc::Global;

/// The root of the second crate.
const OTHER_ROOT: ModuleId = ModuleId(1);

/// A module in a block of the first crate's root.
const INNER: ModuleId = ModuleId(4);

/// Each call, and of those that add to a list the second time.
const CALLS: [Call; 36] = [
    Call::Crate,
    Call::Module(0, "a"),
    Call::Block(0),
    Call::Module(3, "n"),
    Call::Use(0),
    Call::Item(ItemKind::Struct, 2),
    Call::Item(ItemKind::Enum, 1),
    Call::Item(ItemKind::Function, 0),
    Call::Item(ItemKind::Trait, 0),
    Call::Variant,
    Call::Rules,
    Call::ProcMacro,
    Call::Declare(0, "a", ModuleDefId::ModuleId(ModuleId(2))),
    Call::Declare(0, "type", THE_STRUCT),
    Call::Declare(1, "E", ModuleDefId::AdtId(AdtId::EnumId(ENUM))),
    Call::RawName,
    Call::Prelude(2),
    Call::MacroUse,
    Call::Extern(1),
    Call::MacroDef,
    Call::DeriveHelper,
    Call::DeriveHelper,
    Call::Diagnostic,
    Call::Diagnostic,
    Call::Fields,
    Call::Associated,
    Call::Trait,
    Call::RecursionLimit,
    Call::NoStd,
    Call::NoCore,
    Call::Coherence,
    Call::Tool,
    Call::Tool,
    Call::Feature,
    Call::Features,
    Call::FunctionOfProcMacro,
];

/// A glob import of the first use.
const GLOB: GlobId = GlobId {
    use_: UseId(0),
    idx: UseTreeIdx(0),
};

impl Bound {
    /// Brings the struct into the root by the glob.
    fn bring(&mut self, alloc: Global) -> Result<bool, Refused> {
        let lookup = (ROOT, Name::new(alloc, "brought")?);
        let items = PerNs::types(THE_STRUCT, Visibility::Public, None);
        bring_by_glob(&mut self.world, &mut self.globs, lookup, items, GLOB)
    }
}

/// What a crate's data is: the limit, three flags, how many tools there are, and which macro the function is.
type Data = (u32, [bool; 3], usize, Option<ProcMacroId>);

/// What a map's own tables have: the prelude, a macro by its item, and how many diagnostics and derive helpers.
type Tables = (
    Option<(ModuleId, Option<UseId>)>,
    Option<MacroId>,
    usize,
    usize,
);

/// What a map tells.
fn told_by(map: &DefMap) -> (Data, Tables) {
    let flags = [
        map.is_no_std(),
        map.is_no_core(),
        map.is_rustc_coherence_is_core(),
    ];
    let tools = map.registered_tools().len();
    let proc_macro = map.fn_as_proc_macro(FUNCTION);
    let helpers = match map.derive_helpers_in_scope(ast(2)) {
        None => 0,
        Some(helpers) => helpers.len(),
    };
    let diagnostics = map.diagnostics().len();
    let by_item = map.macro_def_to_macro_id(ast(4));
    (
        (map.recursion_limit(), flags, tools, proc_macro),
        (map.prelude(), by_item, diagnostics, helpers),
    )
}

/// Whether the function and the trait have their visibilities; and whether there is a crate, a module or a use more
/// than were added.
fn has(world: &World) -> [bool; 5] {
    [
        world
            .raw_assoc_of(AssocItemId::FunctionId(FUNCTION))
            .is_some(),
        world.raw_trait_of(TRAIT).is_some(),
        world.has_crate(Crate(2)),
        world.has(ModuleId(5)),
        world.use_container(UseId(1)).is_some(),
    ]
}

/// Whether the first crate has a feature.
fn is_enabled(alloc: Global, world: &World, feature: &str) -> Option<bool> {
    let feature = again!(Symbol::new(alloc, feature)).ok()?;
    Some(world.map_of(ROOT)?.features().is_enabled(&feature))
}

/// What a path means in the root of the first crate.
fn meaning(alloc: Global, world: &World, names: &[&str]) -> Option<PerNs> {
    let path = again!(path(alloc, PathKind::Plain, names)).ok()?;
    if !world.has_crate(KRATE) || !world.knows_path(&path) {
        return None;
    }
    Some(meaning_in_root(world, KRATE, &path))
}

/// How many fields the struct has.
fn field_count(alloc: Global, world: &World) -> Option<usize> {
    if !world.knows_def(ModuleDefId::AdtId(AdtId::StructId(STRUCT))) {
        return None;
    }
    let variant = VariantId::StructId(STRUCT);
    let fields = again!(VariantFields::field_visibilities(alloc, world, variant)).ok()?;
    Some(fields.len())
}

type Asked = (usize, Option<Crate>, Option<ModuleId>);

/// How many names a module offers, if there is one.
fn offered_count(world: &World, m: ModuleId) -> Option<usize> {
    if !world.knows_def(ModuleDefId::ModuleId(m)) {
        return None;
    }
    let names = again!(offered(world, m)).ok()?;
    Some(names.len())
}

/// How many names the root offers, the crate of the second root, and the child `a` of the module in the block, or of one
/// outwards.
fn asked(alloc: Global, world: &World) -> Option<Asked> {
    let count = offered_count(world, ROOT)?;
    let name = a_name(alloc, "a").ok()?;
    let root = ItemInNs::Types(ModuleDefId::ModuleId(OTHER_ROOT));
    let child = child_outwards(world, INNER, &name);
    Some((count, root.krate(world), child))
}

/// What is read of the tables; the features of each call that sets some; what a variant of the second crate means and
/// what the macro of the `macro_use` prelude; the fields; and what else is asked.
type Told = (
    (Data, Tables),
    [bool; 5],
    [bool; 2],
    [PerNs; 2],
    usize,
    Asked,
);

fn told(alloc: Global, world: &World) -> Option<Told> {
    let features = [
        is_enabled(alloc, world, "first")?,
        is_enabled(alloc, world, "third")?,
    ];
    let meanings = [
        meaning(alloc, world, &["dep", "E", "V"])?,
        meaning(alloc, world, &["mu"])?,
    ];
    let fields = field_count(alloc, world)?;
    let asked = asked(alloc, world)?;
    let by_map = told_by(world.map_of(ROOT)?);
    Some((by_map, has(world), features, meanings, fields, asked))
}

/// The world's dump in the end, whether the glob wrote something, and what else is told.
fn end(alloc: Global) -> Option<(String, bool, Told)> {
    let mut bound = world_of(alloc, &CALLS)?;
    let brought = again!(bound.bring(alloc)).ok()?;
    let told = told(alloc, &bound.world)?;
    let text = dump_of(&bound.world)?;
    Some((text, brought, told))
}

#[test]
fn a_refused_call_of_a_builder_is_made_again(rt: HostRuntime) {
    let (text, brought, told) = end(rt.alloc()).expect(&rt, "a world");
    same(
        &rt,
        &text.as_str(),
        &"crate
- a : type
- brought : type (glob)
- r#type : type

crate::a
",
    );
    assert!(rt; brought);
    let variant = ModuleDefId::EnumVariantId(EnumVariantId(0));
    let meanings = [
        PerNs::both(variant, variant, Visibility::Public, None),
        PerNs::macros(RULES, Visibility::Public, None),
    ];
    let data = (4, [true; 3], 7, Some(ProcMacroId(1)));
    let tables = (Some((ModuleId(2), None)), Some(RULES), 2, 2);
    let has = [true, true, false, false, false];
    let asked = (3, Some(Crate(1)), Some(ModuleId(2)));
    let wanted = ((data, tables), has, [true; 2], meanings, 2, asked);
    same(&rt, &told, &wanted);
}
