//! Worlds, made by a list of calls of a builder.
mod callers;
mod refused;
mod reported;

use defmap_callers::finding::dumped;
use defmap_callers::maps::{enable_both, one_crate};
use defmap_callers::stays::{declare_in_tables, set_prelude_of};
use dm_base::fields_shape::FieldsShape;
use dm_base::ids::{
    Crate, EnumId, FileAstId, FileId, FunctionId, MacroCallId, MacroRulesId, MapId, ModuleId,
    ProcMacroId, StructId, TraitId,
};
use dm_base::item_ids::{
    AdtId, AssocItemId, ItemContainerId, ItemKind, MacroId, ModuleDefId, VariantId,
};
use dm_base::macros::{MacroCallStyles, MacroExpander, MacroLoc, ProcMacroKind};
use dm_base::name::Name;
use dm_base::source::{AstId, Edition, EditionedFileId, HirFileId, TreeId};
use dm_base::symbol::Symbol;
use dm_base::visibility::{RawVisibility, Visibility, VisibilityExplicitness};
use dm_maps::build_fault::BuildFault;
use dm_maps::builder::WorldBuilder;
use dm_maps::check::held::HeldId;
use dm_maps::check::known_ids::KnownIds;
use dm_maps::fault::WorldFault;
use dm_maps::module_origin::ModuleOrigin;
use dm_maps::world::World;
use dm_scope::diagnostics::DefDiagnostic;
use dm_scope::glob_imports::PerNsGlobImports;
use either::Either;
use std::alloc::{AllocError, Global};

/// The first crate.
const KRATE: Crate = Crate(0);

/// Its root.
const ROOT: ModuleId = ModuleId(0);

/// The map of that crate.
const CRATE_MAP: MapId = MapId {
    krate: KRATE,
    block: None,
};

/// The file that contains each crate.
const FILE: EditionedFileId = EditionedFileId {
    file: FileId(0),
    edition: Edition::Edition2021,
};

/// Where each module is written that is no root.
const INLINE: ModuleOrigin = ModuleOrigin::Inline {
    definition_tree_id: TreeId {
        file: HirFileId::File(FILE),
        block: None,
    },
    definition: FileAstId(0),
};

/// The first of the macros.
const RULES: MacroId = MacroId::MacroRulesId(MacroRulesId(0));

/// The first of the items: a struct in each world.
const STRUCT: StructId = StructId(0);

const THE_STRUCT: ModuleDefId = ModuleDefId::AdtId(AdtId::StructId(STRUCT));

/// The second of them, an enum, the third, a function, and the fourth, a trait, in the worlds that have these.
const ENUM: EnumId = EnumId(1);

const FUNCTION: FunctionId = FunctionId(2);

const TRAIT: TraitId = TraitId(3);

fn ast(item: u32) -> AstId {
    AstId {
        file_id: HirFileId::File(FILE),
        value: FileAstId(item),
    }
}

/// A call of a builder, or of a scope that it lends. Modules are told by their numbers.
#[derive(Clone, Copy)]
enum Call {
    Crate,
    Module(u32, &'static str),
    Block(u32),
    Use(u32),
    Item(ItemKind, u32),
    Variant,
    Rules,
    ProcMacro,
    /// A module, a name, and what it declares as a type under that name.
    Declare(u32, &'static str, ModuleDefId),
    RawName,
    Prelude(u32),
    MacroUse,
    Extern(u32),
    MacroDef,
    DeriveHelper,
    Diagnostic,
    Fields,
    Associated,
    Trait,
    RecursionLimit,
    NoStd,
    NoCore,
    Coherence,
    Tool,
    Feature,
    Features,
    FunctionOfProcMacro,
}

/// A builder, and the flags of globs.
struct Building {
    builder: WorldBuilder,
    globs: PerNsGlobImports,
}

/// A hand-written `Drop`, since both dropped in each function would be proved there each time.
impl Drop for Building {
    fn drop(self) {
        let Building {
            builder: _builder,
            globs: _globs,
        } = self;
    }
}

/// A checked world, and the flags of globs.
struct Bound {
    world: World,
    globs: PerNsGlobImports,
}

/// A hand-written `Drop`, as for a builder.
impl Drop for Bound {
    fn drop(self) {
        let Bound {
            world: _world,
            globs: _globs,
        } = self;
    }
}

/// What a check found; where it found a fault, the tables are dropped.
fn outcome(
    checked: Result<World, (WorldBuilder, WorldFault)>,
    globs: PerNsGlobImports,
) -> Option<Bound> {
    match checked {
        Ok(world) => Some(Bound { world, globs }),
        Err((_builder, _fault)) => None,
    }
}

/// The visibilities of two fields.
fn two_fields(alloc: Global) -> Result<Vec<RawVisibility>, AllocError> {
    let mut fields = Vec::new(alloc);
    fields.push(RawVisibility::Public)?;
    fields.push(RawVisibility::PubCrate)?;
    Ok(fields)
}

impl Building {
    /// One crate.
    fn new(alloc: Global) -> Result<Building, BuildFault> {
        Ok(Building {
            builder: one_crate(alloc, FILE)?,
            globs: PerNsGlobImports::new(alloc),
        })
    }

    /// The world, if there is one, and the flags.
    fn bound(self) -> Option<Bound> {
        let Building { builder, globs } = self;
        outcome(builder.check(), globs)
    }

    /// A call.
    fn make(&mut self, alloc: Global, call: Call) -> Result<(), BuildFault> {
        match call {
            Call::Crate => {
                self.builder.add_crate(Edition::Edition2021, FILE)?;
                Ok(())
            }
            Call::Module(m, name) => {
                let name = Name::new(alloc, name)?;
                self.builder
                    .add_module(ModuleId(m), name, INLINE, Visibility::Public)?;
                Ok(())
            }
            Call::Block(m) => {
                self.builder.add_block(ModuleId(m), ast(0))?;
                Ok(())
            }
            Call::Use(m) => {
                self.builder.add_use(ModuleId(m))?;
                Ok(())
            }
            Call::Item(kind, m) => {
                self.builder.add_item(kind, ModuleId(m))?;
                Ok(())
            }
            Call::Variant => {
                let name = Name::new(alloc, "V")?;
                self.builder.add_variant(ENUM, name, FieldsShape::Tuple)?;
                Ok(())
            }
            Call::Declare(m, name, def) => self.declare(alloc, ModuleId(m), name, def),
            other => self.tell(alloc, other),
        }
    }

    /// Declares a type.
    fn declare(
        &mut self,
        alloc: Global,
        m: ModuleId,
        name: &str,
        def: ModuleDefId,
    ) -> Result<(), BuildFault> {
        let lookup = (m, Name::new(alloc, name)?);
        if self.builder.knows(HeldId::Module(m)) {
            declare_in_tables(&mut self.builder, &mut self.globs, lookup, def)?;
        }
        Ok(())
    }

    /// A call that adds a macro, or an entry of a map.
    fn tell(&mut self, alloc: Global, call: Call) -> Result<(), BuildFault> {
        match call {
            Call::Rules => {
                let styles = MacroCallStyles::FN_LIKE;
                let loc = MacroLoc::MacroRules(MacroExpander::Declarative { styles });
                self.builder.add_macro(ROOT, loc)?;
                Ok(())
            }
            Call::ProcMacro => {
                let loc = MacroLoc::Proc(ProcMacroKind::CustomDerive);
                self.builder.add_macro(ROOT, loc)?;
                Ok(())
            }
            Call::Prelude(m) => set_prelude_of(&mut self.builder, CRATE_MAP, ModuleId(m)),
            Call::MacroUse => {
                let name = Name::new(alloc, "mu")?;
                self.builder.add_macro_use(CRATE_MAP, name, RULES, None)
            }
            Call::Extern(m) => {
                let name = Name::new(alloc, "dep")?;
                self.builder.add_extern(KRATE, name, ModuleId(m), None)
            }
            Call::MacroDef => self.builder.add_macro_def(CRATE_MAP, ast(4), RULES),
            Call::DeriveHelper => {
                let name = Name::new(alloc, "helper")?;
                let call = Either::Left(MacroCallId(0));
                self.builder
                    .add_derive_helper(CRATE_MAP, ast(2), name, RULES, call)
            }
            other => self.tell_of_items(alloc, other),
        }
    }

    /// A call that adds a diagnostic or a raw name, or says who sees something.
    fn tell_of_items(&mut self, alloc: Global, call: Call) -> Result<(), BuildFault> {
        match call {
            Call::Diagnostic => {
                let diagnostic = DefDiagnostic::unresolved_extern_crate(ROOT, ast(3));
                self.builder.add_diagnostic(CRATE_MAP, diagnostic)
            }
            Call::RawName => {
                let name = Name::new(alloc, "type")?;
                self.builder.add_raw_name(name)
            }
            Call::Fields => {
                let fields = two_fields(alloc)?;
                self.builder.set_fields(VariantId::StructId(STRUCT), fields)
            }
            Call::Associated => self.builder.set_assoc(
                AssocItemId::FunctionId(FUNCTION),
                ItemContainerId::TraitId(TRAIT),
                RawVisibility::PubCrate,
            ),
            Call::Trait => {
                let vis = RawVisibility::PubSelf(VisibilityExplicitness::Explicit);
                self.builder.set_trait_visibility(TRAIT, vis)
            }
            other => self.tell_of_crate(alloc, other),
        }
    }

    /// A call that sets data of the first crate.
    fn tell_of_crate(&mut self, alloc: Global, call: Call) -> Result<(), BuildFault> {
        match call {
            Call::RecursionLimit => self.builder.set_recursion_limit(KRATE, 4),
            Call::NoStd => self.builder.set_no_std(KRATE),
            Call::NoCore => self.builder.set_no_core(KRATE),
            Call::Coherence => self.builder.set_coherence_is_core(KRATE),
            Call::Tool => {
                let tool = Symbol::new(alloc, "tool")?;
                self.builder.add_tool(KRATE, tool)
            }
            Call::Feature => {
                let feature = Symbol::new(alloc, "first")?;
                self.builder.add_feature(KRATE, feature)
            }
            Call::Features => {
                let second = Symbol::new(alloc, "second")?;
                let third = Symbol::new(alloc, "third")?;
                enable_both(&mut self.builder, alloc, KRATE, second, third)
            }
            _ => self.builder.set_proc_macro(KRATE, FUNCTION, ProcMacroId(1)),
        }
    }
}

/// The world of some calls, each made again where it fails; none where a check finds a fault.
fn world_of(alloc: Global, calls: &[Call]) -> Option<Bound> {
    let mut building = again!(Building::new(alloc)).ok()?;
    for call in calls {
        again!(building.make(alloc, *call)).ok()?;
    }
    building.builder.shrink_to_fit();
    building.bound()
}

/// The dump of the first crate, asked again where it fails.
fn dump_of(world: &World) -> Option<String> {
    if !world.has_crate(KRATE) {
        return None;
    }
    again!(dumped(world, KRATE)).ok()
}
