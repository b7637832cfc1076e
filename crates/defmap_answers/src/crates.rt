//! `Crates`: what the answers ask of crates that are collected.
use crate::associated::AssociatedItem;
use crate::places::ItemPlace;
use crate_items::files::file_table::FileTable;
use crate_items::items::declared_item::DeclaredItem;
use crate_items::modules::CrateModules;
use dm_base::ids::{Crate, EnumId, EnumVariantId, ExternCrateId, ModuleId, UseId};
use dm_base::imports::ImportId;
use dm_base::item_ids::{MacroId, ModuleDefId};
use dm_base::mod_path::ModPath;
use dm_base::name::Name;
use dm_base::per_ns::{Namespace, PerNs};
use dm_base::visibility::Visibility;
use dm_imports::container::Container;
use dm_imports::glob_import::GlobImport;
use dm_imports::meaning::Meaning;
use dm_imports::named_import::NamedImport;
use dm_imports::rules::meanings::ImportMeanings;
use hir_def_map::result::ResolvePathResult;
use std::alloc::{AllocError, Global};

/// Crates that are collected, with what was read of them.
///
/// The answers are proved for any such crates, and so without the many types of a world, and before it is proved how
/// crates are collected.
pub trait Crates {
    fn files(&self) -> &FileTable;

    /// The name of each crate.
    fn names(&self) -> &[String];

    /// The crate that is asked about; none where all are.
    fn asked(&self) -> Option<Crate>;

    /// Whether a crate is one of procedural macros.
    fn is_procedural(&self, krate: usize) -> bool;

    /// The modules of each crate.
    fn lists(&self) -> &[CrateModules];

    /// The items of each crate.
    fn items(&self) -> &[Vec<DeclaredItem>];

    /// The ids of the modules of a crate, in the order of its list.
    fn module_ids(&self, krate: usize) -> &[Option<ModuleId>];

    /// Where a use is written.
    fn use_place(&self, use_: UseId) -> Option<&ItemPlace>;

    /// Where an `extern crate` is written.
    fn extern_place(&self, id: ExternCrateId) -> Option<ItemPlace>;

    /// The root of a crate.
    fn root_of(&self, krate: Crate) -> Option<ModuleId>;

    /// Whether a crate is of edition 2015.
    fn is_2015(&self, krate: Crate) -> bool;

    /// The root of a crate, and the use there that names its prelude.
    fn naming_use(&self, krate: Crate) -> Option<(ModuleId, UseId)>;

    /// The crate of a module.
    fn krate_of(&self, m: ModuleId) -> Option<Crate>;

    /// The root of the map that a module lies in.
    fn map_root(&self, m: ModuleId) -> Option<ModuleId>;

    /// The module around a module.
    fn parent_of(&self, m: ModuleId) -> Option<ModuleId>;

    /// The child that a module has under a name.
    fn child_of(&self, m: ModuleId, name: &Name) -> Option<ModuleId>;

    /// The name that a module has in the one around it.
    fn child_name(&self, parent: ModuleId, m: ModuleId) -> Option<&Name>;

    /// The children of a module, in the order of their names.
    fn children(&self, alloc: Global, m: ModuleId) -> Result<Vec<(&Name, ModuleId)>, AllocError>;

    /// What a module binds, in the order of the names.
    fn entries(&self, alloc: Global, m: ModuleId) -> Result<Vec<(&Name, PerNs)>, AllocError>;

    /// Who sees each trait that a module has without a name, and the import that brought it.
    fn unnamed_traits(
        &self,
        alloc: Global,
        m: ModuleId,
    ) -> Result<Vec<(Visibility, Option<ImportId>)>, AllocError>;

    /// What a module binds under a name.
    fn bound_in(&self, m: ModuleId, name: &Name) -> PerNs;

    /// Whether it depends on the order of imports what a name of a module means.
    fn depends_on_order(&self, m: ModuleId, name: &Name, namespace: Namespace) -> bool;

    /// The last textual macro of a name in a module.
    fn textual_macro(&self, m: ModuleId, name: &Name) -> Option<MacroId>;

    /// The module that declares a definition.
    fn item_home(&self, def: ModuleDefId) -> Option<ModuleId>;

    /// The name that a module declares a definition under.
    fn declared_name(&self, home: ModuleId, def: ModuleDefId) -> Option<&Name>;

    /// Where a definition is written.
    fn def_place(&self, def: ModuleDefId) -> Option<ItemPlace>;

    /// Whether a module sees what has a visibility.
    fn sees(&self, from: ModuleId, visibility: Visibility) -> bool;

    /// The names of the variants of an enum, in the order in which they are written.
    fn variants(&self, alloc: Global, e: EnumId) -> Result<Vec<&Name>, AllocError>;

    /// The associated items of traits and of plain inherent implementations, of all crates.
    fn associated_items(&self, alloc: Global) -> Result<Vec<AssociatedItem>, AllocError>;

    /// The enum of a variant.
    fn enum_of(&self, variant: EnumVariantId) -> Option<EnumId>;

    /// The name of a variant of an enum.
    fn variant_name(&self, e: EnumId, variant: EnumVariantId) -> Option<&Name>;

    /// What a path of an import means in a module.
    fn import_meaning(&self, m: ModuleId, path: &ModPath) -> Option<ResolvePathResult>;

    /// What a path that is no import's means in a module.
    fn meaning(&self, m: ModuleId, path: &ModPath) -> Option<ResolvePathResult>;

    /// What the path of a macro that is called means in a module.
    fn macro_meaning(&self, m: ModuleId, path: &ModPath) -> Option<ResolvePathResult>;

    /// The named imports of all crates.
    fn imports(&self) -> &[NamedImport];

    /// The globs of all crates.
    fn globs(&self) -> &[GlobImport];

    /// The named imports that mean nothing, by their places.
    fn unresolved(&self) -> &[usize];

    /// What the named import at a place means.
    fn import_meanings(&self, place: usize) -> Option<ImportMeanings>;

    /// What a path means for a module by the rules of imports. `textual` is the textual macro of its name there.
    fn meaning_by_rules(
        &self,
        home: ModuleId,
        textual: Option<MacroId>,
        path: &ModPath,
        namespace: Namespace,
    ) -> Option<Meaning>;

    /// The module or enum that a glob's path means.
    fn source(&self, glob: &GlobImport) -> Option<Container>;

    /// Whether the path of a glob means neither a module nor an enum.
    fn leads_nowhere(&self, glob: &GlobImport) -> bool;

    /// Whether a glob offers its module a name.
    fn offers(&self, glob: &GlobImport, name: &Name, namespace: Namespace) -> bool;
}

/// Whether a crate is asked about.
pub fn is_asked<C: Crates>(crates: &C, krate: Crate) -> bool {
    match crates.asked() {
        None => true,
        Some(asked) => asked == krate,
    }
}

/// The crates that are asked about, in their order.
pub fn asked_crates<C: Crates>(alloc: Global, crates: &C) -> Result<Vec<Crate>, AllocError> {
    let mut asked = Vec::new(alloc);
    for number in 0..crates.names().len() {
        let krate = numbered(number);
        if is_asked(crates, krate) {
            asked.push(krate)?;
        }
    }
    Ok(asked)
}

/// The crate of a number.
pub fn numbered(number: usize) -> Crate {
    Crate(u32::try_from(number).unwrap_or(u32::MAX))
}

/// The name of a crate.
pub fn crate_name<C: Crates>(crates: &C, krate: Crate) -> &str {
    match crates.names().get(krate.0 as usize) {
        None => "?",
        Some(name) => name.as_str(),
    }
}
