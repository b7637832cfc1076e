//! Sorted lists of what a scope has; each is allocated.
ghost use Rattle.std.specs.Prelude.{◌≡◌, ◌++◌, ◌∷◌, [], None, IfOk, OnOk, map};
ghost use Rattle.std.specs.List.{filter_map};
ghost use Rattle.dm_scope.specs.Scope.{bound_in};
ghost use Rattle.dm_base.specs.Imports.{named_import};
ghost use Rattle.dm_scope.specs.Sorted.{seen, deref_entry, AreNames, AreEntries, imports_of, AreImports, deref_resolution, named_resolution, AreResolutions, unnamed_resolution, unnamed_type};

use super::ItemScope;
use crate::name_order::{sorted_names, sorted_once};
use dm_base::ids::TraitId;
use dm_base::import_source::ImportSource;
use dm_base::imports::{ImportId, ImportOrExternCrate};
use dm_base::item_ids::ModuleDefId;
use dm_base::name::Name;
use dm_base::per_ns::PerNs;
use dm_base::visibility::Visibility;
use std::alloc::AllocError;

impl ItemScope {
    /// The names that are bound or unresolved, in order of their bytes, each with what it is bound to. Fails where
    /// memory runs out.
    pub fn entries(&self) -> Result<Vec<(&Name, PerNs)>, AllocError>
        ensures { IfOk result (λ v. AreEntries (map deref_entry v.items) self.now) }
    {
        let names = self.sorted_names()?;
        let entries = self.paired(names.as_slice())?;
        Ok(entries)
    }

    /// The names that are bound or unresolved, in order of their bytes.
    pub(super) fn sorted_names(&self) -> Result<Vec<&Name>, AllocError>
        ensures { IfOk result (λ v. AreNames (seen v.items) self.now) }
    {
        let types = self.types.names().iter();
        let bound = types.chain(self.values.names()).chain(self.macros.names());
        let sorted = sorted_names(bound.chain(self.rare.unresolved()), self.alloc)?;
        Ok(sorted)
    }

    /// Each name with what it is bound to.
    fn paired<'a>(&'a self, names: &[&'a Name]) -> Result<Vec<(&'a Name, PerNs)>, AllocError>
        ensures { IfOk result
            (λ v. map deref_entry v.items ≡ map (λ n. (n, bound_in self.now n)) (seen names.now)) }
    {
        let mut entries = Vec::new(self.alloc);
        for name in names {
            entries.push((*name, self.get(*name)))?;
        }
        Ok(entries)
    }

    /// The named imports that have a record in any namespace, in order of their uses, then of their places there. Fails
    /// where memory runs out.
    pub fn imports(&self) -> Result<Vec<ImportId>, AllocError>
        ensures { IfOk result (λ v. AreImports ⟦<ImportId as Ord>⟧.cmp v.items self.now) }
    {
        let imports = self.all_imports()?;
        let sorted = sorted_once(imports.into_iter(), self.alloc)?;
        Ok(sorted)
    }

    /// The named imports that have a record, each as often as it has one.
    fn all_imports(&self) -> Result<Vec<ImportId>, AllocError>
        ensures { IfOk result (λ v. v.items ≡ imports_of self.now) }
    {
        let mut imports = Vec::new(self.alloc);
        add_imports(&mut imports, self.types.imports())?;
        add_imports(&mut imports, self.values.imports())?;
        add_imports(&mut imports, self.macros.imports())?;
        Ok(imports)
    }

    /// The entries, in order of their names, and then the unnamed traits, in order of import, each as a type. Fails
    /// where memory runs out.
    pub fn resolutions(&self) -> Result<Vec<(Option<&Name>, PerNs)>, AllocError>
        ensures { IfOk result (λ v. AreResolutions (map deref_resolution v.items) self.now) }
    {
        let entries = self.entries()?;
        let mut resolutions = Vec::new(self.alloc);
        add_entries(&mut resolutions, entries.as_slice())?;
        add_unnamed(&mut resolutions, self.rare.unnamed_traits())?;
        Ok(resolutions)
    }
}

/// Adds entries.
fn add_entries<'a>(
    resolutions: &mut Vec<(Option<&'a Name>, PerNs)>,
    entries: &[(&'a Name, PerNs)],
) -> Result<(), AllocError>
    ensures { OnOk result
        (map deref_resolution resolutions.new.items
        ≡ map deref_resolution resolutions.old.items
        ++ map named_resolution (map deref_entry entries.now)) }
{
    for (name, res) in entries {
        resolutions.push((Some(*name), *res))?;
    }
    Ok(())
}

/// Adds unnamed traits.
fn add_unnamed(
    resolutions: &mut Vec<(Option<&Name>, PerNs)>,
    traits: &[(TraitId, Visibility, Option<ImportId>)],
) -> Result<(), AllocError>
    ensures { OnOk result
        (map deref_resolution resolutions.new.items
        ≡ map deref_resolution resolutions.old.items ++ map unnamed_resolution traits.now) }
{
    for unnamed in traits {
        add_without_name(resolutions, resolution_of(unnamed))?;
    }
    Ok(())
}

/// Adds what something without a name resolves to.
fn add_without_name(
    resolutions: &mut Vec<(Option<&Name>, PerNs)>,
    res: PerNs,
) -> Result<(), AllocError>
    ensures { OnOk result
        (map deref_resolution resolutions.new.items
        ≡ map deref_resolution resolutions.old.items ++ (None, res) ∷ []) }
{
    resolutions.push((None, res))?;
    Ok(())
}

/// What an unnamed trait resolves to.
pub(super) fn resolution_of(unnamed: &(TraitId, Visibility, Option<ImportId>)) -> PerNs
    ensures { result ≡ unnamed_type unnamed.now }
{
    let import = unnamed.2.map(ImportOrExternCrate::Import);
    PerNs::types(ModuleDefId::TraitId(unnamed.0), unnamed.1, import)
}

/// Adds the named imports among the imports of a namespace.
fn add_imports<I: ImportSource>(imports: &mut Vec<ImportId>, more: &[I]) -> Result<(), AllocError>
    ensures { OnOk result
        (imports.new.items
        ≡ imports.old.items ++ filter_map (λ i. named_import (I.widened i)) more.now) }
{
    for import in more {
        if let ImportOrExternCrate::Import(id) = import.widen() {
            imports.push(id)?;
        }
    }
    Ok(())
}
