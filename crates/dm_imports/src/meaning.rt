//! `Meaning`: what a name of a module means in one namespace.
ghost use Rattle.std.specs.Prelude.{◌≡◌};
ghost use Rattle.std.proofs.Common.{rules};
ghost use Rattle.std.specs.Option.{option_map};
ghost use Rattle.dm_imports.specs.Meanings as spec;

use dm_base::imports::{GlobId, ImportId, ImportOrExternCrate, ImportOrGlob};
use dm_base::item_ids::ModuleDefId;
use dm_base::per_ns::{MacrosItem, Namespace, PerNs, TypesItem, ValuesItem};
use dm_base::value_eq::ValueEq;
use dm_base::visibility::Visibility;

/// By what a name came into its module.
#[derive(Clone, Copy, PartialEq, Eq, Debug)]
pub enum Source {
    /// An item that stands there, or an extern crate.
    Declaration,
    Import(ImportId),
    Glob(GlobId),
}

/// What a name of a module means in one namespace.
#[derive(Clone, Copy, PartialEq, Eq, Debug)]
pub struct Meaning {
    pub def: ModuleDefId,
    pub vis: Visibility,
    pub source: Source,
    /// Whether globs bring other definitions too, of which none goes before the others.
    pub is_ambiguous: bool,
}

impl ValueEq for Source {
    ghost same = { Prim.search rules };
}

fn source_of(import: Option<ImportOrExternCrate>) -> Source
    ensures { result ≡ spec.source_of import }
{
    match import {
        None => Source::Declaration,
        Some(ImportOrExternCrate::ExternCrate(_)) => Source::Declaration,
        Some(ImportOrExternCrate::Import(id)) => Source::Import(id),
        Some(ImportOrExternCrate::Glob(id)) => Source::Glob(id),
    }
}

fn value_source(import: Option<ImportOrGlob>) -> Source
    ensures { result ≡ spec.value_source import }
{
    match import {
        None => Source::Declaration,
        Some(ImportOrGlob::Import(id)) => Source::Import(id),
        Some(ImportOrGlob::Glob(id)) => Source::Glob(id),
    }
}

fn type_meaning(item: TypesItem) -> Meaning
    ensures { result ≡ spec.type_meaning item }
{
    Meaning {
        def: item.def,
        vis: item.vis,
        source: source_of(item.import),
        is_ambiguous: false,
    }
}

fn value_meaning(item: ValuesItem) -> Meaning
    ensures { result ≡ spec.value_meaning item }
{
    Meaning {
        def: item.def,
        vis: item.vis,
        source: value_source(item.import),
        is_ambiguous: false,
    }
}

fn macro_meaning(item: MacrosItem) -> Meaning
    ensures { result ≡ spec.macro_meaning item }
{
    Meaning {
        def: ModuleDefId::MacroId(item.def),
        vis: item.vis,
        source: source_of(item.import),
        is_ambiguous: false,
    }
}

pub(crate) fn type_in(item: Option<TypesItem>) -> Option<Meaning>
    ensures { result ≡ option_map spec.type_meaning item }
{
    let item = item?;
    Some(type_meaning(item))
}

fn value_in(item: Option<ValuesItem>) -> Option<Meaning>
    ensures { result ≡ option_map spec.value_meaning item }
{
    let item = item?;
    Some(value_meaning(item))
}

fn macro_in(item: Option<MacrosItem>) -> Option<Meaning>
    ensures { result ≡ option_map spec.macro_meaning item }
{
    let item = item?;
    Some(macro_meaning(item))
}

/// The item of a namespace, if there is one.
pub fn in_namespace(items: &PerNs, namespace: Namespace) -> Option<Meaning>
    ensures { result ≡ spec.in_namespace namespace items.now }
{
    match namespace {
        Namespace::Types => type_in(items.types),
        Namespace::Values => value_in(items.values),
        Namespace::Macros => macro_in(items.macros),
    }
}

/// What is there by itself, and seen by all.
pub(crate) fn public_def(def: ModuleDefId) -> Meaning
    ensures { result ≡ spec.public_def def }
{
    Meaning {
        def,
        vis: Visibility::Public,
        source: Source::Declaration,
        is_ambiguous: false,
    }
}
