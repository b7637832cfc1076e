//! Fault injection: each call that grows a scope, each that lists one or prints it, and lists of diagnostics.
ghost use Rattle.std.specs.Iterator.{IsFinite};

use super::{Filled, HERE, in_all, rules, structure};
use crate::tests::{gives, same};
use defmap_callers::finding::is_exported;
use defmap_callers::modules::Modules;
use defmap_callers::scopes::{imported_type, say_the_same};
use dm_base::ids::{
    AttrId, BuiltinDeriveImplId, ConstId, ExternBlockId, ExternCrateId, FileAstId, FileId, ImplId,
    MacroCallId, TraitId, UseId, UseTreeIdx,
};
use dm_base::imports::{GlobId, ImportId, ImportOrExternCrate};
use dm_base::item_ids::ModuleDefId;
use dm_base::item_in_ns::ItemInNs;
use dm_base::name::Name;
use dm_base::source::{AstId, Edition, EditionedFileId, HirFileId};
use dm_base::visibility::Visibility;
use dm_scope::diagnostics::{DefDiagnostic, DefDiagnostics};
use dm_scope::item_scope::ItemScope;
use std::alloc::{AllocError, Global};
use std::test::Fail;

/// A named import of use 0.
const FIRST: ImportId = ImportId {
    use_: UseId(0),
    idx: UseTreeIdx(1),
};

/// Another one.
const SECOND: ImportId = ImportId {
    use_: UseId(0),
    idx: UseTreeIdx(2),
};

/// The glob import of use 0.
const GLOB: ImportOrExternCrate = ImportOrExternCrate::Glob(GlobId {
    use_: UseId(0),
    idx: UseTreeIdx(0),
});

const EXTERN_CRATE: ImportOrExternCrate = ImportOrExternCrate::ExternCrate(ExternCrateId(0));

/// A name, the number of what is pushed under it in all namespaces, the import, and the answer. An empty push has no
/// number.
type Push = (&'static str, Option<u32>, Option<ImportOrExternCrate>, bool);

/// What is pushed, in order: by globs and by imports, under vacant and under bound names; empty pushes; and by an
/// extern crate.
fn pushes() -> [Push; 9] {
    let first = Some(ImportOrExternCrate::Import(FIRST));
    let second = Some(ImportOrExternCrate::Import(SECOND));
    [
        ("B", Some(5), second, true),
        ("A", Some(0), Some(GLOB), true),
        ("A", Some(1), Some(GLOB), false),
        ("A", Some(2), first, true),
        ("A", Some(3), first, true),
        ("A", Some(4), second, false),
        ("x", None, None, true),
        ("x", None, None, false),
        ("e", Some(6), Some(EXTERN_CRATE), true),
    ]
}

/// What else grows a scope.
#[derive(Clone, Copy)]
enum Growth {
    Declare,
    Impl(bool),
    BuiltinDeriveImpl,
    ExternBlock,
    ExternCrate,
    UnnamedConst,
    UnnamedTrait,
    LegacyMacro,
    AttributeMacro,
    MacroCall,
    DeriveAttribute,
}

/// Each, and of those that add to a list the second time.
const GROWTHS: [Growth; 14] = [
    Growth::Declare,
    Growth::Impl(false),
    Growth::Impl(true),
    Growth::BuiltinDeriveImpl,
    Growth::ExternBlock,
    Growth::ExternCrate,
    Growth::UnnamedConst,
    Growth::UnnamedTrait,
    Growth::LegacyMacro,
    Growth::LegacyMacro,
    Growth::AttributeMacro,
    Growth::MacroCall,
    Growth::DeriveAttribute,
    Growth::DeriveAttribute,
];

/// An item of file 0.
fn ast(item: u32) -> AstId {
    AstId {
        file_id: HirFileId::File(EditionedFileId {
            file: FileId(0),
            edition: Edition::Edition2021,
        }),
        value: FileAstId(item),
    }
}

impl Filled {
    /// One call that is no push.
    fn add(&mut self, alloc: Global, growth: Growth) -> Result<(), AllocError> {
        let scope = &mut self.scope;
        match growth {
            Growth::Declare => scope.declare(structure(0)),
            Growth::Impl(is_of_trait) => scope.define_impl(ImplId(0), is_of_trait),
            Growth::BuiltinDeriveImpl => scope.define_builtin_derive_impl(BuiltinDeriveImplId(0)),
            Growth::ExternBlock => scope.define_extern_block(ExternBlockId(0)),
            Growth::ExternCrate => scope.define_extern_crate_decl(ExternCrateId(0)),
            Growth::UnnamedConst => scope.define_unnamed_const(ConstId(0)),
            Growth::UnnamedTrait => {
                scope.push_unnamed_trait(TraitId(0), Visibility::Public, Some(FIRST))
            }
            Growth::LegacyMacro => scope.define_legacy_macro(Name::new(alloc, "A")?, rules(0)),
            Growth::AttributeMacro => scope.add_attr_macro_invoc(ast(1), MacroCallId(1)),
            Growth::MacroCall => scope.add_macro_invoc(ast(2), MacroCallId(2)),
            Growth::DeriveAttribute => {
                scope.init_derive_attribute(ast(3), AttrId(0), MacroCallId(3), 2)
            }
        }
    }
}

/// A scope after all of these, and whether each push answered as it should.
fn grown(alloc: Global) -> Result<(Filled, bool), AllocError> {
    let mut filled = Filled::new(alloc);
    let mut as_told = true;
    for (name, number, import, wanted) in pushes() {
        let answer = again!(filled.push(alloc, name, in_all(number), import))?;
        as_told = as_told && answer == wanted;
    }
    for growth in GROWTHS {
        again!(filled.add(alloc, growth))?;
    }
    filled.scope.shrink_to_fit();
    Ok((filled, as_told))
}

/// How many things are listed.
fn length_of<I: Iterator + Drop>(listed: I) -> usize
where
    I::Item: Drop,
    requires can { I.can_next listed }
    requires finite { IsFinite (I.remaining listed) }
{
    let mut length = 0usize;
    for _thing in listed {
        length = length.saturating_add(1);
    }
    length
}

/// How long the lists are to which these calls add.
fn lengths(scope: &ItemScope) -> [usize; 10] {
    [
        length_of(scope.declarations()),
        length_of(scope.trait_impls()),
        length_of(scope.inherent_impls()),
        length_of(scope.builtin_derive_impls()),
        length_of(scope.extern_blocks()),
        length_of(scope.extern_crate_decls()),
        length_of(scope.unnamed_consts()),
        length_of(scope.attr_macro_invocs()),
        length_of(scope.iter_macro_invoc()),
        length_of(scope.derive_macro_invocs()),
    ]
}

/// How many entries, imports and resolutions are listed in order.
fn listed(scope: &ItemScope) -> Result<[usize; 3], AllocError> {
    let entries = again!(scope.entries())?;
    let imports = again!(scope.imports())?;
    let resolutions = again!(scope.resolutions())?;
    Ok([entries.len(), imports.len(), resolutions.len()])
}

/// The dump of a scope alone, and the type that the first import resolves to in it.
fn dumped(alloc: Global, scope: &ItemScope) -> Result<(String, Option<ModuleDefId>), AllocError> {
    let modules = Modules {
        scopes: Vec::new(alloc),
    };
    let imported = imported_type(&modules, scope, FIRST);
    let mut text = String::new(alloc);
    again!(scope.dump(&modules, &mut text))?;
    Ok((text, imported))
}

/// Whether each push answered as it should, the lengths of the lists, what the first import resolves to, and whether
/// the scope declares the struct that it shows to all.
type Told = (
    bool,
    [usize; 10],
    [usize; 3],
    Option<ModuleDefId>,
    Option<bool>,
);

/// The dump of the scope in the end, and what else is told of it.
fn end(alloc: Global) -> Result<(String, Told), AllocError> {
    let (filled, as_told) = grown(alloc)?;
    let (text, imported) = dumped(alloc, &filled.scope)?;
    let listed = listed(&filled.scope)?;
    let exported = is_exported(&filled.scope, ItemInNs::Types(structure(3)));
    let lengths = lengths(&filled.scope);
    Ok((text, (as_told, lengths, listed, imported, exported)))
}

#[test]
fn a_refused_call_of_a_scope_is_made_again(rt: HostRuntime) -> Result<(), Fail> {
    let (text, told) = end(rt.alloc())?;
    same(
        &rt,
        &text.as_str(),
        &"- _ : type (import)
- A : type (import) value (import) macro! (import)
- B : type (import) value (import) macro! (import)
- e : type (extern) value macro! (extern)
- x : _
- (legacy) A : macro! macro!
",
    );
    let lengths = [1, 1, 1, 1, 1, 1, 1, 1, 1, 1];
    let imported = Some(structure(3));
    let wanted = (true, lengths, [4, 2, 5], imported, Some(false));
    same(&rt, &told, &wanted);
    Ok(())
}

/// A list of one diagnostic. Where an allocation fails, what was handed in is dropped.
fn diagnosed(alloc: Global) -> Result<DefDiagnostics, AllocError> {
    let mut diagnostics = again!(Vec::with_capacity(alloc, 1))?;
    diagnostics.push(DefDiagnostic::unresolved_extern_crate(HERE, ast(1)))?;
    DefDiagnostics::new(alloc, diagnostics)
}

fn cloned(diagnostics: &DefDiagnostics) -> Result<DefDiagnostics, AllocError> {
    Ok(diagnostics.clone()?)
}

/// Whether the clone of such a list says the same.
fn is_cloned(alloc: Global) -> Result<bool, AllocError> {
    let diagnostics = again!(diagnosed(alloc))?;
    let copy = again!(cloned(&diagnostics))?;
    Ok(say_the_same(&copy, &diagnostics) && copy.iter().len() == 1)
}

#[test]
fn a_refused_list_of_diagnostics_is_made_again(rt: HostRuntime) -> Result<(), Fail> {
    gives(&rt, is_cloned(rt.alloc()), true)
}
