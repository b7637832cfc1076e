//! What is told of crates in their def maps, read back from there; and the files that they lack.
use crate::tests::same;
use crate_items::files::crate_data::CrateData;
use crate_items::files::crate_graph::CrateGraph;
use crate_items::files::file_table::{AddFileError, FileTable};
use crate_items::items::declared_item::{DeclaredItem, declared_items};
use crate_items::items::module_items::module_items;
use crate_items::modules::CrateModules;
use crate_tables::crate_filling::Reading;
use crate_tables::crate_table::CrateTable;
use crate_tables::item_place::UsePlace;
use def_diagnostics::declarations::declaration_faults;
use def_diagnostics::diagnostic::Diagnostic;
use def_diagnostics::item_modules::MappedCrate;
use def_diagnostics::lines::lines;
use def_diagnostics::macro_calls::{MacroCall, macro_calls, unresolved_macro_calls};
use def_diagnostics::map_diagnostics::add_diagnostics;
use def_diagnostics::message::Message;
use def_diagnostics::missing_files::missing_files;
use def_diagnostics::offsets::place_offset;
use def_diagnostics::texts::path_text;
use def_diagnostics::told_in_maps::CallPlace;
use def_diagnostics::told_places::told_place;
use def_diagnostics::unconfigured::unconfigured;
use def_diagnostics::unresolved_globs::unresolved_glob;
use def_diagnostics::unresolved_imports::unresolved_imports;
use dm_base::ids::{Crate, FileId};
use dm_base::source::Edition;
use dm_collector::collect::collect;
use dm_collector::collected::Collected;
use dm_collector::unresolved_names::unresolved_imports as unresolved_places;
use dm_maps::world::World;
use dm_maps::world::maps_of::{AskWorld, crate_def_map};
use dm_scope::diagnostics::{DefDiagnostic, DefDiagnosticKind};
use item_tree::cfg::CfgOptions;
use std::alloc::{AllocError, Global};
use std::fmt::Write;
use std::test::Fail;

/// How many modules a crate may have, and how many rounds its imports may take.
const LIMIT: u32 = 8_192;

/// Crates, collected.
struct Settled {
    files: FileTable,
    graph: CrateGraph,
    collected: Collected,
}

/// A hand-written `Drop`, to keep proofs small: what drops one has one call to prove.
impl Drop for Settled {
    fn drop(self) {
        let Settled {
            files: _files,
            graph: _graph,
            collected: _collected,
        } = self;
    }
}

impl Settled {
    fn world(&self) -> &World {
        &self.collected.world
    }
}

/// The items of a crate.
fn items_of(
    alloc: Global,
    krate: &CrateData,
    list: &CrateModules,
    files: &FileTable,
) -> Result<Vec<DeclaredItem>, AllocError> {
    let rows = module_items(alloc, list)?;
    declared_items(alloc, krate.edition(), list, files, rows.as_slice())
}

/// The macro calls of the crate of a number.
fn calls_of(alloc: Global, settled: &Settled, number: usize) -> Result<Vec<MacroCall>, AllocError> {
    let collected = &settled.collected;
    let (Some(krate), Some(list), Some(table)) = (
        settled.graph.crates().get(number),
        collected.lists.get(number),
        collected.tables.get(number),
    ) else {
        return Ok(Vec::new(alloc));
    };
    let items = items_of(alloc, krate, list, &settled.files)?;
    macro_calls(
        alloc,
        settled.world(),
        list,
        &settled.files,
        table.ids(),
        items.as_slice(),
    )
}

/// Adds more diagnostics.
fn push_all(found: &mut Vec<Diagnostic>, more: Vec<Diagnostic>) -> Result<(), AllocError> {
    for diagnostic in more {
        found.push(diagnostic)?;
    }
    Ok(())
}

/// The number of a crate.
fn numbered(number: usize) -> Crate {
    Crate(u32::try_from(number).unwrap_or(u32::MAX))
}

/// Adds what is told of the declarations of a crate.
fn add_declared(
    found: &mut Vec<Diagnostic>,
    alloc: Global,
    files: &FileTable,
    krate: &CrateData,
    list: &CrateModules,
) -> Result<(), AllocError> {
    let items = items_of(alloc, krate, list, files)?;
    let items = items.as_slice();
    let deps = krate.dependencies();
    push_all(found, declaration_faults(alloc, list, files, deps, items)?)?;
    push_all(found, unconfigured(alloc, list, items)?)
}

/// Adds what is told of the macro calls of the crate of a number.
fn add_calls(
    found: &mut Vec<Diagnostic>,
    alloc: Global,
    settled: &Settled,
    number: usize,
) -> Result<(), AllocError> {
    let calls = calls_of(alloc, settled, number)?;
    push_all(found, unresolved_macro_calls(alloc, calls.as_slice())?)
}

/// Adds what is told of the imports and globs of a crate.
fn add_unresolved(
    found: &mut Vec<Diagnostic>,
    alloc: Global,
    settled: &Settled,
    uses: &[UsePlace],
) -> Result<(), AllocError> {
    let collected = &settled.collected;
    let maps = collected.def_maps();
    let imports = collected.imports.as_slice();
    let places = unresolved_places(alloc, &maps, collected.meanings.as_slice())?;
    push_all(
        found,
        unresolved_imports(alloc, imports, places.as_slice(), uses)?,
    )?;
    for glob in &collected.globs {
        if let Some(diagnostic) = unresolved_glob(&maps, uses, glob) {
            found.push(diagnostic)?;
        }
    }
    Ok(())
}

/// Adds what is told of the crate of a number.
fn add_told(
    found: &mut Vec<Diagnostic>,
    alloc: Global,
    settled: &Settled,
    number: usize,
) -> Result<(), AllocError> {
    let collected = &settled.collected;
    let (Some(krate), Some(list), Some(table)) = (
        settled.graph.crates().get(number),
        collected.lists.get(number),
        collected.tables.get(number),
    ) else {
        return Ok(());
    };
    add_declared(found, alloc, &settled.files, krate, list)?;
    add_calls(found, alloc, settled, number)?;
    add_unresolved(found, alloc, settled, table.uses())
}

/// What is told of the crate of a number.
fn told_of(alloc: Global, settled: &Settled, number: usize) -> Result<Vec<Diagnostic>, AllocError> {
    let mut found = Vec::new(alloc);
    add_told(&mut found, alloc, settled, number)?;
    Ok(found)
}

/// What is told of each crate.
fn told_of_all(alloc: Global, settled: &Settled) -> Result<Vec<Vec<Diagnostic>>, AllocError> {
    let mut all = Vec::new(alloc);
    for number in 0..settled.collected.lists.len() {
        all.push(told_of(alloc, settled, number)?)?;
    }
    Ok(all)
}

/// Adds diagnostics of a crate to its def map, and rows for its macro calls.
fn add_to_map(
    alloc: Global,
    world: &mut World,
    calls: &mut Vec<CallPlace>,
    krate: &MappedCrate<'_>,
    told: &[Diagnostic],
) -> Result<(), AllocError> {
    for call in add_diagnostics(world, alloc, calls.len(), krate, told)? {
        calls.push(call)?;
    }
    Ok(())
}

/// Adds what is told of each crate to its def map. Answers with the table of macro calls.
fn add_to_maps(
    alloc: Global,
    world: &mut World,
    graph: &CrateGraph,
    lists: &[CrateModules],
    tables: &[CrateTable],
    told: &[Vec<Diagnostic>],
) -> Result<Vec<CallPlace>, AllocError> {
    let mut calls = Vec::new(alloc);
    for (number, told) in told.iter().enumerate() {
        let (Some(krate), Some(list), Some(table)) = (
            graph.crates().get(number),
            lists.get(number),
            tables.get(number),
        ) else {
            continue;
        };
        let mapped = MappedCrate {
            krate: numbered(number),
            edition: krate.edition(),
            list,
            ids: table.ids(),
        };
        add_to_map(alloc, world, &mut calls, &mapped, told.as_slice())?;
    }
    Ok(calls)
}

/// What a diagnostic of a def map says.
fn text_of(alloc: Global, diagnostic: &DefDiagnostic) -> Result<String, AllocError> {
    let at = diagnostic.in_module.0;
    match &diagnostic.kind {
        DefDiagnosticKind::UnresolvedModule { candidates, .. } => {
            let mut text = format!(in alloc; "module {at}: no module at")?;
            for path in candidates {
                write!(text, " {path}")?;
            }
            Ok(text)
        }
        DefDiagnosticKind::UnresolvedExternCrate { .. } => {
            format!(in alloc; "module {at}: no extern crate")
        }
        DefDiagnosticKind::UnresolvedImport { index, .. } => {
            format!(in alloc; "module {at}: no import, use tree {}", index.0)
        }
        DefDiagnosticKind::UnconfiguredCode { cfg, opts, .. } => {
            format!(in alloc; "module {at}: condition {} under options {}", cfg.0, opts.0)
        }
        DefDiagnosticKind::UnresolvedMacroCall { path, .. } => {
            let path = path_text(alloc, path)?;
            format!(in alloc; "module {at}: no macro {path}")
        }
        _ => format!(in alloc; "module {at}"),
    }
}

/// A diagnostic of a def map as a message.
fn message_of(
    alloc: Global,
    list: &CrateModules,
    calls: &[CallPlace],
    diagnostic: &DefDiagnostic,
) -> Result<Option<Message>, AllocError> {
    let Some(told) = told_place(calls, diagnostic) else {
        return Ok(None);
    };
    Ok(Some(Message {
        file: told.file,
        offset: place_offset(alloc, list, told.file, told.place)?,
        text: text_of(alloc, diagnostic)?,
    }))
}

/// Adds what the def map of the crate of a number has.
fn push_of_map(
    messages: &mut Vec<Message>,
    alloc: Global,
    world: &World,
    list: &CrateModules,
    calls: &[CallPlace],
    number: usize,
) -> Result<(), AllocError> {
    let krate = numbered(number);
    if !world.has_crate(krate) {
        return Ok(());
    }
    for diagnostic in crate_def_map(world, krate).diagnostics() {
        if let Some(message) = message_of(alloc, list, calls, diagnostic)? {
            messages.push(message)?;
        }
    }
    Ok(())
}

/// Adds the paths that a loader has yet to read for a crate.
fn push_missing(
    out: &mut String,
    alloc: Global,
    list: &CrateModules,
    files: &FileTable,
) -> Result<(), AllocError> {
    for path in missing_files(alloc, list, files)?.paths() {
        let path = std::str::from_utf8(path.as_slice()).unwrap_or("?");
        write!(out, "to be read: {path}\n")?;
    }
    Ok(())
}

/// Adds what is told to the def maps. Answers with the table of macro calls.
fn placed(alloc: Global, settled: &mut Settled) -> Result<Vec<CallPlace>, AllocError> {
    let told = told_of_all(alloc, settled)?;
    let collected = &mut settled.collected;
    add_to_maps(
        alloc,
        &mut collected.world,
        &settled.graph,
        collected.lists.as_slice(),
        collected.tables.as_slice(),
        told.as_slice(),
    )
}

/// What the def maps of the crates have.
fn messages_of(
    alloc: Global,
    world: &World,
    lists: &[CrateModules],
    calls: &[CallPlace],
) -> Result<Vec<Message>, AllocError> {
    let mut messages = Vec::new(alloc);
    for (number, list) in lists.iter().enumerate() {
        push_of_map(&mut messages, alloc, world, list, calls, number)?;
    }
    Ok(messages)
}

/// What the def maps of the crates have, in lines, and the files that these lack.
fn lines_of(alloc: Global, settled: &Settled, calls: &[CallPlace]) -> Result<String, AllocError> {
    let lists = settled.collected.lists.as_slice();
    let messages = messages_of(alloc, settled.world(), lists, calls)?;
    let mut out = lines(alloc, &settled.files, messages)?;
    for list in lists {
        push_missing(&mut out, alloc, list, &settled.files)?;
    }
    Ok(out)
}

/// The same, once what is told is added to the def maps.
fn in_maps(alloc: Global, settled: &mut Settled) -> Result<String, AllocError> {
    let calls = placed(alloc, settled)?;
    lines_of(alloc, settled, calls.as_slice())
}

/// Files of these paths with these texts.
fn files_of(alloc: Global, texts: &[(&str, &str)]) -> Result<FileTable, AllocError> {
    let mut files = FileTable::new(alloc);
    for (path, text) in texts {
        let path = Vec::from_slice(alloc, path.as_bytes())?;
        let text = Vec::from_slice(alloc, text.as_bytes())?;
        match files.add(path, text) {
            Ok(_) | Err(AddFileError::PathExists) => {}
            Err(AddFileError::OutOfMemory) => return Err(AllocError),
        }
    }
    Ok(files)
}

/// So many crates, whose roots are the first files.
fn graph_of(alloc: Global, count: u32) -> Result<CrateGraph, AllocError> {
    let mut graph = CrateGraph::new(alloc);
    for number in 0..count {
        graph.add_crate(CrateData::new(
            FileId(number),
            Edition::Edition2021,
            CfgOptions::new(alloc),
            false,
            Vec::new(alloc),
        ))?;
    }
    Ok(graph)
}

/// So many crates of these files, collected. None where that fails.
fn collected_of(
    alloc: Global,
    count: u32,
    texts: &[(&str, &str)],
) -> Result<Option<Settled>, AllocError> {
    let files = files_of(alloc, texts)?;
    let graph = graph_of(alloc, count)?;
    let reading = Reading {
        files: &files,
        limit: LIMIT,
    };
    match collect(alloc, &graph, &reading) {
        Err(_fault) => Ok(None),
        Ok(collected) => Ok(Some(Settled {
            files,
            graph,
            collected,
        })),
    }
}

/// What the def maps of so many crates of these files have, in lines.
fn told_in(alloc: Global, count: u32, texts: &[(&str, &str)]) -> Result<String, AllocError> {
    match collected_of(alloc, count, texts)? {
        None => String::from_str(alloc, "failed"),
        Some(mut settled) => in_maps(alloc, &mut settled),
    }
}

/// Something of each kind, in two crates.
const EACH_KIND: [(&'static str, &'static str); 3] = [
    (
        "main.rs",
        "mod a;\nextern crate gone;\nuse b::{X, Y};\nuse none::*;\nmissing! {}\nmod b {\n\
\u{20}   use super::Z;\n    mod d;\n    #[cfg(no)]\n    fn f() {}\n    lost! {}\n    pub(in crate::a) struct S;\n\
\u{20}   fn h() {}\n    fn h() {}\n}\ntrait T { #[cfg(no)] fn g(); }\n\
extern \"C\" { #[cfg(no)] fn i(); }\n#[cfg(no)]\nmod e;\n",
    ),
    ("dep.rs", "mod c;\none::two! {}\n"),
    (
        "c.rs",
        "#[cfg(no)]\nstruct S;\n#[path = \"x.rs\"]\nmod g;\nmod h { #[cfg(no)] use a::B; }\n",
    ),
];

/// What is told of these: each kind that def maps have comes back to its line; no second
/// declaration, and no visibility.
const TOLD: &'static str = "main.rs:1:1: module 0: no module at a.rs a/mod.rs\n\
main.rs:2:1: module 0: no extern crate\n\
main.rs:3:9: module 0: no import, use tree 1\n\
main.rs:3:12: module 0: no import, use tree 2\n\
main.rs:4:5: module 0: no import, use tree 0\n\
main.rs:5:1: module 0: no macro missing\n\
main.rs:7:9: module 2: no import, use tree 0\n\
main.rs:8:5: module 2: no module at b/d.rs b/d/mod.rs\n\
main.rs:9:5: module 2: condition 11 under options 0\n\
main.rs:11:5: module 2: no macro lost\n\
main.rs:17:14: module 0: condition 17 under options 0\n\
main.rs:18:1: module 0: condition 8 under options 0\n\
dep.rs:2:1: module 1: no macro one::two\n\
c.rs:1:1: module 3: condition 0 under options 1\n\
c.rs:3:1: module 3: no module at x.rs\n\
c.rs:5:9: module 4: condition 3 under options 1\n\
to be read: a.rs\nto be read: a/mod.rs\n\
to be read: b/d.rs\nto be read: b/d/mod.rs\nto be read: x.rs\n";

/// A module of two files, of which none is to be read, and one of a file within itself.
const TWO_FILES: [(&'static str, &'static str); 3] = [
    (
        "main.rs",
        "mod a;\n#[path = \"main.rs\"]\nmod own;\nfn f() {}\nfn f() {}\n",
    ),
    ("a.rs", ""),
    ("a/mod.rs", ""),
];

#[test]
fn what_is_told_comes_back_to_its_lines(rt: HostRuntime) -> Result<(), Fail> {
    let found = told_in(rt.alloc(), 2, &EACH_KIND)?;
    same(&rt, &found.as_str(), &TOLD);
    Ok(())
}

#[test]
fn of_two_files_none_is_to_be_read(rt: HostRuntime) -> Result<(), Fail> {
    let found = told_in(rt.alloc(), 1, &TWO_FILES)?;
    let wanted = "main.rs:1:1: module 0: no module at a.rs a/mod.rs\n";
    same(&rt, &found.as_str(), &wanted);
    Ok(())
}
