//! What is told of the crates that are asked about: of their declarations, and of the imports and
//! macro calls that lead nowhere; and how much in each crate leads nowhere and may be hidden by a
//! macro.
use crate::macro_view::{MacroView, calls_of};
use crate::settled::Settled;
use crate_items::files::crate_graph::CrateGraph;
use crate_items::items::declared_item::DeclaredItem;
use crate_items::modules::CrateModules;
use def_diagnostics::declarations::declaration_faults;
use def_diagnostics::diagnostic::{Diagnostic, DiagnosticKind, Place};
use def_diagnostics::lines::lines;
use def_diagnostics::macro_calls::{MacroCall, unresolved_macro_calls};
use def_diagnostics::message::{Message, message_of, push_messages};
use def_diagnostics::unconfigured::unconfigured;
use def_diagnostics::unresolved_globs::leads_nowhere;
use def_diagnostics::unresolved_imports::ambiguous_imports;
use defmap_answers::ambiguous::Ambiguities;
use defmap_answers::crates::{Crates, crate_name, is_asked, numbered};
use dm_base::ids::{UseId, UseTreeIdx};
use std::alloc::{AllocError, Global};
use std::fmt::Write;

/// What tells of crates.
struct Teller<'a> {
    alloc: Global,
    settled: &'a Settled,
    view: MacroView,
    /// The imports whose paths come to ambiguous names.
    ambiguous: Ambiguities,
    messages: Vec<Message>,
    /// How much is unknown in each crate.
    unknown: Vec<u32>,
}

/// A hand-written `Drop`, to keep proofs small: what drops one has one call to prove.
impl<'a> Drop for Teller<'a> {
    fn drop(self) {
        let Teller {
            alloc: _alloc,
            settled: _settled,
            view: _view,
            ambiguous: _ambiguous,
            messages: _messages,
            unknown: _unknown,
        } = self;
    }
}

/// As many zeros.
fn zeros(alloc: Global, count: usize) -> Result<Vec<u32>, AllocError> {
    let mut zeros = Vec::new(alloc);
    for _number in 0..count {
        zeros.push(0)?;
    }
    Ok(zeros)
}

/// What is told of an import that leads nowhere, as its path comes to an ambiguous name or not.
fn kind_of(is_ambiguous: bool) -> DiagnosticKind {
    if is_ambiguous {
        DiagnosticKind::AmbiguousImport
    } else {
        DiagnosticKind::UnresolvedImport
    }
}

impl<'a> Teller<'a> {
    fn new(alloc: Global, settled: &'a Settled) -> Result<Teller<'a>, AllocError> {
        Ok(Teller {
            alloc,
            settled,
            view: MacroView::new(alloc, settled)?,
            ambiguous: Ambiguities::of(alloc, settled)?,
            messages: Vec::new(alloc),
            unknown: zeros(alloc, settled.names().len())?,
        })
    }

    /// Counts something that is unknown in a crate.
    fn count_unknown(&mut self, krate: usize) {
        if let Some(count) = self.unknown.get_mut(krate) {
            *count = count.saturating_add(1);
        }
    }

    /// Adds what is told of an import that leads nowhere, unless a macro may hide what it imports.
    fn add_import(
        &mut self,
        kind: DiagnosticKind,
        is_hidden: bool,
        (use_, idx): (UseId, UseTreeIdx),
    ) -> Result<(), AllocError> {
        let settled = self.settled;
        let Some(place) = settled.use_place(use_).copied() else {
            return Ok(());
        };
        if !is_asked(settled, numbered(place.krate)) {
            return Ok(());
        }
        if is_hidden {
            self.count_unknown(place.krate);
            return Ok(());
        }
        let Some(list) = settled.lists().get(place.krate) else {
            return Ok(());
        };
        let diagnostic = Diagnostic {
            file: place.file,
            place: Place::UseTree(place.item, idx),
            kind,
        };
        self.messages
            .push(message_of(self.alloc, list, &diagnostic)?)?;
        Ok(())
    }

    /// Adds what is told of named imports.
    fn add_imports(&mut self) -> Result<(), AllocError> {
        let settled = self.settled;
        for place in settled.unresolved() {
            let Some(import) = settled.collected.imports.get(*place) else {
                continue;
            };
            let (home, path) = (import.home, &import.path);
            let is_hidden = self
                .view
                .hides_import(self.alloc, settled.world(), home, path)?;
            let kind = kind_of(self.ambiguous.named.contains_key(place));
            self.add_import(kind, is_hidden, (import.import.use_, import.import.idx))?;
        }
        Ok(())
    }

    /// Adds what is told of globs.
    fn add_globs(&mut self) -> Result<(), AllocError> {
        let settled = self.settled;
        let world = settled.world();
        let maps = settled.collected.def_maps();
        for (place, glob) in settled.collected.globs.iter().enumerate() {
            let is_ambiguous = self.ambiguous.globs.contains_key(&place);
            if is_ambiguous || leads_nowhere(&maps, glob) {
                let is_hidden = self
                    .view
                    .hides_import(self.alloc, world, glob.into, &glob.path)?;
                let kind = kind_of(is_ambiguous);
                self.add_import(kind, is_hidden, (glob.import.use_, glob.import.idx))?;
            }
        }
        Ok(())
    }

    /// Adds what is told of declarations of a crate which lead nowhere or are made twice.
    fn add_faults(
        &mut self,
        graph: &CrateGraph,
        number: usize,
        list: &CrateModules,
        items: &[DeclaredItem],
    ) -> Result<(), AllocError> {
        let Some(krate) = graph.crates().get(number) else {
            return Ok(());
        };
        let files = self.settled.files();
        let faults = declaration_faults(self.alloc, list, files, krate.dependencies(), items)?;
        push_messages(&mut self.messages, self.alloc, list, faults.as_slice())
    }

    /// Adds what `cfg` takes away of a crate.
    fn add_inactive(
        &mut self,
        list: &CrateModules,
        items: &[DeclaredItem],
    ) -> Result<(), AllocError> {
        let inactive = unconfigured(self.alloc, list, items)?;
        push_messages(&mut self.messages, self.alloc, list, inactive.as_slice())
    }

    /// The macro calls of the crate of a number that lead nowhere, without those that a macro may
    /// hide, which are counted.
    fn wrong_calls(&mut self, number: usize) -> Result<Vec<MacroCall>, AllocError> {
        let mut wrong = Vec::new(self.alloc);
        for call in calls_of(self.alloc, self.settled, number)? {
            let world = self.settled.world();
            if call.called.is_none() && self.view.hides_call(self.alloc, world, &call)? {
                self.count_unknown(number);
            } else {
                wrong.push(call)?;
            }
        }
        Ok(wrong)
    }

    /// Adds what is told of the macro calls of the crate of a number.
    fn add_calls(&mut self, number: usize, list: &CrateModules) -> Result<(), AllocError> {
        let wrong = self.wrong_calls(number)?;
        let told = unresolved_macro_calls(self.alloc, wrong.as_slice())?;
        push_messages(&mut self.messages, self.alloc, list, told.as_slice())
    }

    /// Adds what is told of the imports of ambiguous names of the crate of a number.
    fn add_ambiguous(&mut self, number: usize, list: &CrateModules) -> Result<(), AllocError> {
        let collected = &self.settled.collected;
        let Some(table) = collected.tables.get(number) else {
            return Ok(());
        };
        let (imports, meanings) = (collected.imports.as_slice(), collected.meanings.as_slice());
        let told = ambiguous_imports(self.alloc, imports, meanings, table.uses())?;
        push_messages(&mut self.messages, self.alloc, list, told.as_slice())
    }

    /// Adds what is told of the declarations, of the macro calls and of ambiguous imports of the crate of a number.
    fn add_crate(
        &mut self,
        graph: &CrateGraph,
        number: usize,
        list: &CrateModules,
    ) -> Result<(), AllocError> {
        let settled = self.settled;
        if let Some(items) = settled.items().get(number) {
            self.add_faults(graph, number, list, items.as_slice())?;
            self.add_inactive(list, items.as_slice())?;
        }
        self.add_calls(number, list)?;
        self.add_ambiguous(number, list)
    }

    /// Adds what is told of the crates, import by import and call by call.
    fn add_crates(&mut self, graph: &CrateGraph) -> Result<(), AllocError> {
        let settled = self.settled;
        for (number, list) in settled.lists().iter().enumerate() {
            if is_asked(settled, numbered(number)) {
                self.add_crate(graph, number, list)?;
            }
        }
        self.add_imports()?;
        self.add_globs()
    }

    /// The messages, and how much is unknown in each crate.
    fn into_parts(self) -> (Vec<Message>, Vec<u32>) {
        let Teller {
            alloc: _alloc,
            settled: _settled,
            view: _view,
            ambiguous: _ambiguous,
            messages,
            unknown,
        } = self;
        (messages, unknown)
    }
}

/// Adds how much is unknown in each crate.
fn push_unknown(out: &mut String, settled: &Settled, unknown: &[u32]) -> Result<(), AllocError> {
    for (number, count) in unknown.iter().enumerate() {
        if *count > 0 {
            let name = crate_name(settled, numbered(number));
            write!(out, "{name}: {count} unknown\n")?;
        }
    }
    Ok(())
}

/// What is told of the crates that are asked about.
fn told_of<'a>(
    alloc: Global,
    settled: &'a Settled,
    graph: &CrateGraph,
) -> Result<Teller<'a>, AllocError> {
    let mut teller = Teller::new(alloc, settled)?;
    teller.add_crates(graph)?;
    Ok(teller)
}

/// Adds what is told of these crates, each in a line, and how much in each is unknown.
pub(crate) fn push_diagnostics(
    out: &mut String,
    alloc: Global,
    settled: &Settled,
    graph: &CrateGraph,
) -> Result<(), AllocError> {
    let (messages, unknown) = told_of(alloc, settled, graph)?.into_parts();
    out.push_str(lines(alloc, settled.files(), messages)?.as_str())?;
    push_unknown(out, settled, unknown.as_slice())
}
