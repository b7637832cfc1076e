//! The modules of a crate, with what each binds, as a tree.
use crate::associated::{AssociatedItem, AssociatedItems};
use crate::crates::{Crates, crate_name};
use crate::definitions::{kind_word, value_word};
use crate::hiding::push_hiding;
use crate::meanings::meant_in;
use crate::places::{definition_spot, file_location, import_spot, import_word, item_spot};
use crate::rows::{Location, Row, push_row};
use crate::shown::{module_path, visibility_text};
use crate::survey::Survey;
use crate::tree_rows::{BareRow, Heading, HiddenRow, NameRow};
use dm_base::ids::{Crate, EnumId, ModuleId};
use dm_base::imports::ImportOrExternCrate;
use dm_base::item_ids::{AdtId, ModuleDefId};
use dm_base::name::Name;
use dm_base::per_ns::{Namespace, PerNs};
use dm_base::visibility::Visibility;
use std::alloc::{AllocError, Global};

/// What of a tree is shown.
#[derive(Clone, Copy)]
pub struct TreePart<'a> {
    /// How many levels of modules; all where nothing is said.
    pub depth: Option<u32>,
    /// Words for kinds, with commas between; all where nothing is said.
    pub kinds: Option<&'a str>,
    pub only_public: bool,
    pub has_variants: bool,
    /// Whether the items of traits and of plain inherent implementations are.
    pub has_assoc: bool,
}

/// A name of a module that is still to be shown.
#[derive(Clone, Copy)]
struct Entry<'s> {
    depth: u32,
    home: ModuleId,
    name: &'s Name,
    items: PerNs,
}

/// What shows the modules of a crate.
struct Tree<'v, 'a, 'p, C: Crates> {
    survey: &'v Survey<'a, C>,
    part: TreePart<'p>,
    associated: AssociatedItems,
    out: String,
    /// What is still to be shown, the next last.
    left: Vec<Entry<'a>>,
}

/// A hand-written `Drop`, to keep proofs small: what drops one has one call to prove.
impl<'v, 'a, 'p, C: Crates> Drop for Tree<'v, 'a, 'p, C> {
    fn drop(self) {
        let Tree {
            survey: _survey,
            part: _part,
            associated: _associated,
            out: _out,
            left: _left,
        } = self;
    }
}

/// The module that something declares, if it is one.
fn module_of(items: PerNs) -> Option<ModuleId> {
    let item = items.types?;
    match (item.def, item.import) {
        (ModuleDefId::ModuleId(m), None) => Some(m),
        _ => None,
    }
}

/// Whether two modules are of one crate. In edition 2015 the root of a crate binds that of the standard library.
fn is_beside<C: Crates>(crates: &C, m: ModuleId, other: ModuleId) -> bool {
    crates.map_root(m) == crates.map_root(other)
}

/// What something declares as a type.
fn declared(items: PerNs) -> Option<ModuleDefId> {
    let item = items.types?;
    match item.import {
        None => Some(item.def),
        Some(_) => None,
    }
}

/// The enum that something declares, if it is one.
fn enum_of(items: PerNs) -> Option<EnumId> {
    let item = items.types?;
    match (item.def, item.import) {
        (ModuleDefId::AdtId(AdtId::EnumId(e)), None) => Some(e),
        _ => None,
    }
}

/// Whether a list of words has the first word of a kind.
fn is_listed(words: &str, kind: &str) -> bool {
    let first = kind.split(' ').next().unwrap_or(kind);
    for word in words.split(',') {
        if word == first {
            return true;
        }
    }
    false
}

impl<'a> TreePart<'a> {
    /// Whether what has a kind and a visibility is shown. Modules are, since others stand in them.
    fn shows(self, kind: &str, visibility: Visibility) -> bool {
        if self.only_public && visibility != Visibility::Public {
            return false;
        }
        match self.kinds {
            None => true,
            Some(words) => kind == "mod" || is_listed(words, kind),
        }
    }

    /// Whether what stands in a module at a depth is shown.
    fn goes_into(self, depth: u32) -> bool {
        match self.depth {
            None => true,
            Some(levels) => depth < levels,
        }
    }
}

impl<'v, 'a, 'p, C: Crates> Tree<'v, 'a, 'p, C> {
    fn alloc(&self) -> Global {
        self.survey.hidden.alloc()
    }

    fn crates(&self) -> &'a C {
        self.survey.hidden.crates()
    }

    /// Adds a row.
    fn add<R: Row>(&mut self, row: &R) -> Result<(), AllocError> {
        let (alloc, style) = (self.alloc(), self.survey.style);
        push_row(&mut self.out, alloc, style, row)
    }

    /// Where something was declared, or where the import stands that brought it.
    fn origin(
        &self,
        def: ModuleDefId,
        import: Option<ImportOrExternCrate>,
    ) -> Result<Option<Location<'a>>, AllocError> {
        let spot = match import {
            None => definition_spot(self.crates(), def),
            Some(import) => import_spot(self.alloc(), self.crates(), import)?,
        };
        match spot {
            None => Ok(None),
            Some(spot) => Ok(Some(self.survey.lines.location(spot))),
        }
    }

    /// Adds what a name is in a namespace, if it is anything that is shown.
    fn add_meant(&mut self, entry: Entry<'a>, namespace: Namespace) -> Result<(), AllocError> {
        let Some(meant) = meant_in(entry.items, namespace) else {
            return Ok(());
        };
        let kind = match namespace {
            Namespace::Values => value_word(meant.def),
            _ => kind_word(meant.def),
        };
        if !self.part.shows(kind, meant.visibility) {
            return Ok(());
        }
        let crates = self.crates();
        let row = NameRow {
            reason: "name",
            depth: entry.depth,
            kind,
            name: entry.name.as_str(),
            visibility: visibility_text(self.alloc(), crates, entry.home, meant.visibility)?,
            import: meant.import.map(import_word),
            at: self.origin(meant.def, meant.import)?,
            by_order: crates.depends_on_order(entry.home, entry.name, namespace),
        };
        self.add(&row)
    }

    /// Adds a name that an import would bind which leads nowhere.
    fn add_missing(&mut self, entry: Entry<'a>) -> Result<(), AllocError> {
        let notes = &self.survey.hidden.notes;
        let is_unknown = notes.cause_of_name(entry.home, entry.name).is_some();
        self.add(&BareRow {
            reason: "name",
            depth: entry.depth,
            kind: if is_unknown { "unknown" } else { "unresolved" },
            name: entry.name.as_str(),
        })
    }

    /// Adds the variants of an enum.
    fn add_variants(&mut self, depth: u32, e: EnumId) -> Result<(), AllocError> {
        if !self.part.has_variants {
            return Ok(());
        }
        for name in &self.crates().variants(self.alloc(), e)? {
            self.add(&BareRow {
                reason: "name",
                depth,
                kind: "variant",
                name: name.as_str(),
            })?;
        }
        Ok(())
    }

    /// Adds an associated item of a trait or type that a module declares.
    fn add_associated(
        &mut self,
        depth: u32,
        home: ModuleId,
        item: &AssociatedItem,
    ) -> Result<(), AllocError> {
        if !self.part.shows(item.kind, item.visibility) {
            return Ok(());
        }
        let place = item.place;
        let lists = self.crates().lists();
        let spot = item_spot(lists, place.krate, place.file, place.item);
        let row = NameRow {
            reason: "name",
            depth,
            kind: item.kind,
            name: item.name.as_str(),
            visibility: visibility_text(self.alloc(), self.crates(), home, item.visibility)?,
            import: None,
            at: spot.map(|spot| self.survey.lines.location(spot)),
            by_order: false,
        };
        let (alloc, style) = (self.alloc(), self.survey.style);
        push_row(&mut self.out, alloc, style, &row)
    }

    /// Adds the associated items of the trait or type that a name declares.
    fn add_all_associated(&mut self, depth: u32, entry: Entry<'a>) -> Result<(), AllocError> {
        let Some(def) = declared(entry.items) else {
            return Ok(());
        };
        let places = Vec::from_slice(self.alloc(), self.associated.places(def))?;
        let associated = std::mem::replace(
            &mut self.associated,
            AssociatedItems::none(self.survey.hidden.alloc()),
        );
        for place in &places {
            if let Some(item) = associated.get(*place) {
                self.add_associated(depth, entry.home, item)?;
            }
        }
        self.associated = associated;
        Ok(())
    }

    /// Adds a name of a module, and puts what stands in it to what is left.
    fn add_entry(&mut self, entry: Entry<'a>) -> Result<(), AllocError> {
        let depth = entry.depth.saturating_add(1);
        self.add_meant(entry, Namespace::Types)?;
        if let Some(e) = enum_of(entry.items) {
            self.add_variants(depth, e)?;
        }
        self.add_all_associated(depth, entry)?;
        self.add_meant(entry, Namespace::Values)?;
        self.add_meant(entry, Namespace::Macros)?;
        if entry.items.is_none() {
            self.add_missing(entry)?;
        }
        match module_of(entry.items) {
            Some(m) if is_beside(self.crates(), m, entry.home) => {
                self.add_module(depth, m, entry.items)
            }
            _ => Ok(()),
        }
    }

    /// Adds what is said of a declared module itself, if it is shown, and puts its names to what is left.
    fn add_module(&mut self, depth: u32, m: ModuleId, items: PerNs) -> Result<(), AllocError> {
        let is_shown = match items.types {
            None => false,
            Some(item) => self.part.shows("mod", item.vis),
        };
        if is_shown && self.part.goes_into(depth) {
            self.open(depth, m)?;
        }
        Ok(())
    }

    /// Adds by what a module may have more names than are shown.
    fn add_hiding(&mut self, depth: u32, m: ModuleId) -> Result<(), AllocError> {
        let survey = self.survey;
        if survey.hidden.notes.cause_in(m).is_none() {
            return Ok(());
        }
        let mut by = String::new(self.alloc());
        push_hiding(&mut by, survey, m)?;
        self.add(&HiddenRow {
            reason: "hidden",
            depth,
            by,
        })
    }

    /// Adds a trait that a module has without a name.
    fn add_unnamed_trait(
        &mut self,
        depth: u32,
        home: ModuleId,
        visibility: Visibility,
        import: Option<ImportOrExternCrate>,
    ) -> Result<(), AllocError> {
        if !self.part.shows("trait", visibility) {
            return Ok(());
        }
        let row = NameRow {
            reason: "name",
            depth,
            kind: "trait",
            name: "_",
            visibility: visibility_text(self.alloc(), self.crates(), home, visibility)?,
            import: import.map(import_word),
            at: match import {
                None => None,
                Some(_) => self.origin(ModuleDefId::ModuleId(home), import)?,
            },
            by_order: false,
        };
        self.add(&row)
    }

    /// Adds the traits that a module has without a name.
    fn add_unnamed_traits(&mut self, depth: u32, m: ModuleId) -> Result<(), AllocError> {
        for (visibility, import) in self.crates().unnamed_traits(self.alloc(), m)? {
            let import = import.map(ImportOrExternCrate::Import);
            self.add_unnamed_trait(depth, m, visibility, import)?;
        }
        Ok(())
    }

    /// Begins a module: adds what it has without a name, and puts its names to what is left.
    fn open(&mut self, depth: u32, home: ModuleId) -> Result<(), AllocError> {
        self.add_hiding(depth, home)?;
        self.add_unnamed_traits(depth, home)?;
        for (name, items) in self.crates().entries(self.alloc(), home)?.iter().rev() {
            self.left.push(Entry {
                depth,
                home,
                name: *name,
                items: *items,
            })?;
        }
        Ok(())
    }

    /// Adds all that is left.
    fn add_all(&mut self) -> Result<(), AllocError> {
        for _entry in 0..u64::MAX {
            let Some(entry) = self.left.pop() else {
                break;
            };
            self.add_entry(entry)?;
        }
        Ok(())
    }

    fn into_text(self) -> String {
        let Tree {
            survey: _survey,
            part: _part,
            associated: _associated,
            out,
            left: _left,
        } = self;
        out
    }
}

/// The file of a crate's root.
fn root_file<C: Crates>(crates: &C, krate: Crate) -> Option<Location<'_>> {
    let list = crates.lists().get(krate.0 as usize)?;
    let file = list.modules().first()?.file();
    let files = crates.files();
    if files.contains(file) {
        Some(file_location(files.path(file)))
    } else {
        None
    }
}

/// How a module is called that a tree begins with.
fn heading<'a, C: Crates>(
    survey: &Survey<'a, C>,
    krate: Crate,
    m: ModuleId,
) -> Result<Heading<'a>, AllocError> {
    let (alloc, crates) = (survey.hidden.alloc(), survey.hidden.crates());
    let reason = "tree";
    if crates.map_root(m) == Some(m) {
        return Ok(Heading {
            reason,
            kind: "crate",
            name: String::from_str(alloc, crate_name(crates, krate))?,
            at: root_file(crates, krate),
        });
    }
    let spot = definition_spot(crates, ModuleDefId::ModuleId(m));
    Ok(Heading {
        reason,
        kind: "mod",
        name: module_path(alloc, crates, m)?,
        at: spot.map(|spot| survey.lines.location(spot)),
    })
}

/// A module of a crate, with what it binds, and the modules in it.
pub fn tree_text<C: Crates>(
    survey: &Survey<'_, C>,
    krate: Crate,
    m: ModuleId,
    part: TreePart<'_>,
) -> Result<String, AllocError> {
    let alloc = survey.hidden.alloc();
    let mut tree = Tree {
        survey,
        part,
        associated: if part.has_assoc {
            AssociatedItems::of(alloc, survey.hidden.crates())?
        } else {
            AssociatedItems::none(alloc)
        },
        out: String::new(alloc),
        left: Vec::new(alloc),
    };
    tree.add(&heading(survey, krate, m)?)?;
    tree.open(1, m)?;
    tree.add_all()?;
    Ok(tree.into_text())
}
