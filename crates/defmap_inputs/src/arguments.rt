//! What the words of the command line say.
use crate::colours::{When, when_of};
use crate::failure::{Failure, Status};
use crate::item_tables::{ItemTable, TABLES};
use clap::ArgMatches;
use dm_base::source::Edition;
use std::alloc::{AllocError, Global};

/// How the modules of a crate are shown, and what else.
#[derive(Clone, Copy)]
pub struct TreeForm<'a> {
    /// Whether the def map's own dump is shown.
    pub is_dump: bool,
    /// Whether a graph of the modules is shown, for Graphviz.
    pub is_dot: bool,
    pub has_diagnostics: bool,
    pub has_lists: bool,
    /// How many levels of modules are shown; all where nothing is said.
    pub depth: Option<u32>,
    /// The module that is shown.
    pub focus: &'a str,
    /// The kinds of items that are shown, with commas between; all where nothing is said.
    pub kinds: Option<&'a str>,
    pub only_public: bool,
    pub has_variants: bool,
    /// Whether associated items are shown.
    pub has_assoc: bool,
}

/// What is asked of crates.
#[derive(Clone, Copy)]
pub enum Question<'a> {
    /// The modules, with what each binds.
    Tree(TreeForm<'a>),
    /// What a path means in a module.
    Resolve { path: &'a str, home: &'a str },
    /// What leads nowhere.
    Unresolved,
    /// What each import means.
    Imports,
    /// The files that nothing reaches.
    Orphans,
}

/// What is asked.
#[derive(Clone, Copy)]
pub enum Wish<'a> {
    OfCrates(Question<'a>),
    /// A table of one file.
    OfItems(ItemTable),
    /// What the macro calls of one file make: of all, or of the one at a line and a column.
    Expansions(Option<(usize, usize)>),
}

/// A crate that the crate knows by a name.
#[derive(Clone, Copy)]
pub(crate) struct ExternWord<'a> {
    pub(crate) name: &'a str,
    pub(crate) edition: Option<Edition>,
    pub(crate) root: &'a str,
}

/// What is shown of an answer beside its text.
#[derive(Clone, Copy)]
pub struct Shown {
    /// Whether the answer has colours.
    pub has_colours: bool,
    /// Whether what is read is told on the standard error, where it takes long.
    pub has_progress: bool,
}

/// Where nothing is said: nothing.
const NOTHING: Shown = Shown {
    has_colours: false,
    has_progress: false,
};

/// The words of the command line, read.
pub struct Arguments<'a> {
    pub wish: Wish<'a>,
    /// The file of the crate's root, or that of the table; `-` is the standard input.
    pub root: &'a str,
    /// The file of a fixture, in place of a root; `-` is the standard input.
    pub fixture: Option<&'a str>,
    pub edition: Option<Edition>,
    /// Options, each as a line of `rustc --print cfg`.
    pub(crate) cfgs: Vec<&'a str>,
    pub(crate) cfg_file: Option<&'a str>,
    pub(crate) externs: Vec<ExternWord<'a>>,
    pub sysroot: Option<&'a str>,
    /// The file of what cargo printed of packages; `-` is the standard input.
    pub(crate) metadata: Option<&'a str>,
    /// In place of a root: the package, and its target.
    pub(crate) package: Option<&'a str>,
    pub(crate) target: Option<&'a str>,
    /// What cargo printed of the build scripts of the packages.
    pub(crate) build: Option<&'a str>,
    /// How many modules a crate may have.
    pub limit: u32,
    pub has_stats: bool,
    /// Whether it is a fault that something is not known.
    pub is_strict: bool,
    /// Whether the answer is written as objects of JSON.
    pub is_json: bool,
    /// When colours are shown.
    pub colour: When,
    /// What the terminals show of this, where they are.
    pub shown: Shown,
}

/// A hand-written `Drop`, to keep proofs small: what drops one has one call to prove.
impl<'a> Drop for Arguments<'a> {
    fn drop(self) {
        let Arguments {
            wish: _wish,
            root: _root,
            fixture: _fixture,
            edition: _edition,
            cfgs: _cfgs,
            cfg_file: _cfg_file,
            externs: _externs,
            sysroot: _sysroot,
            metadata: _metadata,
            package: _package,
            target: _target,
            build: _build,
            limit: _limit,
            has_stats: _has_stats,
            is_strict: _is_strict,
            is_json: _is_json,
            colour: _colour,
            shown: _shown,
        } = self;
    }
}

/// The words for kinds of items.
const KINDS: [&'static str; 12] = [
    "mod",
    "struct",
    "union",
    "enum",
    "trait",
    "type",
    "fn",
    "const",
    "static",
    "constructor",
    "variant",
    "macro",
];

const KIND_LIST: &'static str =
    "mod, struct, union, enum, trait, type, fn, const, static, constructor, variant, macro";

/// How many modules a crate may have where nothing else is said.
const LIMIT: u32 = 65_536;

/// The edition of a word.
pub(crate) fn edition_of(word: &str) -> Option<Edition> {
    match word {
        "2015" => Some(Edition::Edition2015),
        "2018" => Some(Edition::Edition2018),
        "2021" => Some(Edition::Edition2021),
        "2024" => Some(Edition::Edition2024),
        _ => None,
    }
}

fn misused<T>(line: String) -> Result<T, Failure> {
    Err(Failure::Told(Status::Misused, line))
}

fn known_edition(alloc: Global, word: &str) -> Result<Edition, Failure> {
    match edition_of(word) {
        Some(edition) => Ok(edition),
        None => misused(format!(in alloc; "no edition {word}: give 2015, 2018, 2021 or 2024")?),
    }
}

fn known_limit(alloc: Global, word: &str) -> Result<u32, Failure> {
    match word.parse::<u32>() {
        Ok(limit) => Ok(limit),
        Err(_fault) => misused(format!(in alloc; "no limit {word}: give a number of modules")?),
    }
}

/// The name of a crate, and its edition where `@` parts one from it.
fn name_and_edition<'a>(
    alloc: Global,
    known: &'a str,
) -> Result<(&'a str, Option<Edition>), Failure> {
    match known.split_once('@') {
        None => Ok((known, None)),
        Some((name, edition)) => Ok((name, Some(known_edition(alloc, edition)?))),
    }
}

fn no_file<T>(alloc: Global, word: &str) -> Result<T, Failure> {
    misused(format!(in alloc; "--extern {word} names no file: give it as NAME=ROOT.rs")?)
}

/// What a word of `--extern` says.
fn extern_word<'a>(alloc: Global, word: &'a str) -> Result<ExternWord<'a>, Failure> {
    let Some((known, root)) = word.split_once('=') else {
        return no_file(alloc, word);
    };
    let (name, edition) = name_and_edition(alloc, known)?;
    Ok(ExternWord {
        name,
        edition,
        root,
    })
}

fn extern_words<'a>(alloc: Global, words: &[&'a str]) -> Result<Vec<ExternWord<'a>>, Failure> {
    let mut read = Vec::new(alloc);
    for word in words {
        read.push(extern_word(alloc, *word)?)?;
    }
    Ok(read)
}

fn all_of<'a>(alloc: Global, given: &ArgMatches<'a>, id: &str) -> Result<Vec<&'a str>, AllocError> {
    match given.get_strs(id) {
        None => Ok(Vec::new(alloc)),
        Some(words) => Vec::from_slice(alloc, words),
    }
}

/// How many levels of modules are given.
fn given_depth(alloc: Global, given: &ArgMatches<'_>) -> Result<Option<u32>, Failure> {
    let Some(word) = given.get_str("depth") else {
        return Ok(None);
    };
    match word.parse::<u32>() {
        Ok(depth) => Ok(Some(depth)),
        Err(_fault) => misused(format!(in alloc; "no depth {word}: give a number of levels")?),
    }
}

/// Fails where a word is no kind of items.
fn check_kinds(alloc: Global, words: &str) -> Result<(), Failure> {
    for word in words.split(',') {
        if !KINDS.contains(&word) {
            return misused(format!(in alloc; "no kind {word}: give some of {}", KIND_LIST)?);
        }
    }
    Ok(())
}

/// What no JSON is of, of `tree`.
const TEXTS: [&'static str; 4] = ["dot", "dump", "diagnostics", "lists"];

/// What a graph and a dump take no notice of: words, and options with values.
const WORDS_OF_TREES: [&'static str; 3] = ["only-public", "variants", "assoc"];

const VALUES_OF_TREES: [&'static str; 3] = ["depth", "focus", "kinds"];

/// The first of some words that is given.
fn first_flag(given: &ArgMatches<'_>, ids: &[&'static str]) -> Option<&'static str> {
    for id in ids {
        if given.get_flag(*id) {
            return Some(*id);
        }
    }
    None
}

/// The first of some options with values that is given.
fn first_value(given: &ArgMatches<'_>, ids: &[&'static str]) -> Option<&'static str> {
    for id in ids {
        if given.contains_id(*id) {
            return Some(*id);
        }
    }
    None
}

/// What a graph or a dump takes no notice of, if such is given.
fn ignored_beside(given: &ArgMatches<'_>, shown: &str) -> Option<&'static str> {
    if shown == "dot" && given.get_flag("dump") {
        return Some("dump");
    }
    match first_flag(given, &WORDS_OF_TREES) {
        Some(word) => Some(word),
        None => first_value(given, &VALUES_OF_TREES),
    }
}

/// Two options of `tree` of which one would be ignored, if such are given.
fn clash_of(given: &ArgMatches<'_>) -> Option<(&'static str, &'static str)> {
    if given.get_flag("json") {
        return Some(("json", first_flag(given, &TEXTS)?));
    }
    let shown = first_flag(given, &["dot", "dump"])?;
    Some((shown, ignored_beside(given, shown)?))
}

fn tree_form<'a>(alloc: Global, given: &ArgMatches<'a>) -> Result<TreeForm<'a>, Failure> {
    if let Some((one, other)) = clash_of(given) {
        return misused(format!(in alloc; "--{one} and --{other}: give one of both")?);
    }
    let depth = given_depth(alloc, given)?;
    let kinds = given.get_str("kinds");
    if let Some(words) = kinds {
        check_kinds(alloc, words)?;
    }
    Ok(TreeForm {
        is_dump: given.get_flag("dump"),
        is_dot: given.get_flag("dot"),
        has_diagnostics: given.get_flag("diagnostics"),
        has_lists: given.get_flag("lists"),
        depth,
        focus: given.get_str("focus").unwrap_or("crate"),
        kinds,
        only_public: given.get_flag("only-public"),
        has_variants: given.get_flag("variants"),
        has_assoc: given.get_flag("assoc"),
    })
}

/// The table that is given, or that of the items.
fn table_of(given: &ArgMatches<'_>) -> ItemTable {
    for word in &TABLES {
        if given.get_flag(word.id) {
            return word.table;
        }
    }
    ItemTable::Items
}

/// Whether something else tells the crate than the file of a root.
fn has_no_root(given: &ArgMatches<'_>) -> bool {
    given.contains_id("fixture") || given.contains_id("package")
}

/// The path that is asked about: where no root is given it is the first word.
fn path_of<'a>(given: &ArgMatches<'a>) -> &'a str {
    let id = if has_no_root(given) { "root" } else { "path" };
    given.get_str(id).unwrap_or("")
}

/// The numbers of LINE:COLUMN.
fn place_of(word: &str) -> Option<(usize, usize)> {
    let (line, column) = word.split_once(':')?;
    match (line.parse::<usize>(), column.parse::<usize>()) {
        (Ok(line), Ok(column)) => Some((line, column)),
        _ => None,
    }
}

/// The place that is given, if one is.
fn given_place(alloc: Global, given: &ArgMatches<'_>) -> Result<Option<(usize, usize)>, Failure> {
    let Some(word) = given.get_str("at") else {
        return Ok(None);
    };
    match place_of(word) {
        Some(place) => Ok(Some(place)),
        None => misused(format!(in alloc; "no place {word}: give LINE:COLUMN")?),
    }
}

fn wish_of<'a>(alloc: Global, name: &str, given: &ArgMatches<'a>) -> Result<Wish<'a>, Failure> {
    Ok(Wish::OfCrates(match name {
        "items" => return Ok(Wish::OfItems(table_of(given))),
        "expand" => return Ok(Wish::Expansions(given_place(alloc, given)?)),
        "resolve" => Question::Resolve {
            path: path_of(given),
            home: given.get_str("in").unwrap_or("crate"),
        },
        "unresolved" => Question::Unresolved,
        "imports" => Question::Imports,
        "orphans" => Question::Orphans,
        _ => Question::Tree(tree_form(alloc, given)?),
    }))
}

/// The edition that is given, if one is.
fn given_edition(alloc: Global, given: &ArgMatches<'_>) -> Result<Option<Edition>, Failure> {
    match given.get_str("edition") {
        None => Ok(None),
        Some(word) => Ok(Some(known_edition(alloc, word)?)),
    }
}

/// How many modules a crate may have.
fn given_limit(alloc: Global, given: &ArgMatches<'_>) -> Result<u32, Failure> {
    match given.get_str("limit") {
        None => Ok(LIMIT),
        Some(word) => known_limit(alloc, word),
    }
}

/// When colours are shown.
fn given_colour(alloc: Global, given: &ArgMatches<'_>) -> Result<When, Failure> {
    let Some(word) = given.get_str("color") else {
        return Ok(When::Auto);
    };
    match when_of(word) {
        Some(when) => Ok(when),
        None => misused(format!(in alloc; "no --color {word}: give auto, always or never")?),
    }
}

/// The crates that are given.
fn given_externs<'a>(
    alloc: Global,
    given: &ArgMatches<'a>,
) -> Result<Vec<ExternWord<'a>>, Failure> {
    let words = all_of(alloc, given, "extern")?;
    extern_words(alloc, words.as_slice())
}

/// What the words of a subcommand say. Fails where one says nothing that it may say, and where
/// memory runs out.
pub fn read_arguments<'a>(
    alloc: Global,
    name: &str,
    given: &ArgMatches<'a>,
) -> Result<Arguments<'a>, Failure> {
    let edition = given_edition(alloc, given)?;
    let limit = given_limit(alloc, given)?;
    let wish = wish_of(alloc, name, given)?;
    let externs = given_externs(alloc, given)?;
    Ok(Arguments {
        wish,
        root: given.get_str("root").unwrap_or(""),
        fixture: given.get_str("fixture"),
        edition,
        cfgs: all_of(alloc, given, "cfg")?,
        cfg_file: given.get_str("cfg-file"),
        externs,
        sysroot: given.get_str("sysroot"),
        metadata: given.get_str("metadata"),
        package: given.get_str("package"),
        target: given.get_str("target-name"),
        build: given.get_str("build"),
        limit,
        has_stats: given.get_flag("stats"),
        is_strict: given.get_flag("strict"),
        is_json: given.get_flag("json"),
        colour: given_colour(alloc, given)?,
        shown: NOTHING,
    })
}
