//! The command line of the program: its subcommands, and what each takes.
use crate::item_tables::TABLES;
use clap::{Arg, ArgAction, Command};
use std::alloc::{AllocError, Global};

/// An option that takes a value: its name, what the value is called, and what it says.
struct ValueOption {
    id: &'static str,
    shown: &'static str,
    help: &'static str,
    action: ArgAction,
}

const EDITION: ValueOption = ValueOption {
    id: "edition",
    shown: "EDITION",
    help: "2015, 2018, 2021 or 2024; 2021 where nothing is said",
    action: ArgAction::Set,
};

const COLOR: ValueOption = ValueOption {
    id: "color",
    shown: "WHEN",
    help: "auto, always or never; auto, where nothing is said: on a terminal, unless NO_COLOR is set",
    action: ArgAction::Set,
};

/// Those of every subcommand that takes crates, in the order in which help lists them.
const OPTIONS: [ValueOption; 5] = [
    ValueOption {
        id: "cfg",
        shown: "NAME[=\"VALUE\"]",
        help: "One more option that the crate is compiled with",
        action: ArgAction::Append,
    },
    ValueOption {
        id: "cfg-file",
        shown: "FILE",
        help: "What `rustc --print cfg` prints, in place of a table for Linux on x86-64",
        action: ArgAction::Set,
    },
    ValueOption {
        id: "sysroot",
        shown: "DIR",
        help: "What `rustc --print sysroot` prints, or the folder that has core, alloc and std",
        action: ArgAction::Set,
    },
    ValueOption {
        id: "metadata",
        shown: "FILE",
        help: "What `cargo metadata --format-version 1` prints; - for standard input",
        action: ArgAction::Set,
    },
    ValueOption {
        id: "limit",
        shown: "NUMBER",
        help: "How many modules a crate may have; 65536 where nothing is said",
        action: ArgAction::Set,
    },
];

/// One that --metadata makes needless.
const EXTERN: ValueOption = ValueOption {
    id: "extern",
    shown: "NAME[@EDITION]=ROOT.rs",
    help: "A crate that the crate knows, which itself knows those given before it",
    action: ArgAction::Append,
};

/// Those that say something beside --metadata alone.
const BESIDE_METADATA: [ValueOption; 3] = [
    ValueOption {
        id: "package",
        shown: "NAME[@VERSION]",
        help: "In place of a root: the package, by --metadata; its library, or its first target",
        action: ArgAction::Set,
    },
    ValueOption {
        id: "target-name",
        shown: "[KIND:]NAME",
        help: "Another target of --package, as bin:NAME",
        action: ArgAction::Set,
    },
    ValueOption {
        id: "build",
        shown: "FILE",
        help: "What `cargo check --message-format json` prints, beside --metadata: \
the options that build scripts set",
        action: ArgAction::Set,
    },
];

/// All crates in one text, in place of a root and of the options below.
const FIXTURE: ValueOption = ValueOption {
    id: "fixture",
    shown: "FILE",
    help: "Crates in one text, - for standard input: before each file a line //- /PATH, \
and behind the path of a root crate:NAME and, as needed, deps:A,NAME=B extern-prelude:A \
edition:2021 cfg:A,B=C proc-macro; edition 2021 where nothing is said",
    action: ArgAction::Set,
};

/// What a fixture says of its crates itself.
const NOT_BESIDE_FIXTURE: [&'static str; 6] = [
    "edition", "cfg", "cfg-file", "extern", "sysroot", "metadata",
];

/// The option of `resolve` alone.
const HOME: ValueOption = ValueOption {
    id: "in",
    shown: "MODULE",
    help: "The module that the path stands in; crate where nothing is said",
    action: ArgAction::Set,
};

/// The option of `items` alone.
const SET: ValueOption = ValueOption {
    id: "cfg",
    shown: "NAME[=\"VALUE\"]",
    help: "An option that is set; no other is",
    action: ArgAction::Append,
};

/// A word that is given or not: its name, and what it says.
#[derive(Clone, Copy)]
struct FlagOption {
    id: &'static str,
    help: &'static str,
}

/// Those of `tree` alone.
const FLAGS: [FlagOption; 7] = [
    FlagOption {
        id: "assoc",
        help: "Shows the items of traits and of plain inherent implementations, too",
    },
    FlagOption {
        id: "dot",
        help: "Prints the modules and which uses which as a graph for Graphviz, circles in red",
    },
    FlagOption {
        id: "only-public",
        help: "Shows only what is seen by all, and modules that are",
    },
    FlagOption {
        id: "variants",
        help: "Shows the variants of enums, too",
    },
    FlagOption {
        id: "dump",
        help: "Prints the crate's own dump of its def map",
    },
    FlagOption {
        id: "diagnostics",
        help: "Prints what is told of the crate, too, and how much in it is unknown",
    },
    FlagOption {
        id: "lists",
        help: "Prints what modules hold without a name, procedural macros, and \
associated items, too",
    },
];

/// The options of `tree` alone.
const TREE_OPTIONS: [ValueOption; 3] = [
    ValueOption {
        id: "focus",
        shown: "MODULE",
        help: "The module that is shown; crate where nothing is said",
        action: ArgAction::Set,
    },
    ValueOption {
        id: "depth",
        shown: "NUMBER",
        help: "How many levels of modules are shown; all where nothing is said",
        action: ArgAction::Set,
    },
    ValueOption {
        id: "kinds",
        shown: "KIND,..",
        help: "Shows only these kinds beside modules, as fn,struct",
        action: ArgAction::Set,
    },
];

/// Those of every subcommand that takes crates.
const COMMON_FLAGS: [FlagOption; 3] = [
    FlagOption {
        id: "json",
        help: "Prints an object of JSON a line, as docs/JSON.md has them",
    },
    FlagOption {
        id: "strict",
        help: "Status 3 where something may be hidden, as by a macro, and the status would be 0",
    },
    FlagOption {
        id: "stats",
        help: "Tells on standard error what was read, and how long each stage took",
    },
];

/// What the subcommands say of themselves.
const TREE: &'static str =
    "Prints the modules of a crate, with what each binds, who sees it and by which import it came";

const RESOLVE: &'static str =
    "Prints what a path means in each namespace, and through which imports it goes";

const UNRESOLVED: &'static str =
    "Prints what leads nowhere, as FILE:LINE:COLUMN: message; status 1 if anything does";

const IMPORTS: &'static str =
    "Prints what each import of a crate means, as FILE:LINE:COLUMN: PATH; ...";

const ORPHANS: &'static str =
    "Prints the files of Rust below the root's folder that nothing reaches; status 1 if there are any";

const ITEMS: &'static str = "Prints what is read of one file: its items, or another table";

const EXPAND: &'static str =
    "Prints what each macro call among the items of a file makes, by the macros of that file";

/// The option of `expand` alone.
const AT: ValueOption = ValueOption {
    id: "at",
    shown: "LINE:COLUMN",
    help: "The one call that is told of",
    action: ArgAction::Set,
};

fn value<'a>(alloc: Global, option: &'static ValueOption) -> Arg<'a> {
    Arg::new(alloc, option.id)
        .long(option.id)
        .value_name(option.shown)
        .help(option.help)
        .action(option.action)
}

fn flag<'a>(alloc: Global, id: &'static str, help: &'static str) -> Arg<'a> {
    Arg::new(alloc, id)
        .long(id)
        .help(help)
        .action(ArgAction::SetTrue)
}

/// A word that stands by itself.
fn position<'a>(alloc: Global, id: &'a str, shown: &'a str, help: &'a str) -> Arg<'a> {
    Arg::new(alloc, id)
        .value_name(shown)
        .help(help)
        .action(ArgAction::Set)
}

/// One that a fixture or a package stands in place of.
fn unless_named<'a>(word: Arg<'a>) -> Result<Arg<'a>, AllocError> {
    word.required_unless_present_any(&["fixture", "package"])?
        .conflicts_with_all(&["fixture", "package"])
}

/// One that says something beside --metadata alone.
fn beside_metadata<'a>(alloc: Global, option: &'static ValueOption) -> Result<Arg<'a>, AllocError> {
    let word = value(alloc, option).requires_arg("metadata")?;
    if option.id == "target-name" {
        word.requires_arg("package")
    } else {
        Ok(word)
    }
}

/// The option of a fixture.
fn fixture<'a>(alloc: Global) -> Result<Arg<'a>, AllocError> {
    let mut word = value(alloc, &FIXTURE);
    for other in &NOT_BESIDE_FIXTURE {
        word = word.conflicts_with(*other)?;
    }
    Ok(word)
}

/// A command with one more argument, unless that failed. What is held at an exit costs its proof:
/// this has one.
fn with_arg<'a>(
    command: Command<'a>,
    arg: Result<Arg<'a>, AllocError>,
) -> Result<Command<'a>, AllocError> {
    command.arg(arg?)
}

/// A command with the options that each subcommand has which takes crates.
fn with_options<'a>(alloc: Global, command: Command<'a>) -> Result<Command<'a>, AllocError> {
    let mut command = command.arg(value(alloc, &EDITION))?;
    for option in &OPTIONS {
        command = command.arg(value(alloc, option))?;
    }
    for option in &BESIDE_METADATA {
        command = with_arg(command, beside_metadata(alloc, option))?;
    }
    let other = value(alloc, &EXTERN).conflicts_with("metadata");
    let command = with_arg(with_arg(command, other)?, fixture(alloc))?;
    let command = command.arg(value(alloc, &COLOR))?;
    with_flags(alloc, command, &COMMON_FLAGS)
}

/// A subcommand that takes crates, and nothing else.
fn plain_command<'a>(
    alloc: Global,
    name: &'a str,
    about: &'a str,
) -> Result<Command<'a>, AllocError> {
    let help = "The file of the crate's root; - reads one file from standard input";
    let root = unless_named(position(alloc, "root", "ROOT.rs", help));
    let command = with_arg(Command::new(alloc, name).about(about), root)?;
    with_options(alloc, command)
}

/// A command with some words that are given or not.
fn with_flags<'a>(
    alloc: Global,
    command: Command<'a>,
    words: &[FlagOption],
) -> Result<Command<'a>, AllocError> {
    let mut command = command;
    for word in words {
        command = command.arg(flag(alloc, word.id, word.help))?;
    }
    Ok(command)
}

/// A command with the options of `tree` alone.
fn with_tree_options<'a>(alloc: Global, command: Command<'a>) -> Result<Command<'a>, AllocError> {
    let mut command = with_flags(alloc, command, &FLAGS)?;
    for option in &TREE_OPTIONS {
        command = command.arg(value(alloc, option))?;
    }
    Ok(command)
}

fn tree_command<'a>(alloc: Global) -> Result<Command<'a>, AllocError> {
    with_tree_options(alloc, plain_command(alloc, "tree", TREE)?)
}

/// The words of `resolve`: a root and a path, or behind a fixture the path alone.
fn resolve_command<'a>(alloc: Global) -> Result<Command<'a>, AllocError> {
    let help =
        "The file of the crate's root, - for standard input; with --fixture or --package the path";
    let root = position(alloc, "root", "ROOT.rs", help).required(true);
    let path = unless_named(position(alloc, "path", "PATH", "The path, as a::b::C"));
    let bare = Command::new(alloc, "resolve").about(RESOLVE).arg(root)?;
    let command = with_arg(bare, path)?.arg(value(alloc, &HOME))?;
    with_options(alloc, command)
}

/// A command with a word for each table but the first, of which one may be given.
fn with_tables<'a>(alloc: Global, command: Command<'a>) -> Result<Command<'a>, AllocError> {
    let mut command = command;
    for table in &TABLES {
        let word = flag(alloc, table.id, table.help).group("table");
        command = with_arg(command, word)?;
    }
    Ok(command)
}

fn items_command<'a>(alloc: Global) -> Result<Command<'a>, AllocError> {
    let help = "The file; - reads standard input";
    let command = Command::new(alloc, "items")
        .about(ITEMS)
        .arg(position(alloc, "root", "FILE", help).required(true))?
        .arg(value(alloc, &EDITION))?
        .arg(value(alloc, &SET))?
        .arg(value(alloc, &COLOR))?;
    with_tables(alloc, command)
}

fn expand_command<'a>(alloc: Global) -> Result<Command<'a>, AllocError> {
    let help = "The file; - reads standard input";
    let command = Command::new(alloc, "expand")
        .about(EXPAND)
        .arg(position(alloc, "root", "FILE", help).required(true))?
        .arg(value(alloc, &EDITION))?
        .arg(value(alloc, &SET))?
        .arg(value(alloc, &AT))?;
    command.arg(flag(alloc, "json", "Prints an object of JSON a line"))
}

/// A command with one more subcommand, unless that failed. What is held at an exit costs its proof:
/// this has one.
fn with_subcommand<'a>(
    command: Command<'a>,
    subcommand: Result<Command<'a>, AllocError>,
) -> Result<Command<'a>, AllocError> {
    command.subcommand(subcommand?)
}

/// The command line of the program. Fails where memory runs out.
pub fn command_line<'a>(alloc: Global) -> Result<Command<'a>, AllocError> {
    let bare = Command::new(alloc, "defmap")
        .about("Resolves the names of a crate, without expanding macros")
        .version("0.1.0")
        .subcommand_required(true)
        .arg_required_else_help(true);
    let command = with_subcommand(bare, tree_command(alloc))?;
    let command = with_subcommand(command, resolve_command(alloc))?;
    let command = with_subcommand(command, plain_command(alloc, "unresolved", UNRESOLVED))?;
    let command = with_subcommand(command, plain_command(alloc, "imports", IMPORTS))?;
    let command = with_subcommand(command, plain_command(alloc, "orphans", ORPHANS))?;
    let command = with_subcommand(command, items_command(alloc))?;
    with_subcommand(command, expand_command(alloc))
}
