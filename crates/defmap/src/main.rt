//! Resolves the names of a crate of the user's: its modules and what each binds, what a path means,
//! what leads nowhere; and prints what is read of one file.
#![tactic(auto)]

mod answer;
mod associated;
mod assocs;
mod diagnostics;
mod item_places;
mod lists;
mod macro_view;
mod second;
mod settled;
mod settling;
mod stats;
mod trees;
mod world_modules;
mod world_names;
mod world_paths;

use crate::answer::give_answer;
use defmap_answers::paint::told_in_colours;
use defmap_inputs::arguments::{Arguments, Shown, read_arguments};
use defmap_inputs::colours::When;
use defmap_inputs::command_line::command_line;
use defmap_inputs::failure::{Failure, Status};
use defmap_inputs::words::{given_words, is_plain};
use std::io::IsTerminal;
use std::process::ExitCode;

/// Tells something on the standard error.
fn tell(rt: &HostRuntime, has_colours: bool, told: &str) -> Result<(), Failure> {
    if !has_colours {
        return Ok(rt.eprint(told)?);
    }
    let coloured = told_in_colours(rt.alloc(), told)?;
    Ok(rt.eprint(coloured.as_str())?)
}

/// When colours are shown on the standard error.
fn has_colours(rt: &HostRuntime, when: When) -> bool {
    when.shows(rt.stderr().is_terminal(), is_plain(rt))
}

/// Prints an answer, and tells the status to end with.
fn answered(rt: &HostRuntime, given: &mut Arguments<'_>) -> Result<Status, Failure> {
    given.shown = Shown {
        has_colours: given.colour.shows(rt.stdout().is_terminal(), is_plain(rt)),
        has_progress: rt.stderr().is_terminal(),
    };
    let answer = give_answer(rt, given)?;
    rt.print(answer.out.as_str())?;
    tell(rt, has_colours(rt, given.colour), answer.told.as_str())?;
    Ok(answer.status)
}

/// Says why there is no answer, and gives the status to end with.
fn failed(rt: &HostRuntime, when: When, failure: &Failure) -> Result<Status, Failure> {
    if !matches!(failure, Failure::Closed) {
        let line = format!(in rt.alloc(); "defmap: {}\n", failure.line())?;
        tell(rt, has_colours(rt, when), line.as_str())?;
    }
    Ok(failure.status())
}

/// Does what a subcommand asks.
fn asked<'a>(
    rt: &HostRuntime,
    name: &str,
    words: &clap::ArgMatches<'a>,
) -> Result<Status, Failure> {
    let mut given = read_arguments(rt.alloc(), name, words)?;
    match answered(rt, &mut given) {
        Ok(status) => Ok(status),
        Err(failure) => failed(rt, given.colour, &failure),
    }
}

/// Prints help, or what is wrong with the words of the command line.
fn explained(rt: &HostRuntime, error: &clap::Error) -> Result<Status, Failure> {
    if !error.use_stderr() {
        error.print(rt)?;
        return Ok(Status::Fine);
    }
    let told = format!(in rt.alloc(); "{error}")?;
    tell(rt, has_colours(rt, When::Auto), told.as_str())?;
    Ok(Status::Misused)
}

/// Reads the words of the command line, and does what they ask.
fn run(rt: &HostRuntime) -> Result<Status, Failure> {
    let alloc = rt.alloc();
    let words = given_words(rt)?;
    let command = command_line(alloc)?;
    match command.try_get_matches_from(words.as_slice()) {
        Ok(matches) => match matches.subcommand() {
            None => Ok(Status::Misused),
            Some((name, given)) => asked(rt, name, given),
        },
        Err(error) => explained(rt, &error),
    }
}

fn main(rt: HostRuntime) -> ExitCode {
    match run(&rt) {
        Ok(status) => status.code(),
        Err(failure) => match failed(&rt, When::Auto, &failure) {
            Ok(status) => status.code(),
            Err(_unwritten) => failure.status().code(),
        },
    }
}
