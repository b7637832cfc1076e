//! The answer to what is asked.
use crate::second::add_second_declarations;
use crate::settled::Settled;
use crate::settling::{SettledInputs, settle_crates};
use crate::stats::push_counts;
use crate::trees::trees_text;
use defmap_answers::crates::{Crates, asked_crates, crate_name};
use defmap_answers::expand::{ExpandManner, Expanded, expand_text};
use defmap_answers::imports::imports_text;
use defmap_answers::incomplete::incomplete_of;
use defmap_answers::items::{Manner, items_text};
use defmap_answers::module_paths::module_at;
use defmap_answers::orphans::push_orphans;
use defmap_answers::resolve::{Finding, meaning_text};
use defmap_answers::rows::{Style, push_row};
use defmap_answers::stopwatch::Stopwatch;
use defmap_answers::survey::Survey;
use defmap_answers::syntax::add_syntax_errors;
use defmap_answers::unresolved::{Told, UnknownCount, find_unresolved, messages_text, nothing};
use defmap_answers::written_path::written_path;
use defmap_inputs::arguments::{Arguments, Question, TreeForm, Wish};
use defmap_inputs::complaints::Complaints;
use defmap_inputs::crates_read::read_crates;
use defmap_inputs::failure::{Failure, Status};
use defmap_inputs::item_options::item_options;
use defmap_inputs::item_tables::ItemTable;
use defmap_inputs::reading::{given_text, shown_path};
use dm_base::edition::Edition;
use dm_base::ids::ModuleId;
use dm_base::mod_path::ModPath;
use std::alloc::{AllocError, Global};
use std::fmt::Write;
use std::rt::{Clock, Files};

/// What the program prints, and the status that it ends with.
pub(crate) struct Answer {
    pub(crate) out: String,
    /// What goes to the standard error.
    pub(crate) told: String,
    pub(crate) status: Status,
}

/// A hand-written `Drop`, to keep proofs small: what drops one has one call to prove.
impl Drop for Answer {
    fn drop(self) {
        let Answer {
            out: _out,
            told: _told,
            status: _status,
        } = self;
    }
}

/// The status where all was told that was read, or not all was.
fn read_status(is_whole: bool) -> Status {
    if is_whole {
        Status::Fine
    } else {
        Status::Unreadable
    }
}

/// Adds lines, each of which ends.
fn push_ended(text: &mut String, lines: &[String]) -> Result<(), AllocError> {
    for line in lines {
        write!(text, "{line}\n")?;
    }
    Ok(())
}

/// What could not be read, and what else is not known, in lines.
fn ended(alloc: Global, complaints: &Complaints) -> Result<String, AllocError> {
    let mut text = String::new(alloc);
    push_ended(&mut text, complaints.lines())?;
    push_ended(&mut text, complaints.warnings())?;
    Ok(text)
}

/// Adds lines for what is unknown of a crate.
fn push_unknown(out: &mut String, name: &str, count: UnknownCount) -> Result<(), AllocError> {
    let UnknownCount {
        by_macros,
        by_standard,
        by_files,
        calls,
    } = count;
    if by_macros > 0 {
        write!(
            out,
            "{name}: {by_macros} imports unknown, which macros may bring\n"
        )?;
    }
    if by_standard > 0 {
        write!(
            out,
            "{name}: {by_standard} imports unknown, from the standard library: give its folder by --sysroot\n"
        )?;
    }
    if by_files > 0 {
        write!(
            out,
            "{name}: {by_files} imports unknown, from files that are not there\n"
        )?;
    }
    if calls > 0 {
        write!(out, "{name}: {calls} macro calls unknown\n")?;
    }
    Ok(())
}

/// What is told beside the answer to `unresolved`.
fn unknown_told<C: Crates>(
    alloc: Global,
    crates: &C,
    unknown: &[UnknownCount],
    complaints: &Complaints,
) -> Result<String, AllocError> {
    let mut told = ended(alloc, complaints)?;
    for krate in &asked_crates(alloc, crates)? {
        if let Some(count) = unknown.get(krate.0 as usize) {
            push_unknown(&mut told, crate_name(crates, *krate), *count)?;
        }
    }
    Ok(told)
}

/// Whether all crates are given that there are, those of the standard library too.
fn has_all(given: &Arguments<'_>) -> bool {
    given.sysroot.is_some() || given.fixture.is_some()
}

/// Adds what is wrong with the texts of the crates that are asked about: syntax errors, and second declarations.
fn add_wrong_texts(told: &mut Vec<Told>, survey: &Survey<'_, Settled>) -> Result<(), AllocError> {
    add_syntax_errors(told, survey.alloc(), survey.crates())?;
    add_second_declarations(told, survey.alloc(), survey.crates())
}

/// The answer to `unresolved`.
fn unresolved_answer(
    survey: &Survey<'_, Settled>,
    complaints: &Complaints,
) -> Result<Answer, AllocError> {
    let mut found = find_unresolved(survey)?;
    add_wrong_texts(&mut found.told, survey)?;
    let out = messages_text(
        survey.alloc(),
        survey.lines(),
        survey.style(),
        &mut found.told,
    )?;
    let unknown = found.unknown.as_slice();
    let told = unknown_told(survey.alloc(), survey.crates(), unknown, complaints)?;
    let status = if !complaints.lines().is_empty() {
        Status::Unreadable
    } else if found.told.is_empty() {
        Status::Fine
    } else {
        Status::Absent
    };
    Ok(Answer { out, told, status })
}

/// What could not be read or is wrong with texts, in lines, and whether there is nothing of it.
fn missing_told(
    survey: &Survey<'_, Settled>,
    complaints: &Complaints,
) -> Result<(String, bool), AllocError> {
    let alloc = survey.alloc();
    let mut missing = nothing(alloc, 0)?;
    missing.add_modules(alloc, survey.crates())?;
    add_wrong_texts(&mut missing.told, survey)?;
    let is_whole = missing.told.is_empty() && complaints.lines().is_empty();
    let mut told = ended(alloc, complaints)?;
    let modules = messages_text(alloc, survey.lines(), Style::Text, &mut missing.told)?;
    told.push_str(modules.as_str())?;
    Ok((told, is_whole))
}

/// The answer to `tree`, where diagnostics tell what modules lack.
fn diagnosed_answer(
    alloc: Global,
    out: String,
    complaints: &Complaints,
) -> Result<Answer, AllocError> {
    Ok(Answer {
        out,
        told: ended(alloc, complaints)?,
        status: read_status(complaints.lines().is_empty()),
    })
}

/// The answer to `tree`.
fn tree_answer(
    made: &SettledInputs,
    survey: &Survey<'_, Settled>,
    form: TreeForm<'_>,
) -> Result<Answer, Failure> {
    let out = trees_text(made, survey, form)?;
    if form.has_diagnostics {
        return Ok(diagnosed_answer(survey.alloc(), out, &made.complaints)?);
    }
    let (told, is_whole) = missing_told(survey, &made.complaints)?;
    Ok(Answer {
        out,
        told,
        status: read_status(is_whole),
    })
}

fn no_path<T>(alloc: Global, written: &str) -> Result<T, Failure> {
    let told = format!(in alloc; "no path {written}: give names with two colons between")?;
    Err(Failure::Told(Status::Misused, told))
}

/// The status where something was found of a path, and all was read.
fn found_status(finding: Finding) -> Status {
    match finding {
        Finding::Found => Status::Fine,
        Finding::Absent => Status::Absent,
        Finding::Unknown => Status::Unreadable,
        Finding::Behind => Status::Behind,
    }
}

/// The answer to what a path means in a module.
fn meaning_answer<C: Crates>(
    survey: &Survey<'_, C>,
    home: ModuleId,
    path: &ModPath,
    complaints: &Complaints,
) -> Result<Answer, AllocError> {
    let (out, finding) = meaning_text(survey, home, path)?;
    Ok(Answer {
        out,
        told: ended(survey.alloc(), complaints)?,
        status: if complaints.lines().is_empty() {
            found_status(finding)
        } else {
            Status::Unreadable
        },
    })
}

/// The answer to `resolve`.
fn resolve_answer<C: Crates>(
    survey: &Survey<'_, C>,
    written: &str,
    home: &str,
    complaints: &Complaints,
) -> Result<Answer, Failure> {
    let alloc = survey.alloc();
    let Some(path) = written_path(alloc, written)? else {
        return no_path(alloc, written);
    };
    let home = module_at(survey, home)?;
    Ok(meaning_answer(survey, home, &path, complaints)?)
}

/// The answer to `imports`.
fn imports_answer<C: Crates>(
    survey: &Survey<'_, C>,
    complaints: &Complaints,
) -> Result<Answer, AllocError> {
    Ok(Answer {
        out: imports_text(survey)?,
        told: ended(survey.alloc(), complaints)?,
        status: read_status(complaints.lines().is_empty()),
    })
}

/// The answer to `orphans`.
fn orphans_answer(
    made: &SettledInputs,
    survey: &Survey<'_, Settled>,
) -> Result<Answer, AllocError> {
    let alloc = survey.alloc();
    let (mut out, mut told) = (String::new(alloc), ended(alloc, &made.complaints)?);
    push_orphans(&mut out, &mut told, alloc, survey.style(), &made.orphans)?;
    let status = if !made.complaints.lines().is_empty() {
        Status::Unreadable
    } else if made.orphans.files().is_empty() {
        Status::Fine
    } else {
        Status::Absent
    };
    Ok(Answer { out, told, status })
}

/// The answer to a question.
fn answered(
    made: &SettledInputs,
    survey: &Survey<'_, Settled>,
    question: Question<'_>,
) -> Result<Answer, Failure> {
    let complaints = &made.complaints;
    match question {
        Question::Tree(form) => tree_answer(made, survey, form),
        Question::Unresolved => Ok(unresolved_answer(survey, complaints)?),
        Question::Imports => Ok(imports_answer(survey, complaints)?),
        Question::Orphans => Ok(orphans_answer(made, survey)?),
        Question::Resolve { path, home } => resolve_answer(survey, path, home, complaints),
    }
}

/// Tells behind an answer how much of the crates is not known.
fn tell_incomplete(
    answer: &mut Answer,
    survey: &Survey<'_, Settled>,
    given: &Arguments<'_>,
) -> Result<(), AllocError> {
    let incomplete = incomplete_of(survey)?;
    if incomplete.is_nothing() {
        return Ok(());
    }
    push_row(&mut answer.told, survey.alloc(), Style::Text, &incomplete)?;
    if given.is_json {
        push_row(&mut answer.out, survey.alloc(), Style::Json, &incomplete)?;
    }
    if given.is_strict && answer.status == Status::Fine {
        answer.status = Status::Unreadable;
    }
    Ok(())
}

/// How an answer without colours is written.
fn plain_style(given: &Arguments<'_>) -> Style {
    if given.is_json {
        Style::Json
    } else {
        Style::Text
    }
}

/// How the answer is written: a tree has colours on a terminal.
fn style_of(given: &Arguments<'_>, question: Question<'_>) -> Style {
    match question {
        Question::Tree(_form) if given.shown.has_colours && !given.is_json => Style::Coloured,
        _ => plain_style(given),
    }
}

/// Whether each answer tells how much is not known: the dumps of def maps tell what these have.
fn is_of_dumps(question: Question<'_>) -> bool {
    match question {
        Question::Tree(form) => form.is_dump,
        _ => false,
    }
}

/// The answer to a question, and how much of the crates is not known.
fn whole_answer(
    alloc: Global,
    made: &SettledInputs,
    given: &Arguments<'_>,
    question: Question<'_>,
) -> Result<Answer, Failure> {
    let survey = Survey::of(
        alloc,
        &made.settled,
        has_all(given),
        style_of(given, question),
    )?;
    let mut answer = answered(made, &survey, question)?;
    if !is_of_dumps(question) {
        tell_incomplete(&mut answer, &survey, given)?;
    }
    Ok(answer)
}

/// The answer by the settled crates.
fn answer_by<R: AllocGlobal + Clock>(
    rt: &R,
    given: &Arguments<'_>,
    made: &SettledInputs,
    question: Question<'_>,
    watch: &mut Stopwatch,
) -> Result<Answer, Failure> {
    let mut answered = whole_answer(rt.alloc(), made, given, question)?;
    watch.end(rt, "answering")?;
    if given.has_stats {
        push_counts(&mut answered.told, &made.settled)?;
        watch.push_lines(&mut answered.told)?;
    }
    Ok(answered)
}

/// Reads the crates that the command line names, and answers what it asks of them.
fn crates_answer<R: Files + Input + AllocGlobal + Clock + Eprint>(
    rt: &R,
    given: &Arguments<'_>,
    question: Question<'_>,
) -> Result<Answer, Failure> {
    let mut watch = Stopwatch::start(rt);
    let crates = read_crates(rt, given)?;
    watch.end(rt, "reading")?;
    let made = settle_crates(rt.alloc(), crates, given.limit)?;
    watch.end(rt, "settling")?;
    answer_by(rt, given, &made, question, &mut watch)
}

/// The table of the file that the command line names.
fn items_answer<R: Files + Input + AllocGlobal>(
    rt: &R,
    given: &Arguments<'_>,
    table: ItemTable,
) -> Result<Answer, Failure> {
    let alloc = rt.alloc();
    let options = item_options(alloc, given)?;
    let edition = given.edition.unwrap_or(Edition::Edition2021);
    let text = given_text(rt, given.root)?;
    let manner = Manner {
        edition,
        options: &options,
    };
    Ok(Answer {
        out: items_text(alloc, manner, table, text.as_str())?,
        told: String::new(alloc),
        status: Status::Fine,
    })
}

/// What the macro calls make of the file that the command line names.
fn expansions_answer<R: Files + Input + AllocGlobal>(
    rt: &R,
    given: &Arguments<'_>,
    wanted: Option<(usize, usize)>,
) -> Result<Answer, Failure> {
    let alloc = rt.alloc();
    let options = item_options(alloc, given)?;
    let text = given_text(rt, given.root)?;
    let manner = ExpandManner {
        edition: given.edition.unwrap_or(Edition::Edition2021),
        options: &options,
        style: plain_style(given),
        wanted,
    };
    let path = shown_path(given.root);
    let expanded = expand_text(alloc, manner, path, text.as_str())?;
    Ok(answer_of(expanded))
}

/// The answer of calls that were expanded.
fn answer_of(expanded: Expanded) -> Answer {
    let Expanded {
        out,
        told,
        is_whole,
    } = expanded;
    Answer {
        out,
        told,
        status: if is_whole {
            Status::Fine
        } else {
            Status::Absent
        },
    }
}

/// Reads what the command line names, and answers what it asks.
pub(crate) fn give_answer<R: Files + Input + AllocGlobal + Clock + Eprint>(
    rt: &R,
    given: &Arguments<'_>,
) -> Result<Answer, Failure> {
    match given.wish {
        Wish::OfCrates(question) => crates_answer(rt, given, question),
        Wish::OfItems(table) => items_answer(rt, given, table),
        Wish::Expansions(wanted) => expansions_answer(rt, given, wanted),
    }
}
