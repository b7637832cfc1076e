//! Parses one line of a script into a command.
ghost use Rattle.std.specs.Prelude.{◌≡◌, ◌≢◌, [], ◌∷◌, Some, None, MatchOption, if◌then◌else◌};
ghost use Rattle.std.specs.Iterator.{YieldsFirstRef, item_count};
ghost use Rattle.std.specs.Option.{option_map};
ghost use Rattle.std.specs.Str.{is_utf8};
ghost use Rattle.defmap_script.specs.Lines.{words, words_left, asked, said, said_in, said_of, command, push_line, pushed, check_line, build_line, path_line, import_line};
ghost use Rattle.defmap_script.specs.Words.{cut};

use crate::build_lines::{Addition, addition_of};
use crate::dump_lines::{Dumping, dump_line, dumpmap_line};
use crate::seeing_lines::{Sight, max_line, min_line, sees_line};
use crate::words::{
    expected_macro, import, macros_item, number, path_kind, resolve_mode, shadow_mode, types_item,
    values_item,
};
use dm_base::ids::{ModuleId, UseId, UseTreeIdx};
use dm_base::imports::{ImportId, ImportOrExternCrate};
use dm_base::mod_path::PathKind;
use dm_base::per_ns::PerNs;
use dm_maps::modes::{BuiltinShadowMode, MacroSubNs};
use hir_def_map::result::ResolveMode;

/// What a line asks for.
#[derive(Clone, Copy)]
pub(crate) enum Command<'a> {
    Add(Addition<'a>),
    Push(Pushing<'a>),
    Check,
    Build,
    Path(Question<'a>),
    /// What an import resolves to in the end, from the scope of a module.
    Import(ModuleId, ImportId),
    See(Sight),
    Dump(Dumping),
}

/// What a name resolved to, and by which import.
#[derive(Clone, Copy)]
pub(crate) struct Pushing<'a> {
    pub(crate) module: ModuleId,
    pub(crate) name: &'a str,
    pub(crate) res: PerNs,
    pub(crate) import: Option<ImportOrExternCrate>,
}

/// Which places a question asks: the origin and those outside, or the origin alone.
#[derive(Clone, Copy)]
pub(crate) enum Reach {
    Outwards,
    Alone,
}

/// A path, and how it is asked for.
#[derive(Clone, Copy)]
pub(crate) struct Question<'a> {
    pub(crate) reach: Reach,
    pub(crate) from: ModuleId,
    pub(crate) mode: ResolveMode,
    pub(crate) shadow: BuiltinShadowMode,
    pub(crate) expected: Option<MacroSubNs>,
    pub(crate) kind: PathKind,
    pub(crate) segments: Words<'a>,
}

/// The words of a line, separated by one or more spaces. Spaces before the first and after the last are ignored.
#[derive(Clone, Copy)]
pub(crate) struct Words<'a> {
    text: &'a str,
}

impl<'a> Words<'a> {
    pub(crate) fn of(text: &'a str) -> Words<'a>
        ensures { result.text.now ≡ text.now }
    {
        Words { text }
    }

    /// Some(()) where no word is left.
    pub(crate) fn end(mut self) -> Option<()>
        ensures { MatchOption result (words_left self.entry ≢ []) (λ _. words_left self.entry ≡ []) }
    {
        match self.next() {
            None => Some(()),
            Some(_) => None,
        }
    }
}

impl<'a> Iterator for Words<'a> {
    type Item = &'a str;

    ghost next_gives = { YieldsFirstRef (λ w. words w.text.now) };

    ghost remaining = { item_count (λ w. words w.text.now) };

    fn next(&mut self) -> Option<&'a str> {
        while let Some((word, rest)) = cut_at_space(self.text) {
            self.text = rest;
            if !word.is_empty() {
                return Some(word);
            }
        }
        let last = self.text;
        self.text = "";
        if last.is_empty() { None } else { Some(last) }
    }
}

/// The parts before and behind the first space.
fn cut_at_space(text: &str) -> Option<(&str, &str)>
    ensures { option_map (λ p. (p.0.now, p.1.now)) result ≡ cut 32 text.now }
{
    text.split_once(' ')
}

/// A malformed line.
#[derive(Clone, Copy)]
pub(crate) struct BadLine;

/// What a line asks for; nothing where it begins with `#` or has no word.
///
/// A bad line has an unknown first word, too few or too many words, a word of a wrong form, or is not UTF-8.
pub(crate) fn read_line(line: &[u8]) -> Result<Option<Command<'_>>, BadLine>
    ensures { said_of result ≡ said line.now }
{
    if line.starts_with(b"#") {
        return Ok(None);
    }
    match utf8_text(line) {
        Some(text) => read_text(text),
        None => Err(BadLine),
    }
}

fn utf8_text(line: &[u8]) -> Option<&str>
    ensures { option_map (λ text. text.now) result ≡ (if is_utf8 line.now then Some line.now else None) }
{
    match std::str::from_utf8(line) {
        Ok(text) => Some(text),
        Err(_) => None,
    }
}

fn read_text(text: &str) -> Result<Option<Command<'_>>, BadLine>
    ensures { said_of result ≡ said_in (words text.now) }
{
    let mut words = Words::of(text);
    let Some(first) = words.next() else {
        return Ok(None);
    };
    match command_of(first, words) {
        Some(command) => Ok(Some(command)),
        None => Err(BadLine),
    }
}

/// The command of a first word and the words behind it.
fn command_of<'a>(first: &str, words: Words<'a>) -> Option<Command<'a>>
    ensures { option_map asked result ≡ command (first.now ∷ words_left words.entry) }
{
    match first {
        "push" => push_line(words),
        "check" => check_line(words),
        "build" => build_line(words),
        "path" => path_line(Reach::Outwards, words),
        "single" => path_line(Reach::Alone, words),
        "import" => import_line(words),
        "max" => Some(Command::See(max_line(words)?)),
        "min" => Some(Command::See(min_line(words)?)),
        "sees" => Some(Command::See(sees_line(words)?)),
        "dump" => Some(Command::Dump(dump_line(words)?)),
        "dumpmap" => Some(Command::Dump(dumpmap_line(words)?)),
        _ => Some(Command::Add(addition_of(first, words)?)),
    }
}

/// `push MODULE NAME ITEM ITEM ITEM IMPORT`, behind its first word.
fn push_line(mut words: Words<'_>) -> Option<Command<'_>>
    ensures { option_map asked result ≡ push_line (words_left words.entry) }
{
    let module = ModuleId(number(words.next()?)?);
    let name = words.next()?;
    let (res, import) = pushed(words)?;
    Some(Command::Push(Pushing {
        module,
        name,
        res,
        import,
    }))
}

/// Three items and an import.
fn pushed(mut words: Words<'_>) -> Option<(PerNs, Option<ImportOrExternCrate>)>
    ensures { result ≡ pushed (words_left words.entry) }
{
    let types = types_item(words.next()?)?;
    let values = values_item(words.next()?)?;
    let macros = macros_item(words.next()?)?;
    let import = import(words.next()?)?;
    words.end()?;
    Some((
        PerNs {
            types,
            values,
            macros,
        },
        import,
    ))
}

/// `check`, behind which there is no word.
fn check_line(words: Words<'_>) -> Option<Command<'_>>
    ensures { option_map asked result ≡ check_line (words_left words.entry) }
{
    words.end()?;
    Some(Command::Check)
}

/// `build`, behind which there is no word.
fn build_line(words: Words<'_>) -> Option<Command<'_>>
    ensures { option_map asked result ≡ build_line (words_left words.entry) }
{
    words.end()?;
    Some(Command::Build)
}

/// `path MODULE MODE SHADOW EXPECT PATH`, or `single` with the same, behind its first word. Any words may be segments.
fn path_line(reach: Reach, mut words: Words<'_>) -> Option<Command<'_>>
    ensures { option_map asked result ≡ path_line reach (words_left words.entry) }
{
    Some(Command::Path(Question {
        reach,
        from: ModuleId(number(words.next()?)?),
        mode: resolve_mode(words.next()?)?,
        shadow: shadow_mode(words.next()?)?,
        expected: expected_macro(words.next()?)?,
        kind: path_kind(words.next()?)?,
        segments: words,
    }))
}

/// `import MODULE USE IDX`, behind its first word.
fn import_line(mut words: Words<'_>) -> Option<Command<'_>>
    ensures { option_map asked result ≡ import_line (words_left words.entry) }
{
    let module = ModuleId(number(words.next()?)?);
    let use_ = UseId(number(words.next()?)?);
    let idx = UseTreeIdx(number(words.next()?)?);
    words.end()?;
    Some(Command::Import(module, ImportId { use_, idx }))
}
