//! The interpreter: the state of a run, and what a command does to it.
ghost use Rattle.std.specs.Prelude.{◌≡◌, Some, IfOk, IfSome};
ghost use Rattle.std.specs.String.{string_bytes};
ghost use Rattle.hir_def_map.specs.Paths as paths;
ghost use Rattle.hir_def_map.specs.Questions as questions;
ghost use Rattle.defmap_script.specs.Engine.{fresh, Answers, Finds, PushesInto, PushesWithin, reply_text, Steps};
ghost use Rattle.defmap_script.specs.Lines.{asked, asking, Checks, Reopens, words_left};
ghost use Rattle.defmap_script.specs.declared.engine.Reply.TheVariants.{Sees};

use crate::building::add;
use crate::dump_text::DumpText;
use crate::dumping::dumped;
use crate::fault::Fault;
use crate::following::follow;
use crate::lines::{Command, Pushing, Question, Reach, Words};
use crate::print::{AnswerWords, ItemWords, VisibilityWord};
use crate::seeing::sight;
use dm_base::mod_path::ModPath;
use dm_base::name::Name;
use dm_base::per_ns::PerNs;
use dm_base::visibility::Visibility;
use dm_maps::builder::WorldBuilder;
use dm_maps::def_map::DefMap;
use dm_maps::local_def_map::LocalDefMap;
use dm_maps::world::World;
use dm_maps::world::maps_of::local_def_map;
use dm_scope::glob_imports::PerNsGlobImports;
use hir_def_map::path_resolution::ResolvePath;
use hir_def_map::result::ResolvePathResult;
use std::alloc::{AllocError, Global};
use std::marker::Model;
use std::{fmt, mem};

/// The bytes that most lines fit into.
const ROOM: usize = 96;

/// The state: a builder's tables, or a checked world.
#[derive(Drop)]
pub(crate) enum Stage {
    Building(WorldBuilder),
    Checked(World),
}

/// What a line prints.
#[derive(Drop)]
pub(crate) enum Reply {
    Nothing,
    Pushed(bool),
    Answered(ResolvePathResult),
    Ended(PerNs),
    Sees(bool),
    Compared(Option<Visibility>),
    Dumped(DumpText),
}

impl fmt::Display for Reply {
    ghost output = { λ reply. Some (reply_text reply) };

    fn fmt<W: fmt::Write>(&self, f: &mut fmt::Formatter<W>) -> fmt::Result {
        match self {
            Reply::Nothing => Ok(()),
            Reply::Pushed(answer) | Reply::Sees(answer) => f.write_str(truth(*answer)),
            Reply::Answered(answer) => write!(f, "{}\n", AnswerWords(*answer)),
            Reply::Ended(items) => write!(f, "{}\n", ItemWords(*items)),
            Reply::Compared(None) => f.write_str("none\n"),
            Reply::Compared(Some(visibility)) => write!(f, "{}\n", VisibilityWord(*visibility)),
            Reply::Dumped(dump) => f.write_str(dump.as_str()),
        }
    }
}

impl Reply {
    /// All that the reply prints, where it is a word that is known beforehand.
    pub(crate) fn word(&self) -> Option<&'static str>
        ensures { IfSome result (λ word. word.now ≡ reply_text self.now) }
    {
        match self {
            Reply::Nothing => Some(""),
            Reply::Pushed(answer) | Reply::Sees(answer) => Some(truth(*answer)),
            Reply::Compared(None) => Some("none\n"),
            _ => None,
        }
    }
}

/// The line of an answer that is true or false.
fn truth(answer: bool) -> &'static str
    ensures { result.now ≡ reply_text (Sees answer) }
{
    if answer { "true\n" } else { "false\n" }
}

/// What a reply prints, as a text that has room for most lines from the beginning.
pub(crate) fn text_of(alloc: Global, reply: Reply) -> Result<String, AllocError>
    ensures { IfOk result (λ text. string_bytes text ≡ reply_text reply) }
{
    let mut f = fmt::Formatter::new(String::with_capacity(alloc, ROOM)?);
    match f.write(reply) {
        Ok(()) => Ok(f.into_inner()),
        Err(_) => Err(AllocError),
    }
}

/// The state of a run. A line that fails ends the run, so the state after it does not matter.
pub(crate) struct Engine {
    stage: Stage,
    globs: PerNsGlobImports,
    alloc: Global,
}

/// Hand-written `Drop`, to keep proofs small: dropping one is then a single call.
impl Drop for Engine {
    fn drop(self) {
        let Engine {
            stage: _stage,
            globs: _globs,
            alloc: _alloc,
        } = self;
    }
}

impl Model for Engine {
    ghost use Rattle.defmap_script.specs.Engine.{Tool};

    ghost Value = { Tool };

    ghost view = { λ e. record { stage = e.stage; globs = e.globs } };
}

impl Engine {
    /// A run that begins with an empty builder, which allocates from `alloc`. Nothing is allocated yet.
    pub(crate) fn new(alloc: Global) -> Engine
        ensures { result ≡ fresh }
    {
        Engine {
            stage: Stage::Building(WorldBuilder::new(alloc)),
            globs: PerNsGlobImports::new(alloc),
            alloc,
        }
    }

    /// Does what a line asks for.
    pub(crate) fn run(&mut self, command: Command<'_>) -> Result<Reply, Fault>
        ensures { Steps self.old (asked command.entry) result self.new }
    {
        match &mut self.stage {
            Stage::Building(builder) => match command {
                Command::Add(addition) => {
                    add(builder, self.alloc, addition)?;
                    Ok(Reply::Nothing)
                }
                Command::Push(pushing) => push(builder, &mut self.globs, self.alloc, pushing),
                Command::Check => self.check(),
                Command::Build
                | Command::Path(_)
                | Command::Import(_, _)
                | Command::See(_)
                | Command::Dump(_) => Err(Fault::NeedsWorld),
            },
            Stage::Checked(world) => match command {
                Command::Push(pushing) => push_within(world, &mut self.globs, self.alloc, pushing),
                Command::Path(question) => answer(world, self.alloc, question),
                Command::Import(m, import) => follow(world, m, import),
                Command::See(question) => sight(world, question),
                Command::Dump(dumping) => dumped(world, self.alloc, dumping),
                Command::Build => self.build(),
                Command::Add(_) | Command::Check => Err(Fault::NeedsBuilder),
            },
        }
    }

    /// From the builder to the checked world.
    fn check(&mut self) -> Result<Reply, Fault>
        ensures { Steps self.old Checks result self.new }
    {
        let empty = Stage::Building(WorldBuilder::new(self.alloc));
        match mem::replace(&mut self.stage, empty) {
            Stage::Building(builder) => match builder.check() {
                Ok(world) => {
                    self.stage = Stage::Checked(world);
                    Ok(Reply::Nothing)
                }
                Err((_, fault)) => Err(Fault::World(fault)),
            },
            Stage::Checked(_) => Err(Fault::NeedsBuilder),
        }
    }

    /// From the checked world back to its builder.
    fn build(&mut self) -> Result<Reply, Fault>
        ensures { Steps self.old Reopens result self.new }
    {
        let empty = Stage::Building(WorldBuilder::new(self.alloc));
        match mem::replace(&mut self.stage, empty) {
            Stage::Building(_) => Err(Fault::NeedsWorld),
            Stage::Checked(world) => {
                self.stage = Stage::Building(world.into_builder());
                Ok(Reply::Nothing)
            }
        }
    }
}

/// Pushes into the scope of a module of the builder.
fn push(
    builder: &mut WorldBuilder,
    globs: &mut PerNsGlobImports,
    alloc: Global,
    pushing: Pushing<'_>,
) -> Result<Reply, Fault>
    ensures { PushesInto builder.old globs.old pushing.entry result builder.new globs.new }
{
    let m = pushing.module;
    let Some(scope) = builder.scope_mut(m) else {
        return Err(Fault::Unknown);
    };
    let name = Name::new(alloc, pushing.name)?;
    let changed = scope.push_res_with_import(globs, (m, name), pushing.res, pushing.import)?;
    Ok(Reply::Pushed(changed))
}

/// Pushes into the scope of a module of the world, where all that the push names is the world's.
fn push_within(
    world: &mut World,
    globs: &mut PerNsGlobImports,
    alloc: Global,
    pushing: Pushing<'_>,
) -> Result<Reply, Fault>
    ensures { PushesWithin world.old globs.old pushing.entry result world.new globs.new }
{
    let m = pushing.module;
    if !world.knows_res(m, &pushing.res, pushing.import) {
        return Err(Fault::Unknown);
    }
    let name = Name::new(alloc, pushing.name)?;
    let written = world.push_res(globs, (m, name), pushing.res, pushing.import)?;
    Ok(Reply::Pushed(written))
}

/// What a path resolves to in a world.
fn answer(world: &World, alloc: Global, question: Question<'_>) -> Result<Reply, Fault>
    ensures { Answers world.now (asking question.entry) result }
{
    let Some((map, local)) = known(world, alloc, question) else {
        return Err(Fault::Unknown);
    };
    let path = ModPath::from_segments(question.kind, names(alloc, question.segments)?);
    Ok(Reply::Answered(match question.reach {
        Reach::Outwards => resolved(world, map, local, question, &path),
        Reach::Alone => map.resolve_path_fp_with_macro_single(
            local,
            world,
            question.mode,
            question.from,
            &path,
            question.shadow,
            question.expected,
        ),
    }))
}

/// What a path resolves to in its origin, the modules around its blocks, and the preludes. It is not inlined, so that
/// `bench/run` can count what is inside this call.
#[inline(never)]
fn resolved(
    world: &World,
    map: &DefMap,
    local: &LocalDefMap,
    question: Question<'_>,
    path: &ModPath,
) -> ResolvePathResult
    requires { questions.IsKnownQuestion world.now map.now local.now question.from path.now.kind }
    ensures { result
        ≡ paths.answer world.now local.now
        (paths.asked question.entry.from question.entry.mode question.entry.shadow
        question.entry.expected path.now.kind)
        path.now.segments }
{
    map.resolve_path_fp_with_macro(
        local,
        world,
        question.mode,
        question.from,
        path,
        question.shadow,
        question.expected,
    )
}

/// The map that a question is about and the extern prelude of its crate, where all that the question names is the world's.
fn known<'a>(
    world: &'a World,
    alloc: Global,
    question: Question<'_>,
) -> Option<(&'a DefMap, &'a LocalDefMap)>
    ensures { Finds world.now (asking question.entry) result }
{
    let map = world.map_of(question.from)?;
    let beginning = ModPath::from_segments(question.kind, Vec::new(alloc));
    if !world.has_crate(map.krate()) || !world.knows_path(&beginning) {
        return None;
    }
    Some((map, local_def_map(world, map.krate())))
}

/// The words as names.
fn names(alloc: Global, words: Words<'_>) -> Result<Vec<Name>, AllocError>
    ensures { IfOk result (λ names. names.items ≡ words_left words.entry) }
{
    let mut names = Vec::with_capacity(alloc, 8)?;
    for word in words {
        names.push(Name::new(alloc, word)?)?;
    }
    Ok(names)
}
