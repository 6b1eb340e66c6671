//! The words of the command line.

ghost use Rattle.std.specs.Prelude.{◌≡◌, IfOk, codes, option_map};
ghost use Rattle.clap.specs.Words.{app_of, first_value, found_of};
ghost use Rattle.program_run.specs.Words.{epoch_named, epoch_of, form, form_named, form_of, is_given, line, mode_named, seed_of, spelled, task_asked, task_of};

use clap::error::ErrorKind;
use clap::{Arg, ArgMatches, Command};
use script_text::number_in;
use std::alloc::{AllocError, Global};

/// The line that tells the forms.
pub const USAGE: &[u8] =
    b"usage: doltrun ordered|threads|replay [--epoch N] | load --seed N [--epoch N]\n";

/// What the program is to do.
#[derive(Clone, Copy, PartialEq, Eq)]
pub enum Mode {
    /// Run a script's statements in the order of its lines.
    Ordered,
    /// Run each session in a thread of its own.
    Threads,
    /// Run a script's statements in the order that it gives.
    Replay,
    /// Run a workload that is made from a seed.
    Load,
}

/// What the words ask for.
#[derive(Clone, Copy, PartialEq, Eq)]
pub struct Invocation {
    pub mode: Mode,
    /// The date of every commit.
    pub epoch: i64,
    /// What `load` makes its workload from; no other mode has one.
    pub seed: Option<u64>,
}

/// What the order of a run's moments comes from.
#[derive(Clone, Copy, PartialEq, Eq)]
pub enum MomentOrder {
    /// The statements are run one after another, in the order of the script's lines.
    OfLines,
    /// The script gives it.
    Given,
    /// Each session is run in a thread of its own, and it is the order in which they come to the shared database.
    OfThreads,
}

impl MomentOrder {
    /// Whether the script gives the order, in a line before its statements.
    pub fn is_given(self) -> bool
        ensures { result ≡ is_given self }
    {
        matches!(self, MomentOrder::Given)
    }
}

/// A run of the script that the input has.
#[derive(Clone, Copy, PartialEq, Eq)]
pub struct ScriptRun {
    pub order: MomentOrder,
    /// The date of every commit.
    pub epoch: i64,
}

/// A run of the workload that is made from a seed.
#[derive(Clone, Copy, PartialEq, Eq)]
pub struct LoadRun {
    pub seed: u64,
    /// The date of every commit.
    pub epoch: i64,
}

/// What words ask to be run.
#[derive(Clone, Copy, PartialEq, Eq)]
pub enum Task {
    Script(ScriptRun),
    Load(LoadRun),
}

/// What the words ask to be run; `None` where they are no form.
pub fn task_to_do(alloc: Global, words: &[String]) -> Result<Option<Task>, AllocError>
    ensures { IfOk result (λ task. task ≡ task_asked (spelled words.now)) }
{
    match read_words(alloc, words)? {
        Some(asked) => Ok(task_in(asked.mode, asked.epoch, asked.seed)),
        None => Ok(None),
    }
}

fn task_in(mode: Mode, epoch: i64, seed: Option<u64>) -> Option<Task>
    ensures { result ≡ task_of mode epoch seed }
{
    let order = match mode {
        Mode::Ordered => MomentOrder::OfLines,
        Mode::Threads => MomentOrder::OfThreads,
        Mode::Replay => MomentOrder::Given,
        Mode::Load => return Some(Task::Load(LoadRun { seed: seed?, epoch })),
    };
    Some(Task::Script(ScriptRun { order, epoch }))
}

/// What the words, without the program's name, ask for; `None` where they are none of the program's forms.
pub fn read_words<'a>(alloc: Global, words: &'a [String]) -> Result<Option<Invocation>, AllocError>
    ensures { IfOk result (λ read. read ≡ form (spelled words.entry.now)) }
{
    match command(alloc)?.try_get_matches_from(words) {
        Ok(matches) => Ok(form_in(&matches)),
        Err(error) => match error.kind() {
            ErrorKind::OutOfMemory => Err(AllocError),
            _ => Ok(None),
        },
    }
}

fn command<'a>(alloc: Global) -> Result<Command<'a>, AllocError>
    ensures { IfOk result (λ command. app_of command ≡ line) }
{
    let mode = Arg::new(alloc, "mode").required(true);
    let epoch = Arg::new(alloc, "epoch").long("epoch");
    let seed = Arg::new(alloc, "seed").long("seed");
    Command::new(alloc, "doltrun")
        .no_binary_name(true)
        .disable_help_flag(true)
        .disable_version_flag(true)
        .arg(mode)?
        .arg(epoch)?
        .arg(seed)
}

fn form_in(matches: &ArgMatches) -> Option<Invocation>
    ensures { result ≡ form_named (first_value (found_of matches.now) (codes "mode"))
        (first_value (found_of matches.now) (codes "epoch"))
        (first_value (found_of matches.now) (codes "seed")) }
{
    let mode = mode_in(matches.get_str("mode")?)?;
    form_for(mode, matches.get_str("epoch"), matches.get_str("seed"))
}

fn form_for(mode: Mode, epoch: Option<&str>, seed: Option<&str>) -> Option<Invocation>
    ensures { result ≡ form_of mode (option_map (λ text. text.now) epoch.entry) (option_map (λ text. text.now) seed.entry) }
{
    let epoch = epoch_or_zero(epoch)?;
    let seed = seed_for(mode, seed)?;
    Some(Invocation { mode, epoch, seed })
}

fn mode_in(text: &str) -> Option<Mode>
    ensures { result ≡ mode_named text.now }
{
    match text {
        "ordered" => Some(Mode::Ordered),
        "threads" => Some(Mode::Threads),
        "replay" => Some(Mode::Replay),
        "load" => Some(Mode::Load),
        _ => None,
    }
}

fn epoch_or_zero(epoch: Option<&str>) -> Option<i64>
    ensures { result ≡ epoch_of (option_map (λ text. text.now) epoch.entry) }
{
    match epoch {
        None => Some(0),
        Some(text) => epoch_in(text),
    }
}

fn epoch_in(text: &str) -> Option<i64>
    ensures { result ≡ epoch_named text.now }
{
    i64::try_from(number_in(text)?).ok()
}

fn seed_for(mode: Mode, seed: Option<&str>) -> Option<Option<u64>>
    ensures { result ≡ seed_of mode (option_map (λ text. text.now) seed.entry) }
{
    match (mode, seed) {
        (Mode::Load, None) => None,
        (Mode::Load, Some(text)) => Some(Some(number_in(text)?)),
        (_, None) => Some(None),
        (_, Some(_)) => None,
    }
}
