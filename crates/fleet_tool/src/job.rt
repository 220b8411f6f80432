//! The command line.

ghost use Rattle.std.specs.Prelude.{◌≡◌, ◌∷◌, [], IfOk, IfErr, Ok, codes, map};
ghost use Rattle.std.specs.List.{list_any};
ghost use Rattle.std.specs.Str.{bytes_eq};
ghost use Rattle.clap.specs.Words.{app_of, shape_of, with_subcommand, kind_of, Kinds, HasKind};
ghost use Rattle.fleet_tool.specs.CommandLine.{fleet_app, texts_app, top, lines_shape, line_faults, NameTask, NameExplained, AsksDrill, IsWhy};
ghost use Rattle.fleet_tool.specs.DrillLine.{IsDrillTask};
ghost use Rattle.fleet_tool.specs.TaskName.{name_of, as_text_task};

use crate::drill_line::{DrillTask, drill_command, drill_in};
use crate::help;
use clap::error::ErrorKind;
use clap::{Arg, ArgAction, Command, Error};
use std::alloc::{AllocError, Global};
use std::convert::AsStr;
use std::fmt;
use thiserror::Error as ErrorTraits;

/// A task over a text: a script, a log, or a capture.
#[derive(Clone, Copy)]
pub enum TextTask {
    Run,
    Check,
    Inspect,
}

/// A task over lines, a script or a log: a line may be bad, and a fact may break a law.
#[derive(Clone, Copy)]
pub enum LinesTask {
    Run,
    Check,
}

impl LinesTask {
    /// The task of the same name.
    pub fn text_task(self) -> TextTask
        ensures { result ≡ as_text_task self }
    {
        match self {
            LinesTask::Run => TextTask::Run,
            LinesTask::Check => TextTask::Check,
        }
    }
}

/// What the command line asks for: an answer to standard input, the same with a reason on standard error, or a drill.
#[derive(Clone, Copy)]
pub enum Task {
    Text(TextTask),
    Explained(LinesTask),
    Drill(DrillTask),
}

/// Why the command line names no task.
#[derive(Debug, Drop, ErrorTraits)]
pub enum CommandFault {
    /// The text of the help, or of the version.
    Help(String),
    Bad,
    Memory,
}

impl fmt::Display for CommandFault {
    fn fmt<W: fmt::Write>(&self, f: &mut fmt::Formatter<W>) -> fmt::Result {
        f.write_str(match self {
            CommandFault::Help(text) => text.as_str(),
            CommandFault::Bad => "bad command line",
            CommandFault::Memory => "out of memory",
        })
    }
}

// A task over lines, which may be explained.
fn lines_command<'a>(
    alloc: Global,
    name: &'a str,
    about: &'a str,
    forms: &'a str,
) -> Result<Command<'a>, AllocError>
    ensures { IfOk result (λ c. shape_of c ≡ lines_shape name.entry.now) }
{
    let explain = Arg::new(alloc, "explain")
        .long("explain")
        .help(help::EXPLAIN)
        .action(ArgAction::SetTrue);
    Command::new(alloc, name)
        .about(about)
        .after_help(forms)
        .arg(explain)
}

// The program without its tasks.
fn program<'a>(alloc: Global) -> Command<'a>
    ensures { app_of result ≡ top }
{
    Command::new(alloc, "fleet")
        .about("Storage segments of a redo log")
        .version(help::VERSION)
        .after_help(help::STATUSES)
        .subcommand_required(true)
        .disable_help_subcommand(true)
}

// The command with a task over lines.
fn with_lines<'a>(
    alloc: Global,
    command: Command<'a>,
    name: &'a str,
    about: &'a str,
    forms: &'a str,
) -> Result<Command<'a>, AllocError>
    ensures { IfOk result (λ c. app_of c ≡ with_subcommand (app_of command.entry) (lines_shape name.entry.now)) }
{
    command.subcommand(lines_command(alloc, name, about, forms)?)
}

// The program with the tasks over standard input.
fn texts_command<'a>(alloc: Global) -> Result<Command<'a>, AllocError>
    ensures { IfOk result (λ c. app_of c ≡ texts_app) }
{
    let with_run = with_lines(
        alloc,
        program(alloc),
        "run",
        "Runs the script on standard input",
        help::RUN,
    )?;
    let with_check = with_lines(
        alloc,
        with_run,
        "check",
        "Checks whether the log on standard input is sound",
        help::CHECK,
    )?;
    let inspect = Command::new(alloc, "inspect")
        .about("Decodes each line of hexadecimal digits on standard input")
        .after_help(help::INSPECT);
    with_check.subcommand(inspect)
}

fn command<'a>(alloc: Global) -> Result<Command<'a>, AllocError>
    ensures { IfOk result (λ c. app_of c ≡ fleet_app) }
{
    texts_command(alloc)?.subcommand(drill_command(alloc)?)
}

fn fault_of(alloc: Global, error: Error) -> CommandFault
    ensures memory { kind_of error ≡ ErrorKind.OutOfMemory → result ≡ CommandFault.Memory }
    ensures why { (kinds : Kinds) → HasKind kinds error → IsWhy kinds result }
{
    match error.kind() {
        ErrorKind::DisplayHelp | ErrorKind::DisplayVersion => match error.to_string(alloc) {
            Ok(text) => CommandFault::Help(text),
            Err(_) => CommandFault::Memory,
        },
        ErrorKind::OutOfMemory => CommandFault::Memory,
        _ => CommandFault::Bad,
    }
}

/// The message of clap for arguments that it rejects, with the usage. None where it accepts them, or the text cannot be allocated.
pub(crate) fn complaint<S: AsStr>(alloc: Global, words: &[S]) -> Option<String> {
    match command(alloc).ok()?.try_get_matches_from(words) {
        Ok(_) => None,
        Err(error) => error.to_string(alloc).ok(),
    }
}

/// The task with this name; `Bad` where there is none.
fn task_of(name: &str) -> Result<TextTask, CommandFault>
    ensures named { IfOk result (λ task. name.now ≡ name_of task) }
    ensures known { (task : TextTask) → name.now ≡ name_of task → result ≡ Ok task }
    ensures bad { IfErr result (λ e. e ≡ CommandFault.Bad) }
{
    match name {
        "run" => Ok(TextTask::Run),
        "check" => Ok(TextTask::Check),
        "inspect" => Ok(TextTask::Inspect),
        _ => Err(CommandFault::Bad),
    }
}

// The task with this name and this option; `Bad` where no task has both.
fn explained_of(name: &str, option: &str) -> Result<LinesTask, CommandFault>
    ensures named { IfOk result (λ task. name.now ≡ name_of (as_text_task task)) }
    ensures option { IfOk result (λ _. option.now ≡ codes "--explain") }
    ensures known { (task : LinesTask) → name.now ≡ name_of (as_text_task task) → option.now ≡ codes "--explain" → result ≡ Ok task }
    ensures bad { IfErr result (λ e. e ≡ CommandFault.Bad) }
{
    match (task_of(name), option) {
        (Ok(TextTask::Run), "--explain") => Ok(LinesTask::Run),
        (Ok(TextTask::Check), "--explain") => Ok(LinesTask::Check),
        _ => Err(CommandFault::Bad),
    }
}

// The task over standard input that the arguments name, alone or with the option.
fn text_task_of<S: AsStr>(words: &[S]) -> Result<Task, CommandFault>
    ensures text { (task : TextTask) → result ≡ Ok (Task.Text task) → (program word : S) × (words.now ≡ program ∷ word ∷ []) × (S.text word ≡ name_of task) }
    ensures explained { (task : LinesTask) → result ≡ Ok (Task.Explained task) → (program word option : S) × (words.now ≡ program ∷ word ∷ option ∷ [])
        × (S.text word ≡ name_of (as_text_task task)) × (S.text option ≡ codes "--explain") }
    ensures drill { (task : DrillTask) → result ≡ Ok (Task.Drill task) → ⊥ }
    ensures taken { (task : TextTask) → NameTask (map S.text words.now) task → result ≡ Ok (Task.Text task) }
    ensures explained_taken { (task : LinesTask) → NameExplained (map S.text words.now) task → result ≡ Ok (Task.Explained task) }
    ensures bad { IfErr result (λ e. e ≡ CommandFault.Bad) }
{
    match words {
        [_, name] => match task_of(name.as_str()) {
            Ok(task) => Ok(Task::Text(task)),
            Err(fault) => Err(fault),
        },
        [_, name, option] => match explained_of(name.as_str(), option.as_str()) {
            Ok(task) => Ok(Task::Explained(task)),
            Err(fault) => Err(fault),
        },
        _ => Err(CommandFault::Bad),
    }
}

// Whether an argument is `--`, after which none is an option: clap leaves it out.
fn has_mark<S: AsStr>(words: &[S]) -> bool
    ensures { result ≡ list_any (λ word. bytes_eq (S.text word) (codes "--")) words.now }
{
    words.iter().any(|word| word.as_str() == "--")
}

/// The task that the command-line arguments name; the first is the program's name. A drill is within its ranges.
///
/// `--explain` is accepted only after `run` or `check`.
///
/// Errors: `Help` where the arguments ask for it or for the version, `Bad` where they are not those of a task, `Memory`.
pub fn job_of<S: AsStr>(alloc: Global, words: &[S]) -> Result<Task, CommandFault>
    ensures text { (task : TextTask) → result ≡ Ok (Task.Text task) → (program word : S) × (words.now ≡ program ∷ word ∷ []) × (S.text word ≡ name_of task) }
    ensures explained { (task : LinesTask) → result ≡ Ok (Task.Explained task) → (program word option : S) × (words.now ≡ program ∷ word ∷ option ∷ [])
        × (S.text word ≡ name_of (as_text_task task)) × (S.text option ≡ codes "--explain") }
    ensures drill { (task : DrillTask) → result ≡ Ok (Task.Drill task) → AsksDrill (map S.text words.now) task }
    ensures range { (task : DrillTask) → result ≡ Ok (Task.Drill task) → IsDrillTask task }
    ensures taken { (task : TextTask) → NameTask (map S.text words.now) task → IfErr result (λ e. e ≡ CommandFault.Memory) }
    ensures explained_taken { (task : LinesTask) → NameExplained (map S.text words.now) task → IfErr result (λ e. e ≡ CommandFault.Memory) }
    ensures drilled { (task : DrillTask) → AsksDrill (map S.text words.now) task → IsDrillTask task → IfErr result (λ e. e ≡ CommandFault.Memory) }
    ensures why { IfErr result (IsWhy (line_faults (map S.text words.now))) }
{
    let command = match command(alloc) {
        Ok(command) => command,
        Err(_) => return Err(CommandFault::Memory),
    };
    let matches = match command.try_get_matches_from(words) {
        Ok(matches) => matches,
        Err(error) => return Err(fault_of(alloc, error)),
    };
    if let Some(options) = matches.subcommand_matches("drill") {
        let Some(task) = drill_in(options) else {
            return Err(CommandFault::Bad);
        };
        if !task.is_in_range() || has_mark(words) {
            return Err(CommandFault::Bad);
        }
        return Ok(Task::Drill(task));
    }
    // Clap has rejected any other argument of a task, except `--`, which it would leave out.
    text_task_of(words)
}
