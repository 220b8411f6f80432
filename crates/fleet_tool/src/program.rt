//! The program, over any runtime.

ghost use Rattle.fleet_tool.specs.DrillLine.{IsDrillTask};

use crate::answer::Verdict;
use crate::drill_line::DrillTask;
use crate::drilling::drill_text;
use crate::ending::{status_of, words_of};
use crate::job::{CommandFault, LinesTask, Task, TextTask, complaint, job_of};
use crate::run::{explain_text, inspect_text, last_text};
use framing::Named;
use framing::devices::{RunFault, Watched};
use framing::statuses::{BAD, DEVICE, MEMORY};
use std::alloc::AllocError;
use std::process::ExitCode;
use std::rt::Env;
use std::sync::Wait;
use std::thread::Threads;
use std::{env, io};

/// The program's name in its help, whatever path it was started by.
const NAME: &[u8] = b"fleet";

/// Prints the reason on standard error, and returns the status.
fn failed(rt: &impl Eprint, why: &str, status: u8) -> ExitCode {
    let _ = rt.eprintln(format_args!("fleet: {why}"));
    ExitCode::from(status)
}

/// Prints on standard error that the command line is bad, and then clap's message.
fn failed_line(rt: &(impl Eprint + AllocGlobal), words: &[String]) -> ExitCode {
    let status = failed(rt, "bad command line", BAD);
    if let Some(said) = complaint(rt.alloc(), words) {
        let _ = rt.eprint(format_args!("{said}"));
    }
    status
}

/// The status for the result of a text call, after its message on standard error.
fn status_after(rt: &impl Eprint, ended: Result<Verdict, RunFault>) -> ExitCode {
    let words = words_of(ended);
    if !words.is_empty() {
        return failed(rt, words, status_of(ended));
    }
    ExitCode::from(status_of(ended))
}

/// Answers standard input on standard output.
fn answer_input(
    rt: &(impl Input + Print + Eprint + AllocGlobal + Threads + Sync),
    task: TextTask,
) -> ExitCode {
    let mut reader = Watched::new(rt.reader());
    let mut writer = Watched::new(io::writer(rt));
    let ended = match task {
        TextTask::Run => last_text(rt, rt.alloc(), LinesTask::Run, &mut reader, &mut writer),
        TextTask::Check => last_text(rt, rt.alloc(), LinesTask::Check, &mut reader, &mut writer),
        TextTask::Inspect => inspect_text(rt, rt.alloc(), &mut reader, &mut writer).map(
            |()| Verdict::Done,
        ),
    };
    status_after(rt, ended)
}

/// Does the same, and prints the reason on standard error.
fn explain_input(
    rt: &(impl Input + Print + Eprint + AllocGlobal + Threads + Sync),
    task: LinesTask,
) -> ExitCode {
    let mut reader = Watched::new(rt.reader());
    let mut writer = Watched::new(io::writer(rt));
    let ended = explain_text(rt, rt.alloc(), task, &mut reader, &mut writer);
    if let Ok(explained) = &ended {
        if let Some(reason) = &explained.reason {
            let _ = rt.eprintln(format_args!("fleet: {reason}"));
        }
    }
    status_after(rt, ended.map(|explained| explained.verdict))
}

/// Runs a drill, with its results on standard output.
fn run_drill<R: Print + Eprint + AllocGlobal + Threads + Wait + Sync>(
    rt: &R,
    task: DrillTask,
) -> ExitCode
    requires { IsDrillTask task }
{
    let mut writer = Watched::new(io::writer(rt));
    let DrillTask {
        nodes,
        workers,
        size,
    } = task;
    let ended = drill_text(rt, rt.alloc(), nodes, workers, size, &mut writer);
    status_after(rt, ended.map(|()| Verdict::Done))
}

/// The program `fleet`. By its command line it answers standard input on standard output, perhaps with the reason on standard
/// error, runs a drill, or prints the help.
///
/// Statuses: 0 done, 2 a bad line or a bad command line, 3 a log that is not sound, 4 a device that failed, 5 out of memory.
pub fn run_program<R: Env + Input + Print + Eprint + AllocGlobal + Threads + Wait + Sync>(
    rt: &R,
) -> ExitCode {
    let named = Named {
        env: rt,
        name: NAME,
    };
    let args = match env::args(&(named, rt.alloc())) {
        Ok(args) => args,
        Err(error) if error.kind() == io::ErrorKind::OutOfMemory => {
            return failed(rt, "out of memory", MEMORY);
        }
        Err(_) => return failed(rt, "bad command line", BAD),
    };
    let collected: Result<Vec<String>, AllocError> = args.collect(rt.alloc());
    let Ok(words) = collected else {
        return failed(rt, "out of memory", MEMORY);
    };
    match job_of(rt.alloc(), words.as_slice()) {
        Ok(Task::Text(task)) => answer_input(rt, task),
        Ok(Task::Explained(task)) => explain_input(rt, task),
        Ok(Task::Drill(task)) => run_drill(rt, task),
        Err(CommandFault::Help(text)) => match print!(rt; "{text}") {
            Ok(_) => ExitCode::SUCCESS,
            Err(_) => failed(rt, "output failed", DEVICE),
        },
        Err(CommandFault::Bad) => failed_line(rt, words.as_slice()),
        Err(CommandFault::Memory) => failed(rt, "out of memory", MEMORY),
    }
}
