//! The program, over any runtime.

use crate::ending::{status_of, words_of};
use crate::help::{HELP, VERSION};
use crate::job::{Form, Job, job_of};
use crate::node::Node;
use crate::stream::{serve, serve_frames};
use framing::Named;
use framing::devices::{RunFault, Watched};
use framing::statuses::{BAD, DEVICE, MEMORY};
use redo_core::Roster;
use std::alloc::{AllocError, Global};
use std::process::ExitCode;
use std::rt::Env;
use std::{env, io};

/// The program's name, whatever path it was called by.
const NAME: &[u8] = b"fleet-node";

/// The most bytes of a line or of a frame, and of the answers in one frame: enough for the digits of 8,000 pages.
pub const LIMIT: usize = 67_108_864;

/// The images of pages that the cache keeps at most.
pub const PAGES: usize = 64;

/// Says why on standard error, and gives the status.
fn failed(rt: &impl Eprint, why: &str, status: u8) -> ExitCode {
    let _ = rt.eprintln(format_args!("fleet-node: {why}"));
    ExitCode::from(status)
}

/// Serves standard input and output until the input ends.
fn serve_input(
    rt: &(impl Input + Print + Eprint + AllocGlobal),
    form: Form,
    node: &mut Node,
) -> Result<(), RunFault> {
    let mut reader = Watched::new(rt.reader());
    let mut writer = Watched::new(io::writer(rt));
    match form {
        Form::Lines => serve(LIMIT, node, &mut reader, &mut writer),
        Form::Frames => serve_frames(LIMIT, node, &mut reader, &mut writer),
    }
}

/// The status of an ending; standard error names it where it is a fault.
fn ended_by(rt: &impl Eprint, ended: Result<(), RunFault>) -> ExitCode {
    let words = words_of(ended);
    if !words.is_empty() {
        return failed(rt, words, status_of(ended));
    }
    ExitCode::from(status_of(ended))
}

/// A fresh node of one reader, without facts, in memory of its own. It fails only if memory runs out.
fn open_node(alloc: Global, birth: u64) -> Result<Box<Node>, AllocError> {
    match Roster::new(1) {
        Ok(roster) => Ok(Box::new(alloc, Node::new(alloc, roster, PAGES, birth)?)?),
        Err(_) => Err(AllocError),
    }
}

/// Answers standard input on standard output.
fn answer_input(
    rt: &(impl Input + Print + Eprint + AllocGlobal),
    form: Form,
    birth: u64,
) -> ExitCode {
    match open_node(rt.alloc(), birth) {
        Ok(mut node) => ended_by(rt, serve_input(rt, form, &mut node)),
        Err(_) => failed(rt, "out of memory", MEMORY),
    }
}

fn say(rt: &(impl Print + Eprint), text: &str) -> ExitCode {
    match print!(rt; "{text}") {
        Ok(_) => ExitCode::SUCCESS,
        Err(_) => failed(rt, "output failed", DEVICE),
    }
}

/// What the program `fleet-node` does, by its command line: answers to the lines or the frames of standard input, or the help, or the version.
///
/// Statuses: 0 the input has ended, 2 a bad command line, 4 a device that failed, 5 no memory.
pub fn run_program<R: Env + Input + Print + Eprint + AllocGlobal>(rt: &R) -> ExitCode {
    let named = Named {
        env: rt,
        name: NAME,
    };
    let args = match env::args(&(named, rt.alloc())) {
        Ok(args) => args,
        Err(error) if error.kind() == io::ErrorKind::OutOfMemory => {
            return failed(rt, "out of memory", MEMORY);
        }
        Err(_) => return failed(rt, "bad command line", BAD),
    };
    let collected: Result<Vec<String>, AllocError> = args.collect(rt.alloc());
    let Ok(words) = collected else {
        return failed(rt, "out of memory", MEMORY);
    };
    match job_of(words.as_slice()) {
        Some(Job::Serve(form, birth)) => answer_input(rt, form, birth),
        Some(Job::Help) => say(rt, HELP),
        Some(Job::Version) => say(rt, VERSION),
        None => failed(rt, "bad command line", BAD),
    }
}
