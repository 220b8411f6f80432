//! The command line.

ghost use Rattle.std.specs.Prelude.{◌≡◌, map};
ghost use Rattle.node_stream.specs.CommandLine.{named as named_of, born as born_of, framed_born as framed_born_of, job_in};

use crate::wide::{WIDE, wide_number};
use std::convert::AsStr;

/// The two forms of the stream.
#[derive(Clone, Copy)]
pub enum Form {
    Lines,
    Frames,
}

/// What the command line asks for: answers to the requests of standard input, by a node of this birth; the help, or the version.
#[derive(Clone, Copy)]
pub enum Job {
    Serve(Form, u64),
    Help,
    Version,
}

fn named(word: &str) -> Option<Job>
    ensures { result ≡ named_of word.now }
{
    match word {
        "--frames" => Some(Job::Serve(Form::Frames, 0)),
        "--help" | "-h" => Some(Job::Help),
        "--version" | "-V" => Some(Job::Version),
        _ => None,
    }
}

fn born(form: Form, word: &str, number: &str) -> Option<Job>
    ensures { result ≡ born_of form word.now number.now }
{
    if word != "--birth" {
        return None;
    }
    let birth = wide_number(number.as_bytes(), WIDE)?;
    Some(Job::Serve(form, birth))
}

fn framed_born(first: &str, word: &str, number: &str) -> Option<Job>
    ensures { result ≡ framed_born_of first.now word.now number.now }
{
    if first != "--frames" {
        return None;
    }
    born(Form::Frames, word, number)
}

/// What the words of the command line ask for; the first word is the program's. None where they are bad.
pub fn job_of<S: AsStr>(words: &[S]) -> Option<Job>
    ensures { result ≡ job_in (map S.text words.now) }
{
    match words {
        [_] => Some(Job::Serve(Form::Lines, 0)),
        [_, word] => named(word.as_str()),
        [_, word, number] => born(Form::Lines, word.as_str(), number.as_str()),
        [_, first, word, number] => framed_born(first.as_str(), word.as_str(), number.as_str()),
        _ => None,
    }
}
