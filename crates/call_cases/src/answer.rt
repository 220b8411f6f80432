use case_io::Row;
use redo_core::Key;
use std::alloc::{AllocError, Global};
use std::fmt::Debug;
use std::io;

/// What a call answers. It is printed in one function: one that returns a plain value takes half as long to prove as one that prints.
#[derive(Drop)]
pub enum Answer {
    /// For a name of no call, and for what is not there.
    Unknown,
    Word(&'static str),
    Number(u64),
    /// The number of what a word names.
    Numbered(&'static str, u64),
    Flag(bool),
    Found(Option<u64>),
    Key(Option<Key>),
    Page(Option<u16>),
    /// Epoch, LSN, segment backlink and page of a record.
    Record(Option<(u16, u64, u64, u16)>),
    Numbers(Vec<u64>),
    Keys(Vec<Key>),
    /// The kind of an answer with its parts.
    Text(String),
}

impl Answer {
    /// An answer of one part.
    pub fn one<T: Debug>(alloc: Global, kind: &str, part: &T) -> Result<Answer, AllocError> {
        format!(in alloc; "{kind}({part:?})").map(Answer::Text)
    }

    /// An answer whose parts are a tuple.
    pub fn parts<T: Debug>(alloc: Global, kind: &str, parts: &T) -> Result<Answer, AllocError> {
        format!(in alloc; "{kind}{parts:?}").map(Answer::Text)
    }

    /// Why a call did nothing. Where memory ran out, that is the error.
    pub fn refused<F: Debug + PartialEq>(
        alloc: Global,
        kind: &str,
        fault: &F,
        memory: &F,
    ) -> Result<Answer, AllocError> {
        if fault == memory {
            return Err(AllocError);
        }
        Answer::one(alloc, kind, fault)
    }
}

/// Prints the answer of a test case's call.
pub fn print(row: &Row, answer: &Answer) -> io::Result<()> {
    match answer {
        Answer::Unknown => row.said("?"),
        Answer::Word(word) => row.said(word),
        Answer::Number(number) => row.one("Number", number),
        Answer::Numbered(word, number) => row.one(word, number),
        Answer::Flag(flag) => row.one("Flag", flag),
        Answer::Found(found) => row.one("Found", found),
        Answer::Key(key) => row.one("Key", key),
        Answer::Page(page) => row.one("Page", page),
        Answer::Record(record) => row.one("Record", record),
        Answer::Numbers(numbers) => row.one("Numbers", numbers),
        Answer::Keys(keys) => row.one("Keys", keys),
        Answer::Text(text) => row.said(text),
    }
}
