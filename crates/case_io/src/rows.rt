use crate::{byte, number, number_or, short, size, word};
use std::alloc::Global;
use std::fmt::Debug;
use std::io;

/// A test case, one line of the input: the name of a call, the words after it, and where its answer is printed.
#[derive(Clone, Copy)]
pub struct Row<'a> {
    rt: &'a HostRuntime,
    pub alloc: Global,
    pub line: &'a str,
    pub name: &'a str,
    pub words: &'a str,
}

impl<'a> Row<'a> {
    /// The test case of a line, whose answer is printed on `rt`.
    pub fn of(rt: &'a HostRuntime, line: &'a str) -> Row<'a> {
        let (name, words) = crate::first(line);
        Row {
            rt,
            alloc: rt.alloc(),
            line,
            name,
            words,
        }
    }

    /// The test case whose name and words are the words of this one.
    pub fn behind(&self) -> Row<'a> {
        Row::of(self.rt, self.words)
    }

    /// A word of the call by its index, counted from 0; an empty one where there is none.
    pub fn word(&self, place: usize) -> &'a str {
        word(self.words, place)
    }

    /// A number of the call by its index, counted from 0; `otherwise` where there is none.
    pub fn number_or(&self, place: usize, otherwise: u64) -> u64 {
        number_or(self.words, place, otherwise)
    }

    /// A number of the call by its index, counted from 0; 0 where there is none.
    pub fn number(&self, place: usize) -> u64 {
        number(self.words, place)
    }

    /// A reader or a byte; 255 for a greater number.
    pub fn byte(&self, place: usize) -> u8 {
        byte(self.number(place))
    }

    /// A page, an epoch or a node; 65535 for a greater number.
    pub fn short(&self, place: usize) -> u16 {
        short(self.number(place))
    }

    /// An index in a list, or a count.
    pub fn index(&self, place: usize) -> usize {
        size(self.number(place))
    }

    /// Prints an answer. The error is that of the output, as for all calls that print.
    pub fn told<T: Debug>(&self, answer: &T) -> io::Result<()> {
        println!(self.rt; "{}: {answer:?}", self.line)
    }

    /// Prints an answer that is plain text.
    pub fn said(&self, answer: &str) -> io::Result<()> {
        println!(self.rt; "{}: {answer}", self.line)
    }

    /// Prints that what the call names is unknown.
    pub fn unknown(&self) -> io::Result<()> {
        self.said("Unknown")
    }

    /// Prints that the call was made, where it returns nothing.
    pub fn done(&self) -> io::Result<()> {
        self.said("Done")
    }

    /// Prints an answer of one part.
    pub fn one<T: Debug>(&self, kind: &str, part: &T) -> io::Result<()> {
        println!(self.rt; "{}: {kind}({part:?})", self.line)
    }

    /// Prints an answer of several parts, given as a tuple.
    pub fn parts<T: Debug>(&self, kind: &str, parts: &T) -> io::Result<()> {
        println!(self.rt; "{}: {kind}{parts:?}", self.line)
    }

    /// Prints an answer that is a count.
    pub fn count(&self, number: u64, what: &str) -> io::Result<()> {
        println!(self.rt; "{}: {number} {what}", self.line)
    }

    /// Prints an answer of several lines, each with its LF, after the call's line.
    pub fn lines(&self, answer: &str) -> io::Result<()> {
        print!(self.rt; "{}:\n{answer}", self.line)
    }
}
