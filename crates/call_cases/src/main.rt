//! Test cases of calls that no text reaches: a line of the input names a call, and is printed with its answer.
//!
//! The input has a section for each kind of call, in the order of `Section`. A line that begins with "==" ends a section, and one that
//! begins with '#' names a group of test cases: both are printed as they are. A line that names no call answers '?'.
#![tactic(auto)]

mod answer;
mod common;
mod fact_calls;
mod given;
mod intake_calls;
mod keeping;
mod message_calls;
mod node_calls;
mod outcomes;
mod segment_calls;
mod store_calls;

use crate::answer::print;
use crate::intake_calls::diary::{Diaries, open_diaries};
use crate::intake_calls::lane::{SharedFixture, open_lane};
use crate::keeping::boxed;
use crate::node_calls::bench::new_bench as new_nodes;
use case_io::{Row, ends_section};
use named_log::Drill;
use redo_core::Roster;
use std::alloc::{AllocError, Global};
use std::io;
use std::sync::Wait;
use std::thread::Threads;

/// The log of a small drill, which the test cases of nodes and intakes use.
pub type Log = Drill<64>;

/// The fixtures of all sections.
#[derive(Drop)]
struct Benches {
    facts: Box<fact_calls::Fixture>,
    stores: Box<store_calls::Fixture>,
    segments: Box<segment_calls::Fixture>,
    messages: Box<message_calls::Fixture>,
    nodes: Box<node_calls::bench::Fixture>,
    lane: Box<SharedFixture>,
    diaries: Box<Diaries>,
}

#[derive(Clone, Copy)]
enum Section {
    Facts,
    Stores,
    Segments,
    Messages,
    Nodes,
    Intakes,
}

impl Section {
    /// The section after this one; the last one for the last.
    fn next(self) -> Section {
        match self {
            Section::Facts => Section::Stores,
            Section::Stores => Section::Segments,
            Section::Segments => Section::Messages,
            Section::Messages => Section::Nodes,
            Section::Nodes | Section::Intakes => Section::Intakes,
        }
    }
}

fn new_benches(alloc: Global, roster: Roster) -> Result<Benches, AllocError> {
    Ok(Benches {
        facts: boxed(alloc, fact_calls::new_bench(alloc, roster))?,
        stores: boxed(alloc, store_calls::new_bench(alloc, roster))?,
        segments: boxed(alloc, segment_calls::new_bench(alloc, roster))?,
        messages: boxed(alloc, message_calls::new_bench(alloc, roster))?,
        nodes: new_nodes(alloc)?,
        lane: open_lane(alloc, 1, 1)?,
        diaries: open_diaries(alloc)?,
    })
}

// The calls of nodes and intakes print their answers, those of the other sections return them.
fn print_call<R: Threads + Wait + Sync>(
    rt: &R,
    benches: &mut Benches,
    section: Section,
    row: &Row,
) -> io::Result<()> {
    let answer = match section {
        Section::Facts => fact_calls::answer(&mut benches.facts, row)?,
        Section::Stores => store_calls::answer(&mut benches.stores, row)?,
        Section::Segments => segment_calls::answer(&mut benches.segments, row)?,
        Section::Messages => message_calls::answer(&mut benches.messages, row)?,
        Section::Nodes => return node_calls::bench::answer(rt, &mut benches.nodes, row),
        Section::Intakes => {
            return intake_calls::answer(rt, &mut benches.lane, &mut benches.diaries, row);
        }
    };
    print(row, &answer)
}

fn print_row<R: Threads + Wait + Sync>(
    rt: &R,
    host: &HostRuntime,
    benches: &mut Benches,
    section: Section,
    line: &str,
) -> io::Result<()> {
    if line.starts_with('#') || ends_section(line) {
        return println!(host; "{line}");
    }
    print_call(rt, benches, section, &Row::of(host, line))
}

// One loop for all sections: a loop over the lines takes five seconds to prove.
fn print_rows<R: Threads + Wait + Sync>(
    rt: &R,
    host: &HostRuntime,
    benches: &mut Benches,
) -> io::Result<()> {
    let mut section = Section::Facts;
    for line in host.lines(host.alloc()) {
        let line = line?;
        print_row(rt, host, benches, section, line.as_str())?;
        if ends_section(line.as_str()) {
            section = section.next();
        }
    }
    Ok(())
}

fn main(rt: HostRuntime) -> io::Result<()> {
    match Roster::new(1) {
        Ok(roster) => print_rows(&rt, &rt, &mut new_benches(rt.alloc(), roster)?),
        Err(_) => Ok(()),
    }
}
