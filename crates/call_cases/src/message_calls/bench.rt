use crate::answer::Answer;
use crate::given::keep_fact;
use crate::keeping::renew;
use crate::message_calls::exchanges;
use crate::message_calls::fleets::{give, step};
use crate::message_calls::segments::{add_chain, add_empty, change, look};
use bytes::BytesMut;
use case_io::{Row, long};
use fleet_core::Fleet;
use redo_core::{Fact, Roster};
use segment_core::Segment;
use snapshot::Staging;
use std::alloc::{AllocError, Global};

/// The state that the lines so far have made.
#[derive(Drop)]
pub struct Fixture {
    pub roster: Roster,
    pub facts: Vec<Fact>,
    pub segments: Vec<Segment>,
    pub messages: Vec<BytesMut>,
    pub staging: Staging,
    pub fleet: Fleet,
}

/// A fixture with nothing made yet.
pub fn new_bench(alloc: Global, roster: Roster) -> Result<Fixture, AllocError> {
    Ok(Fixture {
        roster,
        facts: Vec::new(alloc),
        segments: Vec::new(alloc),
        messages: Vec::new(alloc),
        staging: Staging::new(alloc, 0, 0),
        fleet: Fleet::new(alloc, roster, 0)?,
    })
}

/// Starts again from scratch, for so many readers.
fn begin(bench: &mut Fixture, row: &Row) -> Result<Answer, AllocError> {
    match Roster::new(row.byte(0)) {
        Ok(roster) => renew(bench, new_bench(row.alloc, roster)),
        Err(_) => Ok(Answer::Unknown),
    }
}

fn make_fleet(bench: &mut Fixture, row: &Row) -> Result<Answer, AllocError> {
    let made = Fleet::new(row.alloc, bench.roster, row.short(0));
    renew(&mut bench.fleet, made)
}

fn make_staging(staging: &mut Staging, row: &Row) -> Result<Answer, AllocError> {
    let made = Staging::new(row.alloc, row.number(0), long(row.number(1)));
    renew(staging, Ok(made))
}

/// Carries out the call of a line.
pub fn call(bench: &mut Fixture, row: &Row) -> Result<Answer, AllocError> {
    match row.name {
        "begin" => begin(bench, row),
        "fact" => keep_fact(row.alloc, &mut bench.facts, row.words),
        "segment" => add_empty(&mut bench.segments, bench.roster, row),
        "chain" => add_chain(&mut bench.segments, bench.roster, row),
        "take" | "fold" | "discard" => change(&mut bench.segments, &bench.facts, row),
        "front" | "base" | "same" => look(&bench.segments, row),
        "fleet" => make_fleet(bench, row),
        "step" => step(&mut bench.fleet, &bench.facts, &row.behind()),
        "give" => give(&mut bench.fleet, &bench.facts, row),
        "staging" => make_staging(&mut bench.staging, row),
        _ => exchanges::answer(bench, row),
    }
}
