//! Test cases of the calls of intakes and of locks: a line names a call and its numbers, and is printed with its answer.

pub mod diary;
pub mod lane;
mod relay;
mod senders;

use crate::intake_calls::diary::{Diaries, append_in_two_threads, print_passes};
use crate::intake_calls::lane::{SharedFixture, print_relayed};
use crate::intake_calls::senders::in_three_threads;
use case_io::Row;
use std::io;
use std::sync::Wait;
use std::thread::Threads;

/// Prints the answer of a call of an intake, of a lock with two passes, or of neither.
pub fn answer<R: Threads + Wait + Sync>(
    rt: &R,
    lane: &mut Box<SharedFixture>,
    diaries: &mut Box<Diaries>,
    row: &Row,
) -> io::Result<()> {
    match row.name {
        "open" => lane::reopen(lane, row),
        "offer" => lane::offer(rt, lane, row),
        "take" => lane::take_next(rt, lane, row),
        "end" => lane::end(rt, lane, row),
        _ => of_lock(rt, diaries, row),
    }
}

fn of_lock<R: Threads + Wait + Sync>(
    rt: &R,
    diaries: &mut Box<Diaries>,
    row: &Row,
) -> io::Result<()> {
    match row.name {
        "append" => diary::note(rt, diaries, row),
        "look" => diary::look(rt, diaries, row),
        "look_by_pass" => diary::look_by_pass(rt, diaries, row),
        "look_in_a_call" => diary::look_in_a_call(rt, diaries, row),
        "close" => diary::close(rt, diaries, row),
        _ => of_neither(rt, row),
    }
}

// Prints the answer of a call that opens an intake or a lock of its own.
fn of_neither<R: Threads + Wait + Sync>(rt: &R, row: &Row) -> io::Result<()> {
    match row.name {
        "relay" => print_relayed(rt, row),
        "three_threads" => in_three_threads(rt, row),
        "passes" => print_passes(row),
        "two_threads" => append_in_two_threads(rt, row),
        _ => row.unknown(),
    }
}
