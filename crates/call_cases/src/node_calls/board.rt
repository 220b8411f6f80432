//! A board of six nodes with two seats, over the log of a small drill.
ghost use Rattle.std.specs.Prelude.{◌≡◌, ◌<◌, ◌≤◌};
ghost use Rattle.front_board.specs.Seat.{IsNode};

use crate::common::{both, in_box};
use crate::node_calls::answers::print_front;
use case_io::Row;
use front_board::{Board, LogFront, Seat};
use named_log::Drill;
use std::alloc::{AllocError, Global};
use std::thread::Threads;
use std::{io, thread};

pub type Small = Drill<2>;

// A front of epoch 0.
fn early(number: u64) -> LogFront<Small>
    requires { number ≤ 2 }
{
    LogFront::new(0, number)
}

// A front of epoch 1, of an LSN that the truncation left alive.
fn late(number: u64) -> LogFront<Small>
    requires { number ≤ 1 }
{
    LogFront::new(1, number)
}

// The front of the first record of epoch 1.
fn last() -> LogFront<Small> {
    LogFront::new(1, 11)
}

// The front of an epoch and an LSN, where it is one of those that the test cases use.
fn front_of(epoch: u64, number: u64) -> Option<LogFront<Small>> {
    match epoch {
        0 if number <= 2 => Some(early(number)),
        1 if number <= 1 => Some(late(number)),
        1 if number == 11 => Some(last()),
        _ => None,
    }
}

// Prints whether the first of two fronts is less than the second, and whether they are the same.
fn compare(row: &Row) -> io::Result<()> {
    match (
        front_of(row.number(0), row.number(1)),
        front_of(row.number(2), row.number(3)),
    ) {
        (Some(one), Some(other)) => row.parts("Order", &(one < other, one == other)),
        _ => row.unknown(),
    }
}

/// A board of six nodes, and two seats.
#[derive(Drop)]
pub struct Six {
    board: Board<Small>,
    one: Seat<Small>,
    other: Seat<Small>,
    ghost fits: { (one.board ≡ board) × (other.board ≡ board) × (board.words ≡ 6) },
}

fn opened(alloc: Global) -> Result<Six, AllocError> {
    let (board, seats) = Board::<Small>::open(alloc, 6, 2)?;
    let (one, other) = both(seats);
    Ok(Six { board, one, other })
}

/// Opens the board, in a box.
pub fn open_six(alloc: Global) -> Result<Box<Six>, AllocError> {
    in_box(alloc, opened(alloc)?)
}

// Publishes a front at a node by the first seat.
fn publish(six: &mut Six, node: usize, row: &Row) -> io::Result<()>
    requires { (0 < node) × (node ≤ 6) }
{
    match front_of(row.number(1), row.number(2)) {
        Some(front) => {
            six.board.publish(&mut six.one, node, front);
            row.done()
        }
        None => row.unknown(),
    }
}

/// Prints the answer of a call of the board. The second seat makes a look and a quorum; there is no node, and no number of nodes,
/// above six.
pub fn answer(six: &mut Six, row: &Row) -> io::Result<()> {
    if row.name == "order" {
        return compare(row);
    }
    let number = row.index(0);
    if number == 0 || number > 6 {
        return row.unknown();
    }
    match row.name {
        "publish" => publish(six, number, row),
        "look" => print_front(row, six.board.front(&mut six.other, number)),
        "quorum" => print_front(row, six.board.quorum(&mut six.other, number)),
        _ => row.unknown(),
    }
}

/// A board at which each seat published in a thread of its own: the first at node 1, the second at node 6.
pub fn publish_in_two_threads<R: Threads + Sync>(
    rt: &R,
    alloc: Global,
) -> Result<Box<Six>, AllocError> {
    in_box(alloc, with_two_threads(rt, opened(alloc)?))
}

fn with_two_threads<R: Threads + Sync>(rt: &R, six: Six) -> Six {
    let Six { board, one, other } = six;
    let shared = &board;
    let (one, other) = thread::join(
        rt,
        move || -> Seat<Small>
            requires { (one.board ≡ shared.now) × (shared.now.words ≡ 6) }
            ensures { result.board ≡ shared.entry.now }
        { published(shared, one, 1, late(1)) },
        move || -> Seat<Small>
            requires { (other.board ≡ shared.now) × (shared.now.words ≡ 6) }
            ensures { result.board ≡ shared.entry.now }
        { published(shared, other, 6, last()) },
    );
    Six { board, one, other }
}

fn published(
    board: &Board<Small>,
    mut seat: Seat<Small>,
    node: usize,
    front: LogFront<Small>,
) -> Seat<Small>
    requires own { seat.board ≡ board.now }
    requires node { IsNode board.now.words node }
    ensures { result.board ≡ seat.board }
{
    board.publish(&mut seat, node, front);
    seat
}
