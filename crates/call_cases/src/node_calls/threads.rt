//! A node to which two threads deliver.
ghost use Rattle.std.specs.Prelude.{◌≡◌, ◌≤◌, IfOk};
ghost use Rattle.front_board.specs.Seat.{IsNode};
ghost use Rattle.node_cell.specs.Node.{IsPassOf};
ghost use Rattle.node_lock.specs.Passes.{AreIdle};

use crate::Log;
use crate::node_calls::host::{closed_with, deliver_at, open_board, open_node};
use front_board::{Board, Seat};
use node_cell::{Closed, Node, Pass, Receipt};
use std::alloc::{AllocError, Global};
use std::sync::Wait;
use std::thread;
use std::thread::Threads;

// A pass and a seat of a thread that delivers.
type Hand = (Box<Pass<Log>>, Box<Seat<Log>>);

// A pass that has delivered, and the receipts of its deliveries, in order.
type Done = Result<(Box<Pass<Log>>, Vec<Receipt<Log>>), AllocError>;

// Delivers the facts at 32 indices, every other one from `first` on.
fn deliver_half<R: Wait>(
    rt: &R,
    alloc: Global,
    node: &Node<Log>,
    board: &Board<Log>,
    hand: Hand,
    first: u64,
) -> Done
    requires pass { IsPassOf node.now hand.0.value }
    requires seat { (hand.1.value.board ≡ board.now) × IsNode board.now.words node.now.number }
    requires first { first ≤ 2 }
    ensures { IfOk result (λ done. IsPassOf node.now done.0.value) }
{
    let (mut pass, mut seat) = hand;
    let mut receipts = Vec::new(alloc);
    for step in 0..32u64 {
        receipts.reserve(1)?;
        match deliver_at(
            rt,
            alloc,
            node,
            &mut pass,
            board,
            &mut seat,
            first + 2 * step,
        ) {
            Ok(ack) => receipts.push_reserved(ack.receipt),
            Err(_) => return Err(AllocError),
        }
    }
    Ok((pass, receipts))
}

// Each thread delivers its half.
fn deliver_halves<R: Threads + Wait + Sync>(
    rt: &R,
    alloc: Global,
    node: &Node<Log>,
    board: &Board<Log>,
    one: Hand,
    other: Hand,
) -> (Done, Done)
    requires one { IsPassOf node.now one.0.value × (one.1.value.board ≡ board.now) }
    requires other { IsPassOf node.now other.0.value × (other.1.value.board ≡ board.now) }
    requires number { IsNode board.now.words node.now.number }
    ensures one { IfOk result.0 (λ done. IsPassOf node.now done.0.value) }
    ensures other { IfOk result.1 (λ done. IsPassOf node.now done.0.value) }
{
    thread::join(
        rt,
        move || -> Done
            requires { IsPassOf node.now one.0.value × (one.1.value.board ≡ board.now) × IsNode board.now.words node.now.number }
            ensures { IfOk result (λ done. IsPassOf node.entry.now done.0.value) }
        { deliver_half(rt, alloc, node, board, one, 1) },
        move || -> Done
            requires { IsPassOf node.now other.0.value × (other.1.value.board ≡ board.now) × IsNode board.now.words node.now.number }
            ensures { IfOk result (λ done. IsPassOf node.entry.now done.0.value) }
        { deliver_half(rt, alloc, node, board, other, 2) },
    )
}

// The returned passes. Appends the receipts of both to the others.
fn passes_back(
    alloc: Global,
    node: &Node<Log>,
    receipts: &mut Vec<Receipt<Log>>,
    one: Done,
    other: Done,
) -> Result<Vec<Pass<Log>>, AllocError>
    requires one { IfOk one (λ done. IsPassOf node.now done.0.value) }
    requires other { IfOk other (λ done. IsPassOf node.now done.0.value) }
    ensures { IfOk result (λ passes. AreIdle node.now.lock passes.items) }
{
    let (one, mut first) = one?;
    let (other, mut second) = other?;
    receipts.append(&mut first)?;
    receipts.append(&mut second)?;
    Ok(Vec::from_array(alloc, [Box::into_inner(one), Box::into_inner(other)])?)
}

/// The node closed after two threads have delivered the facts of epoch 0. Appends the receipts of both to the others, those of the
/// first thread first.
pub fn closed_after_two<R: Threads + Wait + Sync>(
    rt: &R,
    alloc: Global,
    receipts: &mut Vec<Receipt<Log>>,
) -> Result<Box<Closed<Log>>, AllocError> {
    let (node, one, other) = open_node(alloc, 64)?;
    let (board, one_seat, other_seat) = open_board(alloc)?;
    let (one, other) = deliver_halves(
        rt,
        alloc,
        &node,
        &board,
        (one, one_seat),
        (other, other_seat),
    );
    let passes = passes_back(alloc, &node, receipts, one, other)?;
    closed_with(rt, alloc, node, passes)
}
