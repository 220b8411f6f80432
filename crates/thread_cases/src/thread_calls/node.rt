ghost use Rattle.std.specs.Prelude.{◌≡◌, ◌<◌, ◌≤◌, All, length};
ghost use Rattle.front_board.specs.Seat.{IsNode};
ghost use Rattle.node_cell.specs.Node.{IsPassOf};
ghost use Rattle.node_lock.specs.Passes.{AreIdle};

use front_board::{Board, Seat};
use named_log::{LogFact, LogName};
use node_cell::{Node, Pass};
use node_lock::MAX_PASSES;
use std::alloc::{AllocError, Global};
use std::sync::Wait;
use std::thread;
use std::thread::Threads;

// What a thread has: a pass of the node, a seat of the board, and the facts that were dealt to it.
#[derive(Drop)]
struct Hand<'a, L: LogName> {
    node: &'a Node<L>,
    board: &'a Board<L>,
    pass: Pass<L>,
    seat: Seat<L>,
    share: Vec<LogFact<L>>,
    ghost pass_fits: { IsPassOf node.now pass },
    ghost seat_fits: { (seat.board ≡ board.now) × IsNode board.now.words node.now.number },
}

/// Threads deliver the facts that were dealt to them to one node, whose trail has room for `capacity`. Returns how many of each
/// were accepted.
pub fn deliver<L: LogName + Send + Sync, R: Threads + Wait + Sync>(
    rt: &R,
    alloc: Global,
    dealt: Vec<Vec<LogFact<L>>>,
    capacity: u64,
) -> Result<Vec<u64>, AllocError>
    requires { (0 < length dealt.items) × (length dealt.items ≤ MAX_PASSES) }
{
    let threads = dealt.len();
    let (node, passes) = Node::open(alloc, 1, threads as u64, capacity)?;
    deliver_to(rt, alloc, &node, passes, dealt)
}

// Opens a board for a node, and delivers to the node.
fn deliver_to<L: LogName + Send + Sync, R: Threads + Wait + Sync>(
    rt: &R,
    alloc: Global,
    node: &Node<L>,
    passes: Vec<Pass<L>>,
    dealt: Vec<Vec<LogFact<L>>>,
) -> Result<Vec<u64>, AllocError>
    requires passes { AreIdle node.now.lock passes.items }
    requires number { node.now.number ≡ 1 }
    requires dealt { (0 < length dealt.items) × (length dealt.items ≤ MAX_PASSES) }
{
    let (board, seats) = Board::open(alloc, 1, dealt.len())?;
    let hands = hands(alloc, node, &board, passes, seats, dealt)?;
    thread::map_vec(rt, hands, &|hand| deliver_all(rt, hand))
}

// A hand for each pass.
fn hands<'a, L: LogName>(
    alloc: Global,
    node: &'a Node<L>,
    board: &'a Board<L>,
    passes: Vec<Pass<L>>,
    mut seats: Vec<Seat<L>>,
    mut dealt: Vec<Vec<LogFact<L>>>,
) -> Result<Vec<Hand<'a, L>>, AllocError>
    requires passes { AreIdle node.now.lock passes.items }
    requires seats { All (λ s. s.board ≡ board.now) seats.items }
    requires number { IsNode board.now.words node.now.number }
{
    let mut hands = Vec::new(alloc);
    for pass in passes {
        hands.reserve(1)?;
        let Some(seat) = seats.pop() else {
            break;
        };
        let Some(share) = dealt.pop() else {
            break;
        };
        hands.push_reserved(Hand {
            node,
            board,
            pass,
            seat,
            share,
        });
    }
    Ok(hands)
}

fn deliver_all<L: LogName, R: Wait>(rt: &R, hand: Hand<L>) -> u64 {
    let Hand {
        node,
        board,
        mut pass,
        mut seat,
        share,
    } = hand;
    let mut count = 0u64;
    for fact in share {
        let (delivered, _) = node.deliver(rt, &mut pass, board, &mut seat, fact);
        if delivered.is_ok() {
            count = count.saturating_add(1);
        }
    }
    count
}
