//! How to embed `serve`: open a node of a log, feed it and fold its pages in threads, close it, and settle (verify) its receipts.
#![tactic(auto)]

ghost use Rattle.std.specs.Prelude.{◌≡◌, ◌∷◌, [], length};
ghost use Rattle.front_board.specs.Seat.{IsNode};
ghost use Rattle.node_cell.specs.Node.{IsPassOf};

use front_board::Board;
use intake_queue::Intake;
use named_log::{Drill, LogFact};
use node_cell::{Closed, Node, Receipt, settle};
use node_threads::{DeliverResult, Feed, Gate, Inlet, Job, Plan, ServeInput, Shared, serve};
use std::alloc::{AllocError, Global};
use std::io;
use std::sync::Wait;
use std::thread::Threads;

/// The log. A type names it, and its `LogName` has a proof that the log is sound: no fact of another log can be delivered.
type Log = Drill<64>;

/// How many facts are delivered: those of the log's first epoch.
const FACTS: u64 = 65;

/// A gate that blocks no worker.
struct Through;

impl Gate for Through {
    fn before(&self, _job: Job) {}

    fn between(&self, _job: Job) {}

    fn after(&self, _job: Job) {}
}

/// A node with all that its workers require. The ghost fields are what `serve` requires.
#[derive(Drop)]
struct Site {
    board: Board<Log>,
    node: Node<Log>,
    feed: Feed<Log>,
    inlet: Inlet<Log>,
    ghost on_board: { IsNode board.words node.number },
    ghost feeds: { (feed.inlet ≡ 1) × (feed.sender.intake ≡ inlet.intake.id) },
    ghost drains: { (inlet.taker.intake ≡ inlet.intake.id) × (inlet.seat.board ≡ board) },
    ghost delivers: { (inlet.node ≡ 1) × IsPassOf node inlet.pass },
}

/// Opens a board of one word, a node with one pass, and an intake with one sender and room for eight parcels.
fn open(alloc: Global) -> Result<Site, AllocError> {
    let facts = facts(alloc)?;
    let (board, seats) = Board::<Log>::open(alloc, 1, 1)?;
    let (node, passes) = Node::<Log>::open(alloc, 1, 1, FACTS)?;
    let (intake, senders, taker) = Intake::<Log>::open(alloc, 1, 8)?;
    let feed = Feed {
        inlet: 1,
        sender: only(senders),
        facts,
    };
    let inlet = Inlet {
        intake,
        taker,
        node: 1,
        pass: only(passes),
        seat: only(seats),
    };
    Ok(Site {
        board,
        node,
        feed,
        inlet,
    })
}

fn facts(alloc: Global) -> Result<Vec<LogFact<Log>>, AllocError> {
    let mut facts = Vec::new(alloc);
    for before in 0..FACTS {
        if let Some(fact) = LogFact::at(alloc, before + 1)? {
            facts.push(fact)?;
        }
    }
    Ok(facts)
}

/// The only item of a list.
fn only<T: Drop>(mut items: Vec<T>) -> T
    requires { length items.items ≡ 1 }
    ensures { items.items ≡ result ∷ [] }
{
    items.pop().unwrap()
}

/// The drainer takes every fact, while a folder folds two pages.
fn plan(alloc: Global) -> Result<Plan, AllocError> {
    let rounds = [(1, 0), (1, 1)].to_vec(alloc)?;
    Ok(Plan {
        parcels: [FACTS].to_vec(alloc)?,
        folds: Vec::from_array(alloc, [rounds])?,
        gossip: Vec::new(alloc),
    })
}

/// Runs the workers, and closes the node: its trail, and the answers that the drainer got, receipts or refusals. Fails where a worker
/// could not be started, or memory ran out.
fn work<R: Threads + Wait + Sync>(
    rt: &R,
    alloc: Global,
    site: Site,
) -> Result<(Closed<Log>, Vec<DeliverResult<Log>>), AllocError> {
    let Site {
        board,
        node,
        feed,
        inlet,
    } = site;
    let plan = plan(alloc)?;
    let mut passes = Vec::with_capacity(alloc, 1)?;
    let feeds = Vec::from_array(alloc, [feed])?;
    let inlets = Vec::from_array(alloc, [inlet])?;
    let nodes = Vec::from_array(alloc, [node])?;
    let shared = Shared {
        nodes: nodes.as_slice(),
        board: &board,
        gate: &Through,
    };
    let input = ServeInput {
        feeds,
        inlets,
        plan,
    };
    let Ok(served) = serve(rt, alloc, &shared, input) else {
        return Err(AllocError);
    };
    if !served.refusals.is_empty() {
        return Err(AllocError);
    }
    let (Some(inlet), answers) = (only(served.inlets), only(served.answers)) else {
        return Err(AllocError);
    };
    passes.push_reserved(inlet.pass);
    Ok((only(nodes).close(rt, passes), answers))
}

fn main(rt: HostRuntime) -> io::Result<()> {
    let site = open(rt.alloc())?;
    let (closed, answers) = work(&rt, rt.alloc(), site)?;
    let mut receipts: Vec<Receipt<Log>> = Vec::new(rt.alloc());
    for answer in answers {
        match answer {
            Ok(receipt) => receipts.push(receipt)?,
            Err(refused) => println!(rt; "refused: {}", refused.fault)?,
        }
    }
    let front = closed.segment().front();
    println!(rt;
        "receipts {}, trail {}",
        receipts.len(),
        closed.trail().len()
    )?;
    println!(rt; "front {} {} {}", front.epoch, front.complete, front.min)?;
    match settle(&closed, receipts.as_slice()) {
        Ok(()) => println!(rt; "settled"),
        Err(stranger) => println!(rt; "{stranger}"),
    }
}
