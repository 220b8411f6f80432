use crate::Log;
use crate::common::in_box;
use crate::node_calls::answers::{delivery_of, print_front, print_view};
use crate::node_calls::board::{Six, open_six, publish_in_two_threads};
use crate::node_calls::endings::{print_closed, print_entry, print_settling};
use crate::node_calls::host::Host;
use crate::node_calls::threads::closed_after_two;
use crate::node_calls::{board, host};
use case_io::Row;
use node_cell::{AbsorbFault, Closed, ReadAfterFault, Receipt};
use segment_core::{CommitFault, ReadFault};
use std::alloc::{AllocError, Global};
use std::io;
use std::io::ErrorKind;
use std::sync::Wait;
use std::thread::Threads;

/// The state of the test cases: nodes, numbered from 0 in the order in which they were opened, the receipts of all deliveries, the
/// node that was closed last, and a board of six nodes. Large values are in boxes.
#[derive(Drop)]
pub struct Fixture {
    hosts: Vec<Host>,
    receipts: Vec<Receipt<Log>>,
    closed: Option<Box<Closed<Log>>>,
    six: Box<Six>,
}

fn made(alloc: Global) -> Result<Fixture, AllocError> {
    let six = open_six(alloc)?;
    Ok(Fixture {
        hosts: Vec::new(alloc),
        receipts: Vec::new(alloc),
        closed: None,
        six,
    })
}

/// A fixture with no nodes.
pub fn new_bench(alloc: Global) -> Result<Box<Fixture>, AllocError> {
    in_box(alloc, made(alloc)?)
}

fn begin_anew(bench: &mut Fixture, row: &Row) -> io::Result<()> {
    *bench = made(row.alloc)?;
    row.done()
}

fn open(hosts: &mut Vec<Host>, row: &Row) -> io::Result<()> {
    hosts.push(host::open_host(row.alloc, row.number(0))?)?;
    row.done()
}

// Delivers the facts from one index to another, in order, and prints the last delivery. A fault ends it.
fn deliver_all<R: Wait>(
    rt: &R,
    host: &mut Host,
    receipts: &mut Vec<Receipt<Log>>,
    row: &Row,
) -> io::Result<()> {
    let (first, last) = (row.number(1), row.number(2));
    let mut told = None;
    for place in first..=last.max(first) {
        receipts.reserve(1)?;
        match host::deliver(rt, row.alloc, host, place) {
            Ok(ack) => {
                told = Some(delivery_of(&ack));
                receipts.push_reserved(ack.receipt);
            }
            Err(fault) => return row.one("NotDelivered", &fault),
        }
    }
    match told {
        Some(delivered) => row.parts("Delivered", &delivered),
        None => row.unknown(),
    }
}

fn deliver<R: Wait>(rt: &R, bench: &mut Fixture, row: &Row) -> io::Result<()> {
    match bench.hosts.get_mut(row.index(0)) {
        Some(host) => deliver_all(rt, host, &mut bench.receipts, row),
        None => row.unknown(),
    }
}

fn close<R: Wait>(rt: &R, bench: &mut Fixture, row: &Row) -> io::Result<()> {
    let place = row.index(0);
    if place >= bench.hosts.len() {
        return row.unknown();
    }
    let ended = host::close_host(rt, row.alloc, bench.hosts.remove(place))?;
    end(&mut bench.closed, ended, row)
}

// The first receipts are those of the first thread.
fn two_threads<R: Threads + Wait + Sync>(rt: &R, bench: &mut Fixture, row: &Row) -> io::Result<()> {
    bench.receipts = Vec::new(row.alloc);
    let ended = closed_after_two(rt, row.alloc, &mut bench.receipts)?;
    end(&mut bench.closed, ended, row)
}

fn end(
    closed: &mut Option<Box<Closed<Log>>>,
    ended: Box<Closed<Log>>,
    row: &Row,
) -> io::Result<()> {
    let told = print_closed(row, &ended);
    *closed = Some(ended);
    told
}

fn two_seats<R: Threads + Sync>(rt: &R, bench: &mut Fixture, row: &Row) -> io::Result<()> {
    bench.six = publish_in_two_threads(rt, row.alloc)?;
    row.done()
}

/// Prints the answer of a call. The calls here open and close nodes, and deliver to them.
pub fn answer<R: Threads + Wait + Sync>(rt: &R, bench: &mut Fixture, row: &Row) -> io::Result<()> {
    match row.name {
        "clear" => begin_anew(bench, row),
        "open" => open(&mut bench.hosts, row),
        "deliver" => deliver(rt, bench, row),
        "close" => close(rt, bench, row),
        "two_threads" => two_threads(rt, bench, row),
        "two_seats" => two_seats(rt, bench, row),
        _ => tell(rt, bench, row),
    }
}

// Prints the answer of a call that opens and closes no node. One that runs out of memory is made once more.
fn tell<R: Wait>(rt: &R, bench: &mut Fixture, row: &Row) -> io::Result<()> {
    match tell_once(rt, bench, row) {
        Err(fault) if fault.kind() == ErrorKind::OutOfMemory => tell_once(rt, bench, row),
        told => told,
    }
}

fn tell_once<R: Wait>(rt: &R, bench: &mut Fixture, row: &Row) -> io::Result<()> {
    match row.name {
        "settle" | "entry" => of_closed(bench, row),
        "front" | "read" | "fold" | "discard" => of_host(rt, &mut bench.hosts, row),
        "after" => after(rt, bench, row),
        "absorb" => absorb(rt, &bench.hosts, row),
        "commit" => commit(rt, &bench.hosts, row),
        _ => board::answer(&mut bench.six, row),
    }
}

// Prints the answer of a closed node.
fn of_closed(bench: &Fixture, row: &Row) -> io::Result<()> {
    let Some(ended) = &bench.closed else {
        return row.unknown();
    };
    match row.name {
        "settle" => print_settling(row, ended, &bench.receipts),
        _ => print_entry(row, ended),
    }
}

// Prints the answer of a node alone.
fn of_host<R: Wait>(rt: &R, hosts: &mut [Host], row: &Row) -> io::Result<()> {
    let Some(host) = hosts.get_mut(row.index(0)) else {
        return row.unknown();
    };
    match row.name {
        "front" => print_front(row, host::reached(host)),
        "read" => read(rt, host, row),
        "fold" => fold_page(rt, host, row),
        _ => discard(rt, host, row),
    }
}

fn read<R: Wait>(rt: &R, host: &mut Host, row: &Row) -> io::Result<()> {
    match host::read(rt, host, row.short(1), row.number(2)) {
        Ok(view) => print_view(row, &view),
        Err(ReadFault::Memory) => Err(AllocError.into()),
        Err(fault) => row.one("NotRead", &fault),
    }
}

// Folds a page, and stores the fold. The answer is the page and the version.
fn fold_page<R: Wait>(rt: &R, host: &mut Host, row: &Row) -> io::Result<()> {
    let folded = host::folded(rt, row.alloc, &host.node, row.short(1))?;
    let told = (folded.page(), folded.version());
    host.folded = Some(folded);
    row.parts("Fold", &told)
}

fn discard<R: Wait>(rt: &R, host: &Host, row: &Row) -> io::Result<()> {
    host.node.discard(rt);
    row.done()
}

// Reads page 1 at point 1 of a node with a receipt.
fn after<R: Wait>(rt: &R, bench: &Fixture, row: &Row) -> io::Result<()> {
    let Some(host) = bench.hosts.get(row.index(0)) else {
        return row.unknown();
    };
    let Some(receipt) = bench.receipts.get(row.index(1)) else {
        return row.unknown();
    };
    match host.node.read_after(rt, receipt, 1, 1) {
        Ok(view) => print_view(row, &view),
        Err(ReadAfterFault::Read(ReadFault::Memory)) => Err(AllocError.into()),
        Err(fault) => row.one("NotReadAfter", &fault),
    }
}

// A node absorbs the answer of another to the summary of a third.
fn absorb<R: Wait>(rt: &R, hosts: &[Host], row: &Row) -> io::Result<()> {
    let (Some(host), Some(asker), Some(answerer)) = (
        hosts.get(row.index(0)),
        hosts.get(row.index(1)),
        hosts.get(row.index(2)),
    ) else {
        return row.unknown();
    };
    match host::absorb(rt, &host.node, &asker.node, &answerer.node) {
        Ok(front) => print_front(row, front),
        Err(AbsorbFault::Memory) => Err(AllocError.into()),
        Err(fault) => row.one("NotAbsorbed", &fault),
    }
}

// Commits a copy of the last fold of a node.
fn commit<R: Wait>(rt: &R, hosts: &[Host], row: &Row) -> io::Result<()> {
    let (Some(host), Some(folder)) = (hosts.get(row.index(0)), hosts.get(row.index(1))) else {
        return row.unknown();
    };
    let Some(folded) = &folder.folded else {
        return row.unknown();
    };
    match host::commit(rt, &host.node, folded) {
        Ok(()) => row.done(),
        Err(CommitFault::Memory) => Err(AllocError.into()),
        Err(fault) => row.one("NotCommitted", &fault),
    }
}
