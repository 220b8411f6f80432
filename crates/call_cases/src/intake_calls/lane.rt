//! An intake with its senders and its taker.
ghost use Rattle.std.specs.Prelude.{◌≡◌, ◌<◌, ◌≤◌, ◌++◌, All, length, IfOk, IfSome};
ghost use Rattle.intake_queue.specs.Ends.{next_parcel, AreSendersOf};
ghost use Rattle.intake_queue.specs.Left.{IsLeft};
ghost use Rattle.intake_queue.specs.Parcel.{AreInTurn};

use crate::Log;
use crate::common::in_box;
use crate::intake_calls::relay::pass_through;
use crate::keeping::or_fault;
use case_io::{Row, size};
use intake_queue::{Full, Intake, MAX_CAPACITY, MAX_SENDERS, Parcel, SenderPass, TakerPass};
use named_log::{LogFact, LogName};
use redo_core::Refused;
use std::alloc::{AllocError, Global};
use std::sync::Wait;
use std::{io, mem};

/// An intake with its senders and its taker.
#[derive(Drop)]
pub struct SharedFixture {
    intake: Intake<Log>,
    senders: Vec<SenderPass<Log>>,
    taker: TakerPass<Log>,
    ghost own: { All (λ s. s.intake ≡ intake.id) senders.items × (taker.intake ≡ intake.id) },
}

fn opened(alloc: Global, senders: usize, capacity: usize) -> Result<SharedFixture, AllocError>
    requires senders { (1 ≤ senders) × (senders ≤ MAX_SENDERS) }
    requires capacity { (1 ≤ capacity) × (capacity ≤ MAX_CAPACITY) }
{
    let (intake, senders, taker) = Intake::open(alloc, senders, capacity)?;
    Ok(SharedFixture {
        intake,
        senders,
        taker,
    })
}

/// Opens an intake with its senders and its taker.
pub fn open_lane(
    alloc: Global,
    senders: usize,
    capacity: usize,
) -> Result<Box<SharedFixture>, AllocError>
    requires senders { (1 ≤ senders) × (senders ≤ MAX_SENDERS) }
    requires capacity { (1 ≤ capacity) × (capacity ≤ MAX_CAPACITY) }
{
    in_box(alloc, opened(alloc, senders, capacity)?)
}

// The capacity that a line gives, where an intake may have it.
fn capacity(row: &Row) -> Option<usize>
    ensures { IfSome result (λ n. (1 ≤ n) × (n ≤ MAX_CAPACITY)) }
{
    let capacity = row.index(0);
    if capacity == 0 || capacity > MAX_CAPACITY {
        return None;
    }
    Some(capacity)
}

/// Opens an intake with the capacity and the number of senders that a line gives, one sender where it gives none.
pub fn reopen(lane: &mut Box<SharedFixture>, row: &Row) -> io::Result<()> {
    let senders = size(row.number_or(1, 1));
    let Some(capacity) = capacity(row) else {
        return row.unknown();
    };
    if senders == 0 || senders > MAX_SENDERS {
        return row.unknown();
    }
    *lane = open_lane(row.alloc, senders, capacity)?;
    row.done()
}

// The sender's next parcel, with the fact at an index.
fn parcel_at(
    alloc: Global,
    sender: &SenderPass<Log>,
    place: u64,
) -> Result<Option<Parcel<Log>>, AllocError>
    ensures { IfOk result (λ found. IfSome found (λ p. p ≡ next_parcel sender.now p.fact)) }
{
    match LogFact::at(alloc, place)? {
        Some(fact) => Ok(sender.parcel(fact).ok()),
        None => Ok(None),
    }
}

type Offer = Result<(), Refused<Parcel<Log>, Full>>;

// The sender offers the fact at an index; None where the log has no such index.
fn offer_by<R: Wait>(
    rt: &R,
    alloc: Global,
    intake: &Intake<Log>,
    sender: &mut SenderPass<Log>,
    place: u64,
) -> Result<Option<Offer>, AllocError>
    requires { sender.old.intake ≡ intake.now.id }
    ensures { sender.new.intake ≡ intake.now.id }
{
    let Some(parcel) = parcel_at(alloc, sender, place)? else {
        return Ok(None);
    };
    Ok(Some(intake.offer(rt, sender, parcel)))
}

/// Offers the fact at an index by a sender, the first where the line gives none. A full intake answers with the returned parcel.
pub fn offer<R: Wait>(rt: &R, lane: &mut SharedFixture, row: &Row) -> io::Result<()> {
    let number = size(row.number_or(1, 1));
    if number == 0 || number > lane.senders.len() {
        return row.unknown();
    }
    let sender = &mut lane.senders[number - 1];
    match offer_by(rt, row.alloc, &lane.intake, sender, row.number(0))? {
        None => row.unknown(),
        Some(Ok(())) => row.said("Accepted"),
        Some(Err(refused)) => print_parcel(row, "Full", &refused.value),
    }
}

// Prints a parcel: its sender, its number, and the log index of its fact.
fn print_parcel(row: &Row, name: &str, parcel: &Parcel<Log>) -> io::Result<()> {
    let place = parcel.fact().place();
    row.parts(name, &(parcel.sender(), parcel.number(), place))
}

// Prints parcels, a line each.
fn print_parcels(row: &Row, parcels: &[Parcel<Log>]) -> io::Result<()> {
    for parcel in parcels {
        print_parcel(row, "Parcel", parcel)?;
    }
    Ok(())
}

/// Takes the next parcel, and prints it.
pub fn take_next<R: Wait>(rt: &R, lane: &mut SharedFixture, row: &Row) -> io::Result<()> {
    match lane.intake.take_next(rt, &mut lane.taker) {
        Some(parcel) => print_parcel(row, "Parcel", &parcel),
        None => row.said("Empty"),
    }
}

/// Closes the intake, and opens one. The answer is the remaining parcels, in order.
pub fn end<R: Wait>(rt: &R, lane: &mut Box<SharedFixture>, row: &Row) -> io::Result<()> {
    let ended = mem::replace(lane, open_lane(row.alloc, 1, 1)?);
    let left = left_in(rt, row.alloc, Box::into_inner(ended))?;
    print_parcels(row, left.as_slice())
}

// The parcels that remain in a fixture's intake, in order.
fn left_in<R: Wait>(
    rt: &R,
    alloc: Global,
    lane: SharedFixture,
) -> Result<Vec<Parcel<Log>>, AllocError> {
    let SharedFixture {
        intake,
        senders,
        taker,
    } = lane;
    left_at_end(rt, alloc, intake, senders, taker)
}

/// The parcels that remain in an intake that is closed.
pub fn left_at_end<L: LogName, R: Wait>(
    rt: &R,
    alloc: Global,
    intake: Intake<L>,
    senders: Vec<SenderPass<L>>,
    taker: TakerPass<L>,
) -> Result<Vec<Parcel<L>>, AllocError>
    requires taker { taker.intake ≡ intake.id }
    requires senders { AreSendersOf intake.id senders.items }
    ensures left { IfOk result (λ left. IsLeft senders.items taker.taken left.items) }
    ensures in_turn { IfOk result (λ left. AreInTurn taker.senders (taker.taken ++ left.items)) }
{
    or_fault(intake.end(rt, alloc, senders, taker))
}

/// The first `count` facts of the log; after its last fact it starts again at the first.
pub fn first_facts(alloc: Global, count: u64) -> Result<Vec<LogFact<Log>>, AllocError> {
    let mut facts = Vec::new(alloc);
    for before in 0..count {
        if let Some(fact) = LogFact::at(alloc, place_of(before))? {
            facts.push(fact)?;
        }
    }
    Ok(facts)
}

/// The log index of the fact that follows `before` others.
pub fn place_of(before: u64) -> u64 {
    before % PLACES + 1
}

// The length of the log.
const PLACES: u64 = 130;

/// Sends the first facts, so many, through an intake with so much room. The answer is the parcels, in the order in which they were taken.
pub fn print_relayed<R: Wait>(rt: &R, row: &Row) -> io::Result<()> {
    let Some(capacity) = capacity(row) else {
        return row.unknown();
    };
    let facts = first_facts(row.alloc, row.number(1))?;
    let all = pass_through(rt, row.alloc, capacity, facts)?;
    print_parcels(row, all.as_slice())
}
