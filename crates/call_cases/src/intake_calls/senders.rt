//! Two senders and a taker of one intake, in a thread each.
ghost use Rattle.std.specs.Prelude.{◌≡◌};
ghost use Rattle.std.specs.Thread.{IsSync};

use crate::Log;
use crate::common::both;
use crate::intake_calls::lane::{first_facts, left_at_end, place_of};
use case_io::Row;
use intake_queue::{Intake, Parcel, SenderPass, TakerPass};
use named_log::LogFact;
use std::alloc::{AllocError, Global};
use std::sync::Wait;
use std::thread::Threads;
use std::{io, thread};

const EACH: u64 = 1000;

// Offers a fact until it is accepted.
fn offer<R: Wait>(rt: &R, intake: &Intake<Log>, sender: &mut SenderPass<Log>, fact: LogFact<Log>)
    requires { sender.old.intake ≡ intake.now.id }
    ensures { sender.new.intake ≡ intake.now.id }
{
    let Some(mut parcel) = sender.parcel(fact).ok() else {
        return;
    };
    for _ in rt.forever() {
        match intake.offer(rt, sender, parcel) {
            Ok(()) => return,
            Err(refused) => parcel = refused.value,
        }
        thread::yield_now();
    }
}

// Offers facts, in order.
fn offer_all<R: Wait>(
    rt: &R,
    intake: &Intake<Log>,
    mut sender: SenderPass<Log>,
    facts: Vec<LogFact<Log>>,
) -> SenderPass<Log>
    requires { sender.intake ≡ intake.now.id }
    ensures { result.intake ≡ intake.now.id }
{
    for fact in facts {
        offer(rt, intake, &mut sender, fact);
    }
    sender
}

// What the taker found: the number of parcels of each sender, and of those that did not follow the one before of their sender.
#[derive(Clone, Copy)]
struct Tally {
    first: u64,
    second: u64,
    astray: u64,
}

// Whether a parcel follows `count` others of its sender, and has the fact that was sent at that index. Counts it.
fn follows(count: &mut u64, parcel: &Parcel<Log>) -> bool {
    let place = place_of(*count);
    *count = count.wrapping_add(1);
    parcel.number() == *count && parcel.fact().place() == place
}

fn note(tally: &mut Tally, parcel: &Parcel<Log>) {
    let is_next = if parcel.sender() == 1 {
        follows(&mut tally.first, parcel)
    } else {
        follows(&mut tally.second, parcel)
    };
    if !is_next {
        tally.astray = tally.astray.wrapping_add(1);
    }
}

// Takes so many parcels.
fn take_all<R: Wait>(
    rt: &R,
    intake: &Intake<Log>,
    mut taker: TakerPass<Log>,
    count: u64,
) -> (TakerPass<Log>, Tally)
    requires { taker.intake ≡ intake.now.id }
    ensures { result.0.intake ≡ intake.now.id }
{
    let mut tally = Tally {
        first: 0,
        second: 0,
        astray: 0,
    };
    let mut taken = 0u64;
    for _ in rt.forever() {
        if taken == count {
            break;
        }
        match intake.take_next(rt, &mut taker) {
            Some(parcel) => {
                note(&mut tally, &parcel);
                taken = taken.wrapping_add(1);
            }
            None => thread::yield_now(),
        }
    }
    (taker, tally)
}

type Senders = (SenderPass<Log>, SenderPass<Log>);

type Facts = (Vec<LogFact<Log>>, Vec<LogFact<Log>>);

// Both senders offer their facts, in a thread each.
fn offer_both<R: Threads + Wait + Sync>(
    rt: &R,
    intake: &Intake<Log>,
    senders: Senders,
    facts: Facts,
) -> Senders
    requires { (senders.0.intake ≡ intake.now.id) × (senders.1.intake ≡ intake.now.id) }
    ensures { (result.0.intake ≡ intake.now.id) × (result.1.intake ≡ intake.now.id) }
{
    let (first, second) = senders;
    let (of_first, of_second) = facts;
    thread::join(
        rt,
        move || -> SenderPass<Log>
            requires { IsSync R.row × (first.intake ≡ intake.now.id) }
            ensures { result.intake ≡ intake.entry.now.id }
        { offer_all(rt, intake, first, of_first) },
        move || -> SenderPass<Log>
            requires { IsSync R.row × (second.intake ≡ intake.now.id) }
            ensures { result.intake ≡ intake.entry.now.id }
        { offer_all(rt, intake, second, of_second) },
    )
}

// The senders offer their facts, and the taker takes them, in a thread each.
fn offer_and_take<R: Threads + Wait + Sync>(
    rt: &R,
    intake: &Intake<Log>,
    senders: Senders,
    taker: TakerPass<Log>,
    facts: Facts,
) -> (Senders, (TakerPass<Log>, Tally))
    requires senders { (senders.0.intake ≡ intake.now.id) × (senders.1.intake ≡ intake.now.id) }
    requires taker { taker.intake ≡ intake.now.id }
    ensures senders { (result.0.0.intake ≡ intake.now.id) × (result.0.1.intake ≡ intake.now.id) }
    ensures taker { result.1.0.intake ≡ intake.now.id }
{
    thread::join(
        rt,
        move || -> Senders
            requires { IsSync R.row × (senders.0.intake ≡ intake.now.id) × (senders.1.intake ≡ intake.now.id) }
            ensures { (result.0.intake ≡ intake.entry.now.id) × (result.1.intake ≡ intake.entry.now.id) }
        { offer_both(rt, intake, senders, facts) },
        move || -> (TakerPass<Log>, Tally)
            requires { IsSync R.row × (taker.intake ≡ intake.now.id) }
            ensures { result.0.intake ≡ intake.entry.now.id }
        { take_all(rt, intake, taker, 2 * EACH) },
    )
}

fn tally_of_three<R: Threads + Wait + Sync>(
    rt: &R,
    alloc: Global,
) -> Result<(Tally, usize), AllocError> {
    let facts = (first_facts(alloc, EACH)?, first_facts(alloc, EACH)?);
    let mut ended = Vec::with_capacity(alloc, 2)?;
    let (intake, senders, taker) = Intake::open(alloc, 2, 3)?;
    let ((first, second), (taker, tally)) = offer_and_take(
        rt,
        &intake,
        both(senders),
        taker,
        facts,
    );
    ended.push_reserved(first);
    ended.push_reserved(second);
    let left = left_at_end(rt, alloc, intake, ended, taker)?;
    Ok((tally, left.len()))
}

/// Prints what the taker found, and how many parcels were left in the end.
pub fn in_three_threads<R: Threads + Wait + Sync>(rt: &R, row: &Row) -> io::Result<()> {
    let (tally, left) = tally_of_three(rt, row.alloc)?;
    row.parts("Tally", &(tally.first, tally.second, tally.astray, left))
}
