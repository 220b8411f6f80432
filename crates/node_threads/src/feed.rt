ghost use Rattle.std.specs.Prelude.{◌≡◌, ◌≢◌, length, reverse, IfSome, IfNone};
ghost use Rattle.node_threads.specs.Work.{Offered, IsDone, Names, NamesItem};

use crate::list::numbered;
use crate::stop::{StopSignal, StopToken, told};
use intake_queue::{Intake, SenderPass};
use named_log::{LogFact, LogName};
use std::sync::Wait;
use std::thread;

/// Facts that a sender offers, in order, to the intake of an inlet, from 1.
#[derive(Drop)]
pub struct Feed<L: LogName> {
    pub inlet: usize,
    pub sender: SenderPass<L>,
    pub facts: Vec<LogFact<L>>,
}

/// What a feeder brings back.
#[derive(Drop)]
pub(crate) struct FeederResult<'s, L: LogName> {
    pub feed: Feed<L>,
    pub halt: Option<StopToken<'s>>,
    pub absent: bool,
}

/// Offers the facts, each again where the intake is full. It ends where all were accepted or the numbers are used up, or
/// where the intake is full and a worker could not be started.
pub(crate) fn run_feeder<'s, L: LogName, R: Wait>(
    rt: &R,
    intakes: &[Intake<L>],
    stop: &'s StopSignal,
    feed: Feed<L>,
) -> FeederResult<'s, L>
    requires own { (i : _) → NamesItem feed.inlet intakes.now i → feed.sender.intake ≡ i.id }
    ensures inlet { result.feed.inlet ≡ feed.inlet }
    ensures offered { Offered feed.sender feed.facts.items result.feed.sender result.feed.facts.items }
    ensures done { Names feed.inlet (length intakes.now) → IfNone result.halt (IsDone result.feed.sender result.feed.facts.items) }
    ensures halt { IfSome result.halt (λ t. (t.of ≡ stop.entry.now.id) × (t.value ≢ 0)) }
{
    let Feed {
        inlet,
        mut sender,
        mut facts,
    } = feed;
    match numbered(intakes, inlet) {
        Some(intake) => {
            facts.as_mut_slice().reverse();
            let halt = offer_all(rt, intake, stop, &mut sender, &mut facts);
            facts.as_mut_slice().reverse();
            FeederResult {
                feed: Feed {
                    inlet,
                    sender,
                    facts,
                },
                halt,
                absent: false,
            }
        }
        None => FeederResult {
            feed: Feed {
                inlet,
                sender,
                facts,
            },
            halt: None,
            absent: true,
        },
    }
}

// Offers the facts, the last first.
fn offer_all<'s, L: LogName, R: Wait>(
    rt: &R,
    intake: &Intake<L>,
    stop: &'s StopSignal,
    sender: &mut SenderPass<L>,
    facts: &mut Vec<LogFact<L>>,
) -> Option<StopToken<'s>>
    requires own { sender.old.intake ≡ intake.now.id }
    ensures offered { Offered sender.old (reverse facts.old.items) sender.new (reverse facts.new.items) }
    ensures done { IfNone result (IsDone sender.new (reverse facts.new.items)) }
    ensures halt { IfSome result (λ t. (t.of ≡ stop.entry.now.id) × (t.value ≢ 0)) }
{
    for _ in rt.forever() {
        let Some(fact) = facts.pop() else {
            return None;
        };
        match sender.parcel(fact) {
            Ok(parcel) => {
                if let Err(refused) = intake.offer(rt, sender, parcel) {
                    facts.push_reserved(refused.value.into_fact());
                    if let Some(halt) = told(stop) {
                        return Some(halt);
                    }
                    thread::yield_now();
                }
            }
            Err(refused) => {
                facts.push_reserved(refused.value);
                return None;
            }
        }
    }
    unreachable!()
}
