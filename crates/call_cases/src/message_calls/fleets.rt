use crate::answer::Answer;
use crate::outcomes::{refused, unread};
use case_io::{Row, nth, size};
use fleet_core::{Fleet, Reply, Step};
use redo_core::Fact;
use segment_core::ReadFault;
use std::alloc::AllocError;

fn plain_step(row: &Row) -> Option<Step<Fact>> {
    let (node, other) = (row.short(0), row.short(1));
    let message = size(row.number(1));
    match row.name {
        "fold" => Some(Step::Fold { node, page: other }),
        "discard" => Some(Step::Discard { node }),
        "front" => Some(Step::Front { node }),
        "read" => Some(Step::Read {
            node,
            page: other,
            point: row.number(2),
            offset: 0,
            len: 1,
        }),
        "join" => Some(Step::Join { node, from: other }),
        "same" => Some(Step::Same { node, other }),
        "covers" => Some(Step::Covers { node, other }),
        "wipe" => Some(Step::Wipe { node }),
        "ask" => Some(Step::Ask { node }),
        "answer" => Some(Step::Answer { node, message }),
        "absorb" => Some(Step::Absorb { node, message }),
        _ => None,
    }
}

/// The answer for a reply; of a page its first byte.
fn told(row: &Row, reply: &Reply) -> Result<Answer, AllocError> {
    match reply {
        Reply::Changed => Ok(Answer::Word("Changed")),
        Reply::Unchanged => Ok(Answer::Word("Unchanged")),
        Reply::Folded => Ok(Answer::Word("Folded")),
        Reply::Discarded => Ok(Answer::Word("Discarded")),
        Reply::Front(front) => Answer::one(row.alloc, "Front", front),
        Reply::Page(image) => Ok(Answer::Numbered("Byte", u64::from(image.bytes()[0]))),
        Reply::Below(min) => Ok(Answer::Numbered("Below", *min)),
        Reply::Above(complete) => Ok(Answer::Numbered("Above", *complete)),
        Reply::Joined => Ok(Answer::Word("Joined")),
        Reply::Answer(holds) => Ok(Answer::Flag(*holds)),
        Reply::Wiped => Ok(Answer::Word("Wiped")),
        Reply::Message(number) => Ok(Answer::Numbered("Message", *number as u64)),
        Reply::Absorbed => Ok(Answer::Word("Absorbed")),
        Reply::Uncovered(shown) => Answer::one(row.alloc, "Uncovered", shown),
        Reply::NoMessage(number) => Ok(Answer::Numbered("NoMessage", *number as u64)),
        Reply::NoNode(node) => Ok(Answer::Numbered("NoNode", u64::from(*node))),
        Reply::Refused(why) => refused(row, *why),
        Reply::BrokenBlockChain { page, number } => {
            let (page, number) = (*page, *number);
            unread(row, ReadFault::BrokenBlockChain { page, number })
        }
        Reply::Memory => Err(AllocError),
    }
}

/// Takes a fact, which is named by its number and copied.
fn take(fleet: &mut Fleet, facts: &[Fact], row: &Row) -> Result<Answer, AllocError> {
    let Some(fact) = nth(facts, row.number(1)) else {
        return Ok(Answer::Unknown);
    };
    let step = Step::Take {
        node: row.short(0),
        fact: fact.copy()?,
    };
    told(row, &fleet.step(&step))
}

/// Carries out a step of a fleet.
pub fn step(fleet: &mut Fleet, facts: &[Fact], row: &Row) -> Result<Answer, AllocError> {
    if row.name == "take" {
        return take(fleet, facts, row);
    }
    match plain_step(row) {
        Some(step) => told(row, &fleet.step(&step)),
        None => Ok(Answer::Unknown),
    }
}

/// Gives a fact to a node of a fleet.
pub fn give(fleet: &mut Fleet, facts: &[Fact], row: &Row) -> Result<Answer, AllocError> {
    match nth(facts, row.number(1)) {
        Some(fact) => told(row, &fleet.take(row.short(0), fact.copy()?)),
        None => Ok(Answer::Unknown),
    }
}
