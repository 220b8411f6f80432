ghost use Rattle.fleet_core.specs.MessageCalls.{Makes, Asks, AnswersNumber, AbsorbsNumber};

use crate::making::{Made, answer, question};
use crate::replies::Reply;
use crate::replying::{absorbed_reply, fault_reply};
use gossip_core::{absorb, reply, summary};
use segment_core::Segment;

/// Makes a message of a node's summary.
pub(crate) fn ask(segment: &Segment, messages: &mut Vec<Made>) -> Reply
    ensures calls { Asks segment.now messages.old.items result messages.new.items }
{
    match summary(segment) {
        Ok(told) => make(messages, Made::Question(told)),
        Err(_) => Reply::Memory,
    }
}

/// Makes a message of what a node has beyond the summary in the question of a number.
pub(crate) fn answer_question(segment: &Segment, messages: &mut Vec<Made>, number: usize) -> Reply
    ensures calls { AnswersNumber segment.now messages.old.items number result messages.new.items }
{
    let replied = match question(messages, number) {
        Some(asked) => reply(segment, asked),
        None => return Reply::NoMessage(number),
    };
    match replied {
        Ok(delta) => make(
            messages,
            Made::Answer {
                question: number,
                delta,
            },
        ),
        Err(fault) => fault_reply(fault),
    }
}

/// Brings the delta of the answer of a number into a node.
pub(crate) fn absorb_answer(segment: &mut Segment, messages: &[Made], number: usize) -> Reply
    ensures calls { AbsorbsNumber segment.old messages.now number result segment.new }
{
    match answer(messages, number) {
        Some((asked, delta)) => absorbed_reply(absorb(segment, asked, delta)),
        None => Reply::NoMessage(number),
    }
}

/// Adds a message, and replies with its number.
fn make(messages: &mut Vec<Made>, message: Made) -> Reply
    ensures { Makes messages.old.items message result messages.new.items }
{
    match messages.push(message) {
        Ok(()) => Reply::Message(messages.len()),
        Err(_) => Reply::Memory,
    }
}
