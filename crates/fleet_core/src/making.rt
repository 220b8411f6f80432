ghost use Rattle.std.specs.Prelude.{◌≡◌};
ghost use Rattle.std.specs.Option.{option_copied, option_map};
ghost use Rattle.fleet_core.specs.Machine.{numbered as message_numbered};
ghost use Rattle.fleet_core.specs.Messages.{question_in, answer_in};

use messages::{Delta, Summary};

/// A message that was made. It stays, whatever becomes of the node that made it, and may be used again.
#[derive(Drop)]
pub enum Made {
    /// The summary of a node when it was asked.
    Question(Summary),
    /// What a node had beyond the summary in the question of this number.
    Answer { question: usize, delta: Delta },
}

/// The summary in the question of a number, counted from 1; None where there is no such question.
pub(crate) fn question(messages: &[Made], number: usize) -> Option<&Summary>
    ensures { option_copied result ≡ question_in messages.now number }
{
    match numbered(messages, number) {
        Some(Made::Question(summary)) => Some(summary),
        _ => None,
    }
}

/// The answer of a number, counted from 1, beside the question that it answers; None where there is no such answer.
pub(crate) fn answer(messages: &[Made], number: usize) -> Option<(&Summary, &Delta)>
    ensures { option_map (λ x. (x.0.now, x.1.now)) result ≡ answer_in messages.now number }
{
    match numbered(messages, number) {
        Some(
            Made::Answer {
                question: asked,
                delta,
            },
        ) => match question(messages, *asked) {
            Some(summary) => Some((summary, delta)),
            None => None,
        },
        _ => None,
    }
}

/// The message of a number, counted from 1; None where there is none.
fn numbered(messages: &[Made], number: usize) -> Option<&Made>
    ensures { option_copied result ≡ message_numbered messages.now number }
{
    messages.get(number.checked_sub(1)?)
}
