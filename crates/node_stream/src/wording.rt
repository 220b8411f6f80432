//! Texts of words and numbers.

ghost use Rattle.std.specs.Prelude.{◌≡◌, ◌++◌, ◌+◌, ◌*◌, ◌≤◌, [], ◌∷◌, IfOk, length, codes};
ghost use Rattle.node_stream.specs.Telling.{numbered, held_text, refusal_text, shown_text, gap_text, status_start, status_end};
ghost use Rattle.node_stream.specs.Telling.BodyData.{Text};
ghost use Rattle.node_stream.specs.Bodies.{HasBody};

use crate::bodies::ReplyBody;
use crate::short::worded;
use epoch_book::Held;
use gossip_core::Shown;
use redo_core::Cut;
use replica::Status;
use segment_core::{Front, Gap, Refusal};
use std::alloc::{AllocError, Global};
use text::labelled;

/// Words, and numbers after them.
pub fn numbers(words: &str, numbers: &[u64]) -> ReplyBody
    requires { length words.now + 21 * length numbers.now ≤ 210 }
    ensures { HasBody result (Text (numbered words.now numbers.now)) }
{
    ReplyBody::Short(worded(words, numbers))
}

fn cut(words: &str, cut: Cut) -> ReplyBody
    requires { length words.now ≤ 100 }
    ensures { HasBody result (Text (numbered words.now (cut.epoch ∷ cut.lo ∷ cut.hi ∷ []))) }
{
    numbers(words, &[u64::from(cut.epoch()), cut.lo(), cut.hi()])
}

fn held(held: Held) -> ReplyBody
    ensures { HasBody result (Text (held_text held)) }
{
    match held {
        Held::Min(point) => numbers("refused by least", &[point]),
        Held::Advance(advance) => {
            let epoch = u64::from(advance.epoch());
            let reader = u64::from(advance.reader());
            numbers("refused by min", &[epoch, advance.point(), reader])
        }
        Held::Cut(held) => cut("refused by cut", held),
    }
}

/// Why a fact or a delta is refused.
pub fn refusal(why: Refusal) -> ReplyBody
    ensures { HasBody result (Text (refusal_text why)) }
{
    match why {
        Refusal::OtherRoster { own, shown } => {
            numbers("refused by roster", &[u64::from(own), u64::from(shown)])
        }
        Refusal::OtherCut(other) => cut("refused by other cut", other),
        Refusal::Contradiction(what) => held(what),
        Refusal::OtherRecord => ReplyBody::Fixed("refused by record"),
        Refusal::Memory => ReplyBody::Fixed("refused by memory"),
    }
}

/// What of a summary is not answered for.
pub fn uncovered(shown: Shown) -> ReplyBody
    ensures { HasBody result (Text (shown_text shown)) }
{
    match shown {
        Shown::Anchor(anchor) => numbers("uncovered anchor", &[anchor]),
        Shown::Key(key) => numbers("uncovered key", &[u64::from(key.epoch), key.number]),
    }
}

/// How far the segment has come.
pub fn front(front: Front) -> ReplyBody
    ensures { HasBody result (Text (numbered (codes "front") (front.epoch ∷ front.complete ∷ front.min ∷ []))) }
{
    numbers(
        "front",
        &[u64::from(front.epoch), front.complete, front.min],
    )
}

/// What the complete point waits for.
pub fn gap(gap: Gap) -> ReplyBody
    ensures { HasBody result (Text (gap_text gap)) }
{
    match gap {
        Gap::Record { number } => numbers("gap record", &[number]),
        Gap::Truncation { epoch } => numbers("gap truncation", &[u64::from(epoch)]),
    }
}

/// What is stored, in numbers. It fails only if memory runs out.
pub fn state(alloc: Global, status: Status) -> Result<ReplyBody, AllocError>
    ensures { IfOk result (λ t. HasBody t (Text (status_start status ++ status_end status))) }
{
    let numbers = [
        ("state epoch ", u64::from(status.epoch)),
        (" complete ", status.complete),
        (" min ", status.min),
        (" anchor ", status.anchor),
        (" base ", status.base),
        (" held ", status.held as u64),
        (" kept ", status.kept as u64),
        (" images ", status.images as u64),
        (" cuts ", status.truncations as u64),
        (" waits ", status.waiting as u64),
    ];
    let text = labelled(alloc, &numbers)?;
    Ok(ReplyBody::Made(text.into_bytes()))
}
