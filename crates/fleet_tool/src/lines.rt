//! Answer lines.

ghost use Rattle.std.specs.Prelude.{◌≡◌, [], ◌∷◌, ◌++◌, OnOk, codes, string_bytes};
ghost use Rattle.hex.specs.Hex.{encode_lower};
ghost use Rattle.script_steps.specs.Shown.{ShowsInside};
ghost use Rattle.fleet_core.specs.Replies.{HasCome};
ghost use Rattle.text.specs.Wording.{worded_line};
ghost use Rattle.fleet_tool.specs.Lines.{shown_bytes, front_text, uncovered_text, line_of};

use fleet_core::Reply;
use gossip_core::Shown;
use redo_core::Page;
use script_steps::Step;
use segment_core::Front;
use std::alloc::{AllocError, Global};
use text::worded_line;

/// The bytes of a page that the step yields: only a read yields any.
fn shown_bytes<'a>(step: Step<usize>, page: &'a Page) -> &'a [u8]
    requires { ShowsInside step }
    ensures { result.now ≡ shown_bytes step page.now }
{
    match step {
        Step::Read { offset, len, .. } => {
            let start = usize::from(offset);
            &page.bytes()[start..start + usize::from(len)]
        }
        _ => &page.bytes()[..0],
    }
}

/// Appends the line of these bytes, in hexadecimal.
fn put_page(alloc: Global, bytes: &[u8], text: &mut String) -> Result<(), AllocError>
    ensures { OnOk result (string_bytes text.new ≡ string_bytes text.old ++ (codes "page " ++ (encode_lower bytes.now ++ codes "\n"))) }
{
    let digits = hex::encode(alloc, bytes)?;
    text.push_str("page ")?;
    text.push_str(&digits)?;
    text.push_str("\n")
}

/// Appends the line of a keyword and numbers.
fn put_numbers(
    alloc: Global,
    word: &str,
    numbers: &[u64],
    text: &mut String,
) -> Result<(), AllocError>
    ensures { OnOk result (string_bytes text.new ≡ string_bytes text.old ++ worded_line word.now numbers.now) }
{
    text.push_str(&worded_line(alloc, word, numbers)?)
}

/// Appends the line of a keyword and one number.
fn put_number(alloc: Global, word: &str, number: u64, text: &mut String) -> Result<(), AllocError>
    ensures { OnOk result (string_bytes text.new ≡ string_bytes text.old ++ worded_line word.now (number ∷ [])) }
{
    put_numbers(alloc, word, &[number], text)
}

fn put_front(alloc: Global, front: &Front, text: &mut String) -> Result<(), AllocError>
    ensures { OnOk result (string_bytes text.new ≡ string_bytes text.old ++ front_text front.now) }
{
    put_numbers(
        alloc,
        "front",
        &[u64::from(front.epoch), front.complete, front.min],
        text,
    )
}

/// Appends the line for the part of a summary that a node does not cover.
fn put_uncovered(alloc: Global, shown: Shown, text: &mut String) -> Result<(), AllocError>
    ensures { OnOk result (string_bytes text.new ≡ string_bytes text.old ++ (codes "uncovered " ++ (uncovered_text shown ++ codes "\n"))) }
{
    match shown {
        Shown::Anchor(anchor) => put_number(alloc, "uncovered anchor", anchor, text),
        Shown::Key(key) => {
            put_numbers(
                alloc,
                "uncovered key",
                &[u64::from(key.epoch), key.number],
                text,
            )
        }
    }
}

/// Appends the answer line of a reply to a step. Fails where memory runs out, here or in the step.
pub(crate) fn put_line(
    alloc: Global,
    step: Step<usize>,
    reply: &Reply,
    text: &mut String,
) -> Result<(), AllocError>
    requires { ShowsInside step }
    ensures text { OnOk result (string_bytes text.new ≡ string_bytes text.old ++ line_of step reply.now) }
    ensures came { OnOk result (HasCome reply.now) }
{
    match reply {
        Reply::Changed => text.push_str("changed\n"),
        Reply::Unchanged => text.push_str("unchanged\n"),
        Reply::Folded => text.push_str("folded\n"),
        Reply::Discarded => text.push_str("discarded\n"),
        Reply::Front(front) => put_front(alloc, front, text),
        Reply::Page(page) => put_page(alloc, shown_bytes(step, page), text),
        Reply::Below(min) => put_number(alloc, "below", *min, text),
        Reply::Above(complete) => put_number(alloc, "above", *complete, text),
        Reply::Joined => text.push_str("joined\n"),
        Reply::Answer(true) => text.push_str("yes\n"),
        Reply::Answer(false) => text.push_str("no\n"),
        Reply::Wiped => text.push_str("wiped\n"),
        Reply::Message(number) => put_number(alloc, "message", *number as u64, text),
        Reply::Absorbed => text.push_str("absorbed\n"),
        Reply::Uncovered(shown) => put_uncovered(alloc, *shown, text),
        Reply::NoMessage(number) => put_number(alloc, "no message", *number as u64, text),
        Reply::NoNode(node) => put_number(alloc, "no node", u64::from(*node), text),
        Reply::Refused(_) => Ok(()),
        Reply::BrokenBlockChain { .. } => Ok(()),
        Reply::Memory => Err(AllocError),
    }
}
