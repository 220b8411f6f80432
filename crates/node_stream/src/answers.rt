//! The body of a replica's reply.

ghost use Rattle.std.specs.Prelude.{IfOk, OnErr};
ghost use Rattle.node_stream.specs.Asking.{IsInside};
ghost use Rattle.node_stream.specs.Telling.{body_of, TakesMemory};
ghost use Rattle.node_stream.specs.Bodies.{HasBody, IsLong};

use crate::asked::Window;
use crate::bodies::ReplyBody;
use crate::short::counted;
use crate::telling::{delta, page, piece, record, summary};
use crate::wording::{front, gap, numbers, refusal, state, uncovered};
use replica::Reply;
use std::alloc::{AllocError, Global};

/// The body of a reply. It fails only if memory runs out, and not for a reply to a request that has changed something.
pub fn body(alloc: Global, window: Window, reply: &Reply) -> Result<ReplyBody, AllocError>
    requires { IsInside window }
    ensures tells { IfOk result (λ t. HasBody t (body_of window reply.now)) }
    ensures long { IfOk result (λ t. IsLong t → TakesMemory reply.now) }
    ensures memory { OnErr result (TakesMemory reply.now) }
{
    match reply {
        Reply::Opened => Ok(ReplyBody::Fixed("opened")),
        Reply::Changed => Ok(ReplyBody::Fixed("changed")),
        Reply::Unchanged => Ok(ReplyBody::Fixed("unchanged")),
        Reply::Refused { why } => Ok(refusal(*why)),
        Reply::Front { front: at } => Ok(front(*at)),
        Reply::Gap { gap: waited } => Ok(gap(*waited)),
        Reply::NoGap => Ok(ReplyBody::Fixed("no gap")),
        Reply::State { status } => state(alloc, *status),
        Reply::Page { image } => page(alloc, window, image),
        Reply::Below { min } => Ok(numbers("below", &[*min])),
        Reply::Above { complete } => Ok(numbers("above", &[*complete])),
        Reply::BrokenBlockChain { page, number } => {
            Ok(numbers("broken", &[u64::from(*page), *number]))
        }
        Reply::Summary { summary: own } => summary(alloc, own.value()),
        Reply::Delta { delta: own } => delta(alloc, own.value()),
        Reply::Large => Ok(ReplyBody::Fixed("large")),
        Reply::Absorbed => Ok(ReplyBody::Fixed("absorbed")),
        Reply::Uncovered { shown } => Ok(uncovered(*shown)),
        Reply::Folded => Ok(ReplyBody::Fixed("folded")),
        Reply::Discarded => Ok(ReplyBody::Fixed("discarded")),
        Reply::Tidied => Ok(ReplyBody::Fixed("tidied")),
        Reply::Frozen { pieces } => Ok(ReplyBody::Short(counted("frozen", *pieces))),
        Reply::TooMany => Ok(ReplyBody::Fixed("too many")),
        Reply::Piece { piece: own } => piece(alloc, own.value()),
        Reply::NoSnapshot => Ok(ReplyBody::Fixed("no snapshot")),
        Reply::NoPiece => Ok(ReplyBody::Fixed("no piece")),
        Reply::Staged => Ok(ReplyBody::Fixed("staged")),
        Reply::Added => Ok(ReplyBody::Fixed("added")),
        Reply::Stranger => Ok(ReplyBody::Fixed("stranger")),
        Reply::Double { index } => Ok(numbers("double", &[u64::from(*index)])),
        Reply::NoStaging => Ok(ReplyBody::Fixed("no staging")),
        Reply::Restored => Ok(ReplyBody::Fixed("restored")),
        Reply::United => Ok(ReplyBody::Fixed("united")),
        Reply::Missing { index } => Ok(numbers("missing", &[u64::from(*index)])),
        Reply::Malformed { index } => Ok(numbers("malformed", &[u64::from(*index)])),
        Reply::Next { redo } => record(alloc, redo),
        Reply::NoNext => Ok(ReplyBody::Fixed("none")),
        Reply::Memory => Ok(ReplyBody::Fixed("memory")),
    }
}
