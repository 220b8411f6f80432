//! From the bytes of a node's answer to the reply that they encode.

ghost use Rattle.std.specs.Prelude.{◌≡◌, IfOk, option_map};
ghost use Rattle.node_stream.specs.GuardReading.{wide_front};
ghost use Rattle.volume_stream.specs.ReplyFrames.{reply_in, lone_reply, headed_reply};

use crate::reply_numbers::numbered_reply;
use crate::segment_replies::segment_reply;
use guard::Reply;
use node_stream::{WIDE, halves, wide_number};
use std::alloc::{AllocError, Global};
use text::is_word;

/// The reply that an answer's bytes encode, where an engine listens to it; None for any other. It fails only if memory runs out.
#[tactic(auto, unfolding(crate::specs::ReplyFrames::reply_words))]
pub fn read_reply(alloc: Global, answer: &[u8]) -> Result<Option<Reply>, AllocError>
    ensures { IfOk result (λ o. o ≡ reply_in answer.now) }
{
    let Some((word, rest)) = halves(answer) else {
        return Ok(lone(answer));
    };
    if is_word(word, b"as".as_slice()) {
        headed(alloc, rest)
    } else {
        numbered_reply(alloc, word, rest)
    }
}

#[tactic(auto, unfolding(crate::specs::ReplyFrames::lone_reply))]
fn lone(text: &[u8]) -> Option<Reply>
    ensures { result ≡ lone_reply text.now }
{
    if is_word(text, b"member".as_slice()) {
        Some(Reply::Member)
    } else {
        None
    }
}

/// A generation or a birth, and the bytes after it and a space.
fn wide_front(text: &[u8]) -> Option<(u64, &[u8])>
    ensures { option_map (λ p. (p.0, p.1.now)) result ≡ wide_front text.now }
{
    let (digits, behind) = halves(text)?;
    Some((wide_number(digits, WIDE)?, behind))
}

/// The bytes after `as`: a generation, a birth, and the reply of a segment.
#[tactic(auto, unfolding(crate::specs::ReplyFrames::headed_reply))]
fn headed(alloc: Global, rest: &[u8]) -> Result<Option<Reply>, AllocError>
    ensures { IfOk result (λ o. o ≡ headed_reply rest.now) }
{
    let Some((generation, behind)) = wide_front(rest) else {
        return Ok(None);
    };
    let Some((birth, own)) = wide_front(behind) else {
        return Ok(None);
    };
    match segment_reply(alloc, own)? {
        Some(reply) => Ok(Some(Reply::Headed {
            generation,
            birth,
            reply,
        })),
        None => Ok(None),
    }
}
