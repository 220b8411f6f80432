//! From actions to the bytes of an answer: a frame for each.

ghost use Rattle.std.specs.Prelude.{◌≡◌, ◌++◌, ◌<◌, ◌^◌, IfOk, OnOk, length};
ghost use Rattle.framing.specs.Frames.{framed};
ghost use Rattle.volume_stream.specs.Words.{followed};
ghost use Rattle.volume_stream.specs.ActionFrames.{action_frame, actions_frame, fault_frame};

use crate::request_frames::request_frame;
use crate::words::numbered;
use bytes::BytesMut;
use std::alloc::{AllocError, Global};
use volume::{Action, Fault};

/// The most bytes of an answer.
const LONGEST: usize = 4_294_967_295;

/// The frames of actions, one after another. It fails if memory runs out, or if they would have 2^32 bytes.
pub(crate) fn actions_frame(alloc: Global, actions: &[Action]) -> Result<Vec<u8>, AllocError>
    ensures frames { IfOk result (λ v. v.items ≡ actions_frame actions.now) }
    ensures short { IfOk result (λ v. length v.items < 2 ^ 32) }
{
    let mut out = BytesMut::new(alloc);
    for action in actions {
        let frame = action_frame(alloc, action)?;
        put_frame(&mut out, frame.as_slice())?;
    }
    match out.into_vec() {
        Ok(bytes) => Ok(bytes),
        Err(_) => Err(AllocError),
    }
}

/// Appends the length of some bytes in four, the highest first, and the bytes. It fails if memory runs out, or if all would have 2^32 bytes.
#[tactic(auto, unfolding(framing::specs::Frames::header))]
fn put_frame(out: &mut BytesMut, bytes: &[u8]) -> Result<(), AllocError>
    requires { length out.old.items < 2 ^ 32 }
    ensures bytes { OnOk result (out.new.items ≡ out.old.items ++ framed bytes.now) }
    ensures short { OnOk result (length out.new.items < 2 ^ 32) }
{
    let size = out.len() + 4 + bytes.len();
    if size > LONGEST {
        return Err(AllocError);
    }
    out.extend_from_slice((bytes.len() as u32).to_be_bytes().as_slice())?;
    out.extend_from_slice(bytes)
}

/// The bytes of an action's frame. It fails only if memory runs out.
fn action_frame(alloc: Global, action: &Action) -> Result<BytesMut, AllocError>
    ensures { IfOk result (λ b. b.items ≡ action_frame action.now) }
{
    match action {
        Action::Ask { node, request } => {
            let request = request_frame(alloc, request)?;
            followed(alloc, "ask", &[u64::from(*node)], request.as_slice())
        }
        Action::Created => numbered(alloc, "created", &[]),
        Action::Opened {
            epoch,
            commit_point,
            header,
        } => followed(alloc, "opened", &[u64::from(*epoch), *commit_point], header),
        Action::Committed { commit_point } => numbered(alloc, "committed", &[*commit_point]),
        Action::Durable { commit_point } => numbered(alloc, "durable", &[*commit_point]),
        Action::Refused { fault } => fault_frame(alloc, *fault),
    }
}

/// A word and numbers, and bytes after a space.
fn followed(
    alloc: Global,
    word: &str,
    numbers: &[u64],
    bytes: &[u8],
) -> Result<BytesMut, AllocError>
    ensures { IfOk result (λ b. b.items ≡ followed word.now numbers.now bytes.now) }
{
    let mut out = numbered(alloc, word, numbers)?;
    out.extend_from_slice(b" ".as_slice())?;
    out.extend_from_slice(bytes)?;
    Ok(out)
}

fn fault_frame(alloc: Global, fault: Fault) -> Result<BytesMut, AllocError>
    ensures { IfOk result (λ b. b.items ≡ fault_frame fault) }
{
    match fault {
        Fault::Fenced { generation } => numbered(alloc, "fenced", &[generation]),
        Fault::NoQuorum { have, need } => {
            numbered(alloc, "no quorum", &[u64::from(have), u64::from(need)])
        }
        Fault::NotOpen => numbered(alloc, "not open", &[]),
        Fault::Ahead { durable } => numbered(alloc, "ahead", &[durable]),
        Fault::Full => numbered(alloc, "full", &[]),
        Fault::NotFresh => numbered(alloc, "not fresh", &[]),
        Fault::Reserved => numbered(alloc, "reserved", &[]),
        Fault::LongHeader => numbered(alloc, "long header", &[]),
        Fault::Damaged => numbered(alloc, "damaged", &[]),
        Fault::Shape(_) => numbered(alloc, "shape", &[]),
    }
}
