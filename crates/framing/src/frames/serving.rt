//! From a reader to a writer, an answer for each frame.

ghost use Rattle.framing.specs.FramesServed.{ServesFrames};

use crate::devices::{RunFault, Watched};
use crate::frames::incoming::Incoming;
use crate::frames::machine::FrameMachine;
use crate::frames::reading::{ROOM, read_frame};
use crate::frames::writing::write_frame;
use std::alloc::Global;
use std::io::{Read, Write};

/// Answers each frame of the reader until its input ends: each whole frame by one frame, which is written and flushed before the next
/// frame is read. A frame of more than `limit` bytes is answered `long frame`, and its bytes are not kept.
///
/// Errors: `Input` and `Output` only where that device failed; `Memory` after 2^64 - 1 frames. After `Output` the writer has a
/// beginning of the answers, else all of them.
pub fn serve<M: FrameMachine, R: Read, W: Write>(
    alloc: Global,
    limit: usize,
    machine: &mut M,
    reader: &mut Watched<R>,
    writer: &mut Watched<W>,
) -> Result<(), RunFault>
    ensures { ServesFrames M.answers limit R.remaining W.contents machine.old machine.new reader.old reader.new writer.old writer.new result }
{
    let mut incoming = Incoming::new(alloc, limit);
    let mut chunk = [0u8; ROOM];
    for _ in 0..u64::MAX {
        if !read_frame(reader, &mut incoming, &mut chunk)? {
            return Ok(());
        }
        let answer = incoming.answer(machine);
        write_frame(writer, &mut chunk, answer.as_bytes())?;
    }
    Err(RunFault::Memory)
}
