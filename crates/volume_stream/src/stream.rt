//! The machine of a volume on a stream.

ghost use Rattle.framing.specs.FramesServed.{ServesFrames};
ghost use Rattle.volume_stream.specs.Answering.{AnswersEvent};

use crate::machine::Engine;
use framing::devices::{RunFault, Watched};
use std::io::{Read, Write};

/// Answers the event frames of the reader until its input ends: each whole frame by one frame, which is written and flushed before the
/// next frame is read. A frame of more than `limit` bytes is answered `long frame`, and its bytes are not kept.
///
/// Errors: `Input` and `Output` only where that device failed; `Memory` after 2^64 - 1 frames. After `Output` the writer has a
/// beginning of the answers, else all of them. Lack of memory is no error: it is answered `memory`.
pub fn serve<R: Read, W: Write>(
    limit: usize,
    engine: &mut Engine,
    reader: &mut Watched<R>,
    writer: &mut Watched<W>,
) -> Result<(), RunFault>
    ensures { ServesFrames AnswersEvent limit R.remaining W.contents engine.old engine.new reader.old reader.new writer.old writer.new result }
{
    framing::frames::serve(engine.allocator(), limit, engine, reader, writer)
}
