//! A replica on a stream.

ghost use Rattle.framing.specs.FramesServed.{ServesFrames};
ghost use Rattle.framing.specs.LinesServed.{Serves};
ghost use Rattle.node_stream.specs.Answering.{IsAnswer, IsFrameAnswer};

use crate::node::Node;
use framing::devices::{RunFault, Watched};
use std::io::{Read, Write};

/// Answers the request lines of the reader until its input ends: each whole line by one line, which is written and flushed before the next
/// line is looked at. A line of more than `limit` bytes without its LF is answered `long line`, and its bytes are not kept.
///
/// Errors: `Input` and `Output` only where that device failed; `Memory` after 2^64 - 1 reads. After `Output` the writer has a beginning
/// of the answers, else all of them. Lack of memory is no error: it is answered `memory`.
pub fn serve<R: Read, W: Write>(
    limit: usize,
    node: &mut Node,
    reader: &mut Watched<R>,
    writer: &mut Watched<W>,
) -> Result<(), RunFault>
    ensures { Serves IsAnswer limit R.remaining W.contents node.old node.new reader.old reader.new writer.old writer.new result }
{
    framing::lines::serve(node.allocator(), limit, node, reader, writer)
}

/// Answers the request frames of the reader until its input ends: each whole frame by one frame, which is written and flushed before the
/// next frame is read. A frame of more than `limit` bytes is answered `long frame`, and its bytes are not kept.
///
/// Errors: `Input` and `Output` only where that device failed; `Memory` after 2^64 - 1 frames. After `Output` the writer has a
/// beginning of the answers, else all of them. Lack of memory is no error: it is answered `memory`.
pub fn serve_frames<R: Read, W: Write>(
    limit: usize,
    node: &mut Node,
    reader: &mut Watched<R>,
    writer: &mut Watched<W>,
) -> Result<(), RunFault>
    ensures { ServesFrames IsFrameAnswer limit R.remaining W.contents node.old node.new reader.old reader.new writer.old writer.new result }
{
    framing::frames::serve(node.allocator(), limit, node, reader, writer)
}
