//! A frame from a reader, which is never asked for more bytes than the rest of the frame.

ghost use Rattle.std.specs.Prelude.{◌≡◌, ◌≤◌, ◌<◌, ◌^◌, ℕ, List, [], take, length, IfOk, IfErr, OnErr};
ghost use Rattle.std.specs.Io.KnownBytes.{Consumes, IsAtEnd};
ghost use Rattle.framing.specs.Watching.{device_of};
ghost use Rattle.framing.specs.Coming.{FailsShort, ReadsBytes, ReadsFrame};
ghost use Rattle.framing.specs.Frames.{header};
ghost use Rattle.framing.specs.FrameKeeping.{HoldsFrame};

use crate::devices::{RunFault, Watched};
use crate::frames::incoming::Incoming;
use std::io::Read;

/// The size in bytes of the buffer that frames are read and written through.
pub(crate) const ROOM: usize = 8192;

/// Reads until the buffer is full or the input ends, and returns the number of bytes read.
fn fill<R: Read>(reader: &mut Watched<R>, buffer: &mut [u8]) -> Result<usize, RunFault>
    ensures bound { IfOk result (λ n. n ≤ length buffer.new) }
    ensures bytes { IfOk result (λ n. Consumes (R.remaining (device_of reader.old)) (R.remaining (device_of reader.new)) (take n buffer.new)) }
    ensures end { IfOk result (λ n. n < length buffer.new → IsAtEnd (R.remaining (device_of reader.new))) }
    ensures err { OnErr result (FailsShort R.remaining reader.old reader.new (length buffer.old)) }
    ensures errors { IfErr result (λ e. e ≡ RunFault.Input) }
{
    let mut at = 0;
    while at < buffer.len() {
        match reader.read(&mut buffer[at..]) {
            Ok(0) => return Ok(at),
            Ok(n) => at += n,
            Err(_) => return Err(RunFault::Input),
        }
    }
    Ok(at)
}

/// The length in a header.
pub(crate) fn length_of(head: &[u8; 4]) -> usize
    ensures short { result < 2 ^ 32 }
    ensures head { header result ≡ head.now }
{
    u32::from_be_bytes(*head) as usize
}

/// Reads the bytes of a frame that has begun; false where the input ends before the last byte.
fn read_bytes<R: Read>(
    reader: &mut Watched<R>,
    incoming: &mut Incoming,
    chunk: &mut [u8; ROOM],
    length: usize,
) -> Result<bool, RunFault>
    requires { HoldsFrame incoming.old length [] }
    ensures { ReadsBytes R.remaining reader.old reader.new incoming.old incoming.new length result }
{
    let mut left = length;
    while left > 0 {
        let size = left.min(ROOM);
        let n = fill(reader, &mut chunk[..size])?;
        incoming.add(&chunk[..n]);
        if n < size {
            return Ok(false);
        }
        left -= n;
    }
    Ok(true)
}

/// Reads a frame; false where the input ends before its last byte.
pub(crate) fn read_frame<R: Read>(
    reader: &mut Watched<R>,
    incoming: &mut Incoming,
    chunk: &mut [u8; ROOM],
) -> Result<bool, RunFault>
    ensures { ReadsFrame R.remaining reader.old reader.new incoming.old incoming.new result }
{
    let mut header = [0u8; 4];
    if fill(reader, &mut header)? < header.len() {
        return Ok(false);
    }
    let length = length_of(&header);
    incoming.begin(length);
    read_bytes(reader, incoming, chunk, length)
}
