//! A frame on a writer.

ghost use Rattle.std.specs.Prelude.{◌≡◌, ◌++◌, ◌+◌, ◌≤◌, ℕ, length, true, take, OnOk, OnErr, IfErr, is_err};
ghost use Rattle.std.specs.Io.KnownBytes.{Appends};
ghost use Rattle.framing.specs.Watching.{device_of, has_failed};
ghost use Rattle.framing.specs.Frames.{IsShort, framed, header};

use crate::devices::{RunFault, Watched, write_all};
use crate::frames::reading::ROOM;
use std::io::Write;

/// Puts a length and the bytes after it at the start of the buffer, and returns the size of both.
fn put(chunk: &mut [u8; ROOM], count: u32, front: &[u8]) -> usize
    requires { length front.now + 4 ≤ 8192 }
    ensures bound { result ≤ 8192 }
    ensures bytes { take result chunk.new ≡ header count ++ front.now }
{
    let size = 4 + front.len();
    chunk[..4].copy_from_slice(&count.to_be_bytes());
    chunk[4..size].copy_from_slice(front);
    size
}

/// Writes a frame, or a beginning of it: in one write where the buffer has room for it.
pub(crate) fn write_frame<W: Write>(
    writer: &mut Watched<W>,
    chunk: &mut [u8; ROOM],
    bytes: &[u8],
) -> Result<(), RunFault>
    requires { IsShort bytes.now }
    ensures ok { OnOk result (Appends (W.contents (device_of writer.old)) (W.contents (device_of writer.new)) (framed bytes.now)) }
    ensures part { OnErr result
        ((n : ℕ) × Appends (W.contents (device_of writer.old)) (W.contents (device_of writer.new)) (take n (framed bytes.now))) }
    ensures errors { IfErr result (λ e. e ≡ RunFault.Output) }
    ensures failed { is_err result ≡ true → has_failed writer.new ≡ true }
{
    let (front, behind) = bytes.split_at(bytes.len().min(ROOM - 4));
    let size = put(chunk, bytes.len() as u32, front);
    write_all(writer, &chunk[..size])?;
    if behind.is_empty() {
        return Ok(());
    }
    write_all(writer, behind)
}
