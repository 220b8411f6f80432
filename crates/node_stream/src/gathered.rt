//! Answer frames that are put together in one.

ghost use Rattle.std.specs.Prelude.{◌≡◌, ◌++◌, ◌+◌, ◌*◌, ◌≤◌, ◌<◌, ◌^◌, ◌↔◌, [], length, true, false, IfOk, IsTrue};
ghost use Rattle.framing.specs.Frames.{IsShort, framed};
ghost use Rattle.framing.specs.Inside.{FitsFrame, bytes_with};
ghost use Rattle.node_stream.specs.Gathering.{HasPlaceFor, Gathers, gathered_bytes, gathered_room};

use crate::program::LIMIT;
use std::alloc::{AllocError, Global};

/// The most bytes of a short answer, for which there is always room, with its length in front.
const SHORT_FRAME: usize = 21;

/// Answer frames, one after another, with room for answers that are not known yet. They take up to 64 MiB.
#[derive(Drop)]
pub struct Gathered {
    bytes: Vec<u8>,
}

impl Gathered {
    /// No answers, and room for `count` of them, of 17 bytes at most each. It fails only if memory runs out.
    pub fn new(alloc: Global, count: usize) -> Result<Self, AllocError>
        requires { 21 * count ≤ 2 ^ 26 }
        ensures none { IfOk result (λ a. gathered_bytes a ≡ []) }
        ensures room { IfOk result (λ a. HasPlaceFor a count) }
    {
        let mut bytes = Vec::new(alloc);
        bytes.reserve_exact(count * SHORT_FRAME)?;
        Ok(Gathered { bytes })
    }

    /// Whether an answer of `len` bytes is within the limit, with `others` short ones after it.
    pub fn fits(&self, len: usize, others: usize) -> bool
        requires { HasPlaceFor self.now (others + 1) }
        ensures { IsTrue result ↔ FitsFrame (length (gathered_bytes self.now)) len others }
    {
        let begun = self.bytes.len() + others * SHORT_FRAME;
        len <= LIMIT - 4 - begun
    }

    /// Whether there is room for an answer that fits, with `others` short ones after it; for a long one room is reserved.
    pub fn make_room(&mut self, len: usize, others: usize) -> bool
        requires room { HasPlaceFor self.old (others + 1) }
        requires fits { FitsFrame (length (gathered_bytes self.old)) len others }
        ensures bytes { gathered_bytes self.new ≡ gathered_bytes self.old }
        ensures kept { HasPlaceFor self.new (others + 1) }
        ensures free { result ≡ true → bytes_with (length (gathered_bytes self.old)) len others ≤ gathered_room self.new }
        ensures full { result ≡ false → gathered_room self.old < bytes_with (length (gathered_bytes self.old)) len others }
    {
        let more = others * SHORT_FRAME + (4 + len);
        let len = self.bytes.len();
        if more <= self.bytes.capacity() - len {
            return true;
        }
        let twice = len.min(LIMIT - len);
        self.bytes.reserve_exact(more.max(twice)).is_ok()
    }

    /// Appends a frame for which there is room.
    fn append(&mut self, text: &[u8])
        requires short { IsShort text.now }
        requires room { length (gathered_bytes self.old) + (4 + length text.now) ≤ gathered_room self.old }
        ensures bytes { gathered_bytes self.new ≡ gathered_bytes self.old ++ framed text.now }
        ensures len { length (gathered_bytes self.new) ≡ length (gathered_bytes self.old) + (4 + length text.now) }
        ensures room { gathered_room self.old ≤ gathered_room self.new }
    {
        let head = (text.len() as u32).to_be_bytes();
        self.bytes.extend_from_slice(&head).unwrap();
        self.bytes.extend_from_slice(text).unwrap();
    }

    /// Appends an answer of 17 bytes at most, with `others` after it that are not known yet.
    pub fn put_short(&mut self, text: &[u8], others: usize)
        requires room { HasPlaceFor self.old (others + 1) }
        requires few { length text.now ≤ 17 }
        ensures bytes { gathered_bytes self.new ≡ gathered_bytes self.old ++ framed text.now }
        ensures room { HasPlaceFor self.new others }
    {
        self.append(text);
    }

    /// Appends an answer, with `others` after it that are not known yet. Where all would exceed the limit, `long` is put in its place;
    /// where there is not room enough for one of more than 17 bytes, and no memory, `memory`.
    pub fn put(&mut self, text: &[u8], others: usize)
        requires { HasPlaceFor self.old (others + 1) }
        ensures put { Gathers self.old text.now others self.new }
        ensures room { HasPlaceFor self.new others }
    {
        if !self.fits(text.len(), others) {
            self.put_short("long".as_bytes(), others);
        } else if self.make_room(text.len(), others) {
            self.append(text);
        } else {
            self.put_short("memory".as_bytes(), others);
        }
    }

    /// The bytes of all answers.
    pub fn into_bytes(self) -> Vec<u8>
        ensures { result.items ≡ gathered_bytes self }
    {
        self.bytes
    }
}
