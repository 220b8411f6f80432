//! Readers and writers, and whether a call of them failed.

ghost use Rattle.std.specs.Prelude.{◌≡◌, ◌||◌, ◌<◌, ◌≤◌, length, is_err, is_none, not, false, take, IfSome, IfNone};
ghost use Rattle.std.specs.Io.{ReadsAtMost};
ghost use Rattle.std.specs.Io.KnownBytes.{ReadConsumes, Appends, Keeps};
ghost use Rattle.framing.specs.Watching.{device_of, has_failed};

use std::io;
use std::io::{Read, Write};

/// A reader or a writer, and whether a call of it failed since the watch began.
#[derive(Drop)]
pub struct Watched<D> {
    device: D,
    failed: bool,
}

impl<D> Watched<D> {
    /// Begins to watch the device.
    pub fn new(device: D) -> Self
        ensures device { device_of result ≡ device }
        ensures failed { has_failed result ≡ false }
    {
        Watched {
            device,
            failed: false,
        }
    }

    /// Whether a call failed since the watch began.
    pub fn has_failed(&self) -> bool
        ensures { result ≡ has_failed self.now }
    {
        self.failed
    }

    /// The device.
    pub fn into_inner(self) -> D
        ensures { result ≡ device_of self }
    {
        let Watched { device, failed: _ } = self;
        device
    }
}

impl<R: Read> Watched<R> {
    /// Reads into the buffer as the device does. An error counts as a failure, and leaves known bytes as they were.
    pub fn read(&mut self, buf: &mut [u8]) -> io::Result<usize>
        ensures bound { ReadsAtMost result buf.new }
        ensures bytes { ReadConsumes (R.remaining (device_of self.old)) (R.remaining (device_of self.new)) result buf.new }
        ensures failed { has_failed self.new ≡ (has_failed self.old || is_err result) }
    {
        let result = self.device.read(buf);
        if result.is_err() {
            self.failed = true;
        }
        result
    }
}

impl<W: Write> Watched<W> {
    /// Writes a beginning of the buffer and returns its length. None, which leaves known bytes as they were, is a failure: an error, or no
    /// byte written of some.
    pub fn write(&mut self, buf: &[u8]) -> Option<usize>
        ensures bound { IfSome result (λ n. n ≤ length buf.now) }
        ensures some { IfSome result (λ n. 0 < length buf.now → 0 < n) }
        ensures taken { IfSome result (λ n. Appends (W.contents (device_of self.old)) (W.contents (device_of self.new)) (take n buf.now)) }
        ensures none { IfNone result (Keeps (W.contents (device_of self.old)) (W.contents (device_of self.new))) }
        ensures failed { has_failed self.new ≡ (has_failed self.old || is_none result) }
    {
        match self.device.write(buf) {
            Ok(n) if n > 0 => Some(n),
            Ok(_) if buf.is_empty() => Some(0),
            Ok(_) => {
                self.failed = true;
                None
            }
            Err(_) => {
                self.failed = true;
                None
            }
        }
    }

    /// Flushes the device, and returns whether that succeeded.
    pub fn flush(&mut self) -> bool
        ensures kept { Keeps (W.contents (device_of self.old)) (W.contents (device_of self.new)) }
        ensures failed { has_failed self.new ≡ (has_failed self.old || not result) }
    {
        let flushed = self.device.flush().is_ok();
        if !flushed {
            self.failed = true;
        }
        flushed
    }
}
