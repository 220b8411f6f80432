//! An open descriptor as a reader and a writer.
#![tactic(auto)]

use io::{read_full, write_all};
use std::io::{ErrorKind, Read, Result, Write};

/// A descriptor that blocks. The caller keeps it open, and closes it.
#[derive(Drop)]
pub struct Descriptor {
    number: i32,
}

impl Descriptor {
    /// The descriptor of that number.
    pub fn new(number: i32) -> Self {
        Descriptor { number }
    }
}

impl Read for Descriptor {
    /// Waits until the buffer is full or the input has ended. A descriptor that cannot be read has ended.
    fn read(&mut self, buf: &mut [u8]) -> Result<usize> {
        Ok(read_full(self.number, buf))
    }
}

impl Write for Descriptor {
    /// Writes the whole of the buffer. After an error some of it may have been written.
    fn write(&mut self, buf: &[u8]) -> Result<usize> {
        if write_all(self.number, buf) {
            Ok(buf.len())
        } else {
            Err(ErrorKind::Other.into())
        }
    }

    /// Each write goes out at once, so there is nothing to flush.
    fn flush(&mut self) -> Result<()> {
        Ok(())
    }
}
