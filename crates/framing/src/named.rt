//! The command line of a program that has a name of its own, whatever path it was started by.

ghost use Rattle.std.specs.Io.{WritesAtMost};

use std::env::FillError;
use std::rt::Env;

/// An environment in which argument 0 is the given name; everything else is as in `env`. So a program whose path is not
/// UTF-8 has a name too.
#[derive(Drop)]
pub struct Named<'a, R> {
    pub env: &'a R,
    pub name: &'static [u8],
}

impl<R: Env> Env for Named<'_, R> {
    fn arg(&self, i: usize, buf: &mut [u8]) -> Result<usize, FillError> {
        if i == 0 {
            return name_in(self.name, buf);
        }
        self.env.arg(i, buf)
    }

    fn var(&self, name: &str, buf: &mut [u8]) -> Result<usize, FillError> {
        self.env.var(name, buf)
    }

    fn var_at(&self, i: usize, buf: &mut [u8]) -> Result<usize, FillError> {
        self.env.var_at(i, buf)
    }
}

/// Puts the name at the start of the buffer.
fn name_in(name: &[u8], buf: &mut [u8]) -> Result<usize, FillError>
    ensures { WritesAtMost result buf.new }
{
    if buf.len() < name.len() {
        return Err(FillError::TooLong);
    }
    buf[..name.len()].copy_from_slice(name);
    Ok(name.len())
}
