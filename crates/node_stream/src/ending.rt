//! How the program ends.

ghost use Rattle.std.specs.Prelude.{◌≡◌};
ghost use Rattle.node_stream.specs.Ending.{status_of, words_of};

use framing::devices::RunFault;

/// The status of a stream that has ended: 0 at the end of its input, 4 a device that failed, 5 no memory.
pub fn status_of(ended: Result<(), RunFault>) -> u8
    ensures { result ≡ status_of ended }
{
    match ended {
        Ok(()) => 0,
        Err(RunFault::Input) => 4,
        Err(RunFault::Output) => 4,
        Err(RunFault::Memory) => 5,
    }
}

/// What is said of it on standard error; nothing at the end of the input.
pub fn words_of(ended: Result<(), RunFault>) -> &'static str
    ensures { result.now ≡ words_of ended }
{
    match ended {
        Ok(()) => "",
        Err(RunFault::Input) => "input failed",
        Err(RunFault::Output) => "output failed",
        Err(RunFault::Memory) => "out of memory",
    }
}
