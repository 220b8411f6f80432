//! How the program ends.

ghost use Rattle.std.specs.Prelude.{◌≡◌};
ghost use Rattle.fleet_tool.specs.Ending.{status_of, words_of};

use crate::answer::Verdict;
use framing::devices::RunFault;

/// The exit status for the result of a text call: 0 done, 2 a bad line, 3 a log that is not sound, 4 a device that failed,
/// 5 out of memory.
pub(crate) fn status_of(ended: Result<Verdict, RunFault>) -> u8
    ensures { result ≡ status_of ended }
{
    match ended {
        Ok(Verdict::Done) => 0,
        Ok(Verdict::BadLine) => 2,
        Ok(Verdict::Unsound) => 3,
        Err(RunFault::Input) => 4,
        Err(RunFault::Output) => 4,
        Err(RunFault::Memory) => 5,
    }
}

/// The message for standard error; empty where there is an answer, whatever it says.
pub(crate) fn words_of(ended: Result<Verdict, RunFault>) -> &'static str
    ensures { result.now ≡ words_of ended }
{
    match ended {
        Ok(_) => "",
        Err(RunFault::Input) => "input failed",
        Err(RunFault::Output) => "output failed",
        Err(RunFault::Memory) => "out of memory",
    }
}
