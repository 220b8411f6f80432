//! From a reader to a writer, an answer for each line.

ghost use Rattle.std.specs.Prelude.{◌≡◌, ℕ, List, [], ◌∷◌, OnOk, OnErr, IfErr, take};
ghost use Rattle.std.specs.List.{concat};
ghost use Rattle.std.specs.Io.KnownBytes.{Appends};
ghost use Rattle.text.specs.Parts.{parts_at};
ghost use Rattle.framing.specs.LineKeeping.{HoldsLine, line_limit};
ghost use Rattle.framing.specs.Lines.{AnswersFirst, glued};
ghost use Rattle.framing.specs.LinesServed.{EndsLines, EndsWith, BreaksOff, Serves};
ghost use Rattle.framing.specs.Watching.{device_of, has_failed};

use crate::devices::{RunFault, Watched, write_all};
use crate::lines::machine::LineMachine;
use crate::lines::pending::Pending;
use std::alloc::Global;
use std::io::{Read, Write};
use text::first_part;

/// Answers each line that ends in the bytes, and keeps the bytes after the last LF.
fn answer_bytes<M: LineMachine, W: Write>(
    machine: &mut M,
    pending: &mut Pending,
    bytes: &[u8],
    writer: &mut Watched<W>,
) -> Result<(), RunFault>
    ensures ok { OnOk result
        (EndsLines M.answers W.contents pending.old pending.new bytes.now machine.old machine.new writer.old writer.new) }
    ensures err { OnErr result (BreaksOff M.answers W.contents pending.old bytes.now machine.old machine.new writer.old writer.new) }
    ensures errors { IfErr result (λ e. e ≡ RunFault.Output) }
    ensures limit { line_limit pending.new ≡ line_limit pending.old }
{
    let mut rest = bytes;
    while let Some((front, behind)) = first_part(rest, b'\n') {
        pending.add(front);
        let answer = pending.answer(machine);
        write_all(writer, answer.as_bytes())?;
        rest = behind;
    }
    pending.add(rest);
    Ok(())
}

/// Answers the lines of the reader until its input ends: each whole line by one line, which is written and flushed before the next
/// line is looked at. A line of more than `limit` bytes without its LF is answered `long line`, and its bytes are not kept.
///
/// Errors: `Input` and `Output` only where that device failed; `Memory` after 2^64 - 1 reads. After `Output` the writer has a beginning
/// of the answers, else all of them.
pub fn serve<M: LineMachine, R: Read, W: Write>(
    alloc: Global,
    limit: usize,
    machine: &mut M,
    reader: &mut Watched<R>,
    writer: &mut Watched<W>,
) -> Result<(), RunFault>
    ensures { Serves M.answers limit R.remaining W.contents machine.old machine.new reader.old reader.new writer.old writer.new result }
{
    let mut pending = Pending::new(alloc, limit);
    let mut chunk = [0u8; 4096];
    for _ in 0..u64::MAX {
        match reader.read(&mut chunk) {
            Ok(0) => return Ok(()),
            Ok(n) => answer_bytes(machine, &mut pending, &chunk[..n], writer)?,
            Err(_) => return Err(RunFault::Input),
        }
    }
    Err(RunFault::Memory)
}
