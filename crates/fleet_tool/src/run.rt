//! From a reader to a writer.

ghost use Rattle.std.specs.Prelude.{◌≡◌, IfOk, MatchOption, false, string_bytes};
ghost use Rattle.fleet_tool.specs.Explaining.{HasSoundLog, IsTrueReason};
ghost use Rattle.fleet_tool.specs.Inspect.{inspected};
ghost use Rattle.fleet_tool.specs.Output.{IsOutputOf};
ghost use Rattle.fleet_tool.specs.TaskName.{as_text_task};
ghost use Rattle.fleet_tool.specs.declared.job.TextTask.{TextTask};
ghost use Rattle.fleet_tool.specs.TextCall.{IsTextCall};
ghost use Rattle.framing.specs.Watching.{has_failed};

use crate::answer::{Answered, Verdict, answer, last_answer};
use crate::explaining::Reason;
use crate::inspect::{described, joined};
use crate::job::LinesTask;
use framing::devices::{RunFault, Watched, read_all, write_all};
use std::alloc::{AllocError, Global};
use std::io::{Read, Write};
use std::thread::Threads;

/// Reads the whole input, and writes the task's answer to it and nothing else.
fn answer_text<T: Threads + Sync, R: Read, W: Write>(
    rt: &T,
    alloc: Global,
    task: LinesTask,
    reader: &mut Watched<R>,
    writer: &mut Watched<W>,
) -> Result<Verdict, RunFault>
    requires reader { has_failed reader.old ≡ false }
    requires writer { has_failed writer.old ≡ false }
    ensures { IsTextCall R.remaining W.contents (IsOutputOf (as_text_task task)) reader.old reader.new writer.old writer.new result }
{
    let input = read_all(alloc, reader)?;
    let output = answer(rt, alloc, task, input, false)?;
    write_all(writer, output.text.as_bytes())?;
    Ok(output.verdict)
}

/// Answers a script: its first bad line, or the first fault of its log, or the replies of a fleet to its steps.
///
/// Errors: `Input` and `Output` only where that device failed, `Memory`. After `Input` and `Memory` the writer is unchanged;
/// after `Output` it has a prefix of the answer.
pub fn run_text<T: Threads + Sync, R: Read, W: Write>(
    rt: &T,
    alloc: Global,
    reader: &mut Watched<R>,
    writer: &mut Watched<W>,
) -> Result<Verdict, RunFault>
    requires reader { has_failed reader.old ≡ false }
    requires writer { has_failed writer.old ≡ false }
    ensures { IsTextCall R.remaining W.contents (IsOutputOf TextTask.Run) reader.old reader.new writer.old writer.new result }
{
    answer_text(rt, alloc, LinesTask::Run, reader, writer)
}

/// Does the same, or what `check_text` does, for a program that ends with it: what was read stays in memory.
pub(crate) fn last_text<T: Threads + Sync, R: Read, W: Write>(
    rt: &T,
    alloc: Global,
    task: LinesTask,
    reader: &mut Watched<R>,
    writer: &mut Watched<W>,
) -> Result<Verdict, RunFault>
    requires reader { has_failed reader.old ≡ false }
    requires writer { has_failed writer.old ≡ false }
    ensures { IsTextCall R.remaining W.contents (IsOutputOf (as_text_task task)) reader.old reader.new writer.old writer.new result }
{
    let input = read_all(alloc, reader)?;
    let output = last_answer(rt, alloc, task, input)?;
    write_all(writer, output.text.as_bytes())?;
    Ok(output.verdict)
}

/// Answers a log: its first bad line, or its first fault, or the number of its facts.
///
/// Errors as for `run_text`.
pub fn check_text<T: Threads + Sync, R: Read, W: Write>(
    rt: &T,
    alloc: Global,
    reader: &mut Watched<R>,
    writer: &mut Watched<W>,
) -> Result<Verdict, RunFault>
    requires reader { has_failed reader.old ≡ false }
    requires writer { has_failed writer.old ≡ false }
    ensures { IsTextCall R.remaining W.contents (IsOutputOf TextTask.Check) reader.old reader.new writer.old writer.new result }
{
    answer_text(rt, alloc, LinesTask::Check, reader, writer)
}

/// The outcome of an answered script or log, and the reason where its text names a bad line or a fault.
#[derive(Clone, Copy)]
pub struct Explained {
    pub verdict: Verdict,
    pub reason: Option<Reason>,
}

// The task's output for an input, the outcome, and the reason.
fn answer_and_reason<T: Threads + Sync>(
    rt: &T,
    alloc: Global,
    task: LinesTask,
    input: Vec<u8>,
) -> Result<(String, Explained), AllocError>
    ensures { IfOk result (λ p. IsOutputOf (as_text_task task) input.items (string_bytes p.0) p.1.verdict × MatchOption p.1.reason (HasSoundLog task input.items) (IsTrueReason task input.items)) }
{
    let Answered {
        text,
        verdict,
        reason,
    } = answer(rt, alloc, task, input, true)?;
    Ok((text, Explained { verdict, reason }))
}

/// Answers a script or a log as `run_text` and `check_text` do, and returns a true reason where the text names a bad line or a fault.
///
/// Errors as for `run_text`.
pub fn explain_text<T: Threads + Sync, R: Read, W: Write>(
    rt: &T,
    alloc: Global,
    task: LinesTask,
    reader: &mut Watched<R>,
    writer: &mut Watched<W>,
) -> Result<Explained, RunFault>
    requires reader { has_failed reader.old ≡ false }
    requires writer { has_failed writer.old ≡ false }
    ensures { IsTextCall R.remaining W.contents (λ input text e. IsOutputOf (as_text_task task) input text e.verdict × MatchOption e.reason (HasSoundLog task input) (IsTrueReason task input))
        reader.old reader.new writer.old writer.new result }
{
    let input = read_all(alloc, reader)?;
    let (text, explained) = answer_and_reason(rt, alloc, task, input)?;
    write_all(writer, text.as_bytes())?;
    Ok(explained)
}

/// Describes what each line of hexadecimal digits encodes: a fact's line, the counts and points of a summary or a delta, the contents
/// of a piece of a snapshot, the number of the first wire fault, or `bad hex`.
///
/// Errors as for `run_text`.
pub fn inspect_text<T: Threads + Sync, R: Read, W: Write>(
    rt: &T,
    alloc: Global,
    reader: &mut Watched<R>,
    writer: &mut Watched<W>,
) -> Result<(), RunFault>
    requires reader { has_failed reader.old ≡ false }
    requires writer { has_failed writer.old ≡ false }
    ensures { IsTextCall R.remaining W.contents (λ input text done. text ≡ inspected input) reader.old reader.new writer.old writer.new result }
{
    let input = read_all(alloc, reader)?;
    let texts = described(rt, alloc, &input)?;
    // Without the input there is room to join them.
    drop(input);
    let text = joined(alloc, texts)?;
    write_all(writer, text.as_bytes())
}
