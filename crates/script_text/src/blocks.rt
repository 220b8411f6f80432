//! Logs and scripts whose fact lines several threads read, each a block of whole lines.

ghost use Rattle.std.specs.Prelude.{◌≡◌, ◌≤◌, ◌+◌, ◌++◌, [], ◌∷◌, length, codes, List, ℕ, All, IfOk, IfErr, IfSome, IsTrue};
ghost use Rattle.std.specs.Thread.{IsSync};
ghost use Rattle.text.specs.Parts.{parts_at};
ghost use Rattle.script_text.specs.ScriptParts.{IsEnded, IsRoundGo};
ghost use Rattle.script_text.specs.FactLine.{fact_of};
ghost use Rattle.script_text.specs.StepLine.{IsInRange};
ghost use Rattle.script_text.specs.Script.{lines_from, script_from, script_of, facts_of, most};
ghost use Rattle.script_text.specs.Outcome.{Gives, Fails, log_data, script_data, asked_data};
ghost use Rattle.script_text.specs.LineReasons.{ExplainsFact};
ghost use Rattle.script_text.specs.TextReasons.{IsReasonFrom, IsScriptReason, ExplainsScript, ExplainsLog, IsExplained};
ghost use Rattle.script_text.specs.declared.reasons.TextReason.TheVariants.{ManyFacts};

use crate::opening::read_opening;
use crate::reasons::TextReason;
use crate::script::{
    FactLog, MOST, Script, ScriptBody, ScriptError, after_go, facts, script_lines,
};
use rayon::{current_num_threads, join};
use redo_core::Fact;
use std::alloc::Global;
use std::thread::Threads;
use text::{first_part, split_after};

/// How many bytes of a text are a thread's at least: fewer are read sooner than a thread is started.
const LEAST_BLOCK: usize = 2097152;

/// How many threads are to read the text: as many as there are processors where it is long.
fn threads_for<R: Threads>(rt: &R, text: &[u8]) -> usize {
    current_num_threads(rt).min(text.len() / LEAST_BLOCK)
}

/// The error of lines after so many others, from their error as the first lines: the bad line has a greater number, unless the first
/// line past the limit is before it.
fn moved_error(at: usize, before: usize, error: ScriptError) -> ScriptError
    requires before { before ≤ most }
    requires at { at ≤ 2 }
    ensures fails { (parts : List (List ℕ)) → Fails error (lines_from fact_of 0 at parts) → Fails result (lines_from fact_of before (at + before) parts) }
    ensures reason { (parts : List (List ℕ)) → Fails error (lines_from fact_of 0 at parts)
        → IsExplained (IsReasonFrom ExplainsFact ManyFacts 0 at parts) error → IsExplained (IsReasonFrom ExplainsFact ManyFacts before (at + before) parts) result }
{
    match error {
        ScriptError::Memory => ScriptError::Memory,
        ScriptError::BadLine { at: stop, reason } => {
            let last = at + (MOST - before);
            if stop > last {
                return ScriptError::BadLine {
                    at: at + MOST,
                    reason: TextReason::ManyFacts,
                };
            }
            ScriptError::BadLine {
                at: stop + before,
                reason,
            }
        }
    }
}

/// The facts of lines after so many others, or their error, from what was read of them as the first lines.
fn moved(
    at: usize,
    before: usize,
    read: Result<Vec<Fact>, ScriptError>,
) -> Result<Vec<Fact>, ScriptError>
    requires before { before ≤ most }
    requires at { at ≤ 2 }
    ensures facts { (parts : List (List ℕ)) → Gives (λ v. v.items) read (lines_from fact_of 0 at parts)
        → Gives (λ v. v.items) result (lines_from fact_of before (at + before) parts) }
    ensures reason { (parts : List (List ℕ)) → Gives (λ v. v.items) read (lines_from fact_of 0 at parts)
        → IfErr read (IsExplained (IsReasonFrom ExplainsFact ManyFacts 0 at parts)) → IfErr result (IsExplained (IsReasonFrom ExplainsFact ManyFacts before (at + before) parts)) }
{
    match read {
        Ok(facts) => {
            let room = MOST - before;
            if facts.len() > room {
                return Err(ScriptError::BadLine {
                    at: at + MOST,
                    reason: TextReason::ManyFacts,
                });
            }
            Ok(facts)
        }
        Err(error) => Err(moved_error(at, before, error)),
    }
}

/// The facts of lines to the end of the text, as `facts` reads them, by so many threads, each of which reads a block of whole lines.
#[cycle(blocks)]
fn facts_in_blocks<R: Threads + Sync>(
    rt: &R,
    alloc: Global,
    text: &[u8],
    threads: usize,
    at: usize,
) -> Result<Vec<Fact>, ScriptError>
    requires { at ≤ 2 }
    ensures facts { Gives (λ v. v.items) result (lines_from fact_of 0 at (parts_at 10 text.now)) }
    ensures reason { IfErr result (IsExplained (IsReasonFrom ExplainsFact ManyFacts 0 at (parts_at 10 text.now))) }
{
    if threads < 2 {
        return facts(alloc, text, at);
    }
    let low = threads / 2;
    let high = threads - low;
    let Some((first, second)) = split_after(text, b'\n', text.len() / threads * low) else {
        return facts(alloc, text, at);
    };
    let front = || -> Result<Vec<Fact>, ScriptError>
        requires sync { IsSync R.row }
        requires at { at ≤ 2 }
        ensures facts { Gives (λ v. v.items) result (lines_from fact_of 0 at (parts_at 10 first.entry.now)) }
        ensures reason { IfErr result (IsExplained (IsReasonFrom ExplainsFact ManyFacts 0 at (parts_at 10 first.entry.now))) }
    { facts_in_blocks(rt, alloc, first, low, at) };
    let back = || -> Result<Vec<Fact>, ScriptError>
        requires sync { IsSync R.row }
        requires at { at ≤ 2 }
        ensures facts { Gives (λ v. v.items) result (lines_from fact_of 0 at (parts_at 10 second.entry.now)) }
        ensures reason { IfErr result (IsExplained (IsReasonFrom ExplainsFact ManyFacts 0 at (parts_at 10 second.entry.now))) }
    { facts_in_blocks(rt, alloc, second, high, at) };
    let (read, more) = join(rt, front, back);
    let mut read = read?;
    let mut more = moved(at, read.len(), more)?;
    read.append(&mut more)?;
    Ok(read)
}

/// The log that the text encodes, as `read_facts` reads it, by as many threads as there are processors where it is long.
///
/// Errors: as for `read_script`.
pub fn read_facts_by<R: Threads + Sync>(
    rt: &R,
    alloc: Global,
    text: &[u8],
) -> Result<FactLog, ScriptError>
    ensures log { Gives log_data result (facts_of text.now) }
    ensures reason { IfErr result (IsExplained (ExplainsLog text.now)) }
{
    let opening = read_opening(text);
    let threads = threads_for(rt, opening.rest);
    let facts = facts_in_blocks(rt, alloc, opening.rest, threads, opening.lines + 1)?;
    Ok(FactLog {
        roster: opening.roster,
        facts,
    })
}

/// Whether the text is empty, or ends with a line.
fn is_ended(text: &[u8]) -> bool
    ensures { IsTrue result → IsEnded text.now }
{
    match text {
        [] => true,
        [_before @ .., b'\n'] => true,
        _ => false,
    }
}

/// The text after the rest of a line whose `g` is before the text: an `o` and the LF.
fn after_o(text: &[u8]) -> Option<&[u8]>
    ensures { IfSome result (λ after. text.now ≡ codes "o\n" ++ after.now) }
{
    match text {
        [b'o', b'\n', after @ ..] => Some(after),
        _ => None,
    }
}

/// The text before the line `go` and the text after it, where the line has the first `g` of the text: no fact line has one.
fn round_go(text: &[u8]) -> Option<(&[u8], &[u8])>
    ensures { IfSome result (λ p. IsRoundGo text.now p.0.now p.1.now) }
{
    let (before, behind) = first_part(text, b'g')?;
    if !is_ended(before) {
        return None;
    }
    let after = after_o(behind)?;
    Some((before, after))
}

/// Fact lines up to `go`, and what follows, as `script_lines` reads them, by several threads where the text is long.
fn script_in_blocks<R: Threads + Sync>(
    rt: &R,
    alloc: Global,
    text: &[u8],
    at: usize,
) -> Result<ScriptBody, ScriptError>
    requires { at ≤ 2 }
    ensures asked { Gives asked_data result (script_from 0 at (parts_at 10 text.now)) }
    ensures reason { IfErr result (IsExplained (IsScriptReason 0 at (parts_at 10 text.now))) }
{
    if threads_for(rt, text) < 2 {
        return script_lines(alloc, text, at);
    }
    // A text with another `g` before that of `go` has a bad line, and one thread finds it.
    let Some((before, behind)) = round_go(text) else {
        return script_lines(alloc, text, at);
    };
    let threads = threads_for(rt, before);
    let facts = facts_in_blocks(rt, alloc, before, threads, at)?;
    let here = at + facts.len() + 1;
    after_go(alloc, behind, facts, here)
}

/// The script that the text encodes, as `read_script` reads it, by as many threads as there are processors where its facts are long.
///
/// Errors: as for `read_script`.
pub fn read_script_by<R: Threads + Sync>(
    rt: &R,
    alloc: Global,
    text: &[u8],
) -> Result<Script, ScriptError>
    ensures script { Gives script_data result (script_of text.now) }
    ensures range { IfOk result (λ s. All (IsInRange (length s.facts.items)) s.steps.items) }
    ensures reason { IfErr result (IsExplained (ExplainsScript text.now)) }
{
    let opening = read_opening(text);
    let ScriptBody {
        facts,
        nodes,
        steps,
    } = script_in_blocks(rt, alloc, opening.rest, opening.lines + 1)?;
    Ok(Script {
        roster: opening.roster,
        facts,
        nodes,
        steps,
    })
}
