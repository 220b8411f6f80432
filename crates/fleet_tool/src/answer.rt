//! The output text for an input.

ghost use Rattle.std.specs.Prelude.{◌≡◌, ◌++◌, ℕ, List, IfOk, IfErr, MatchOption, length, All, true, Some, None, codes, string_bytes};
ghost use Rattle.std.specs.Fmt.{decimal};
ghost use Rattle.redo_core.specs.Sound.{IsSound};
ghost use Rattle.redo_core.specs.declared.facts.Fact.{Fact};
ghost use Rattle.log_law.specs.Report.{Reports};
ghost use Rattle.script_text.specs.StepLine.{IsInRange};
ghost use Rattle.script_text.specs.Script.{script_of, facts_of};
ghost use Rattle.script_text.specs.Outcome.{Gives, log_data, script_data};
ghost use Rattle.script_text.specs.TextReasons.{ExplainsScript, ExplainsLog, IsExplained};
ghost use Rattle.fleet_tool.specs.declared.explaining.Reason.TheVariants.{BadLine};
ghost use Rattle.fleet_tool.specs.Explaining.{HasSoundLog, IsTrueReason};
ghost use Rattle.fleet_tool.specs.TaskName.{as_text_task};
ghost use Rattle.fleet_tool.specs.Output.{SaysBadLine, SaysUnsound, SaysReplies, IsRunOutput, IsCheckOutput, IsOutputOf};

use crate::explaining::{Reason, fault_reason};
use crate::job::LinesTask;
use crate::placed_steps::answers;
use fleet_core::Fleet;
use log_law::{CheckFault, check_log};
use redo_core::LawFault;
use script_text::{FactLog, Script, ScriptError, TextReason, read_facts_by, read_script_by};
use std::alloc::{AllocError, Global};
use std::mem::forget;
use std::thread::Threads;
use text::worded_line;

/// The outcome of an answered input, apart from its text.
#[derive(Clone, Copy)]
pub enum Verdict {
    Done,
    /// The text names a bad line.
    BadLine,
    /// The text names the first fault of a log that is not sound.
    Unsound,
}

/// The text to write, the outcome, and the reason of a bad line or a fault, where it was sought.
#[derive(Drop)]
pub struct Answered {
    pub text: String,
    pub verdict: Verdict,
    pub reason: Option<Reason>,
}

fn bad_line(alloc: Global, at: usize, reason: TextReason) -> Result<Answered, AllocError>
    ensures says { IfOk result (λ a. SaysBadLine at (string_bytes a.text) a.verdict) }
    ensures reason { IfOk result (λ a. a.reason ≡ Some (BadLine at reason)) }
{
    Ok(Answered {
        text: worded_line(alloc, "bad line", &[at as u64])?,
        verdict: Verdict::BadLine,
        reason: Some(Reason::BadLine { at, reason }),
    })
}

fn unsound(alloc: Global, fault: LawFault, reason: Option<Reason>) -> Result<Answered, AllocError>
    ensures says { (roster : ℕ) (facts : List Fact) → Reports roster facts fault → IfOk result (λ a. SaysUnsound roster facts (string_bytes a.text) a.verdict) }
    ensures reason { IfOk result (λ a. a.reason ≡ reason) }
{
    let place = fault.place;
    let number = fault.law.number();
    let text = format!(in alloc; "unsound {place} law {number}\n")?;
    Ok(Answered {
        text,
        verdict: Verdict::Unsound,
        reason,
    })
}

/// What becomes of a script, its fleet or a log after the answer.
#[derive(Clone, Copy)]
enum Remains {
    Dropped,
    /// They stay in memory, for a program that ends with this answer: to free each record takes long, and the system frees all at once.
    Forgotten,
}

impl Remains {
    fn leave<T: Drop>(self, value: T) {
        match self {
            Remains::Dropped => drop(value),
            Remains::Forgotten => forget(value),
        }
    }
}

/// The replies of a fleet with the script's number of nodes.
fn replies(alloc: Global, script: Script, remains: Remains) -> Result<Answered, AllocError>
    requires sound { IsSound script.roster script.facts.items }
    requires range { All (IsInRange (length script.facts.items)) script.steps.items }
    ensures says { let read = script_data script in IfOk result (λ a. SaysReplies read.roster read.said (string_bytes a.text) a.verdict) }
    ensures reason { IfOk result (λ a. a.reason ≡ None) }
{
    let mut fleet = Fleet::new(alloc, script.roster, script.nodes)?;
    let text = answers(alloc, &mut fleet, &script.facts, &script.steps)?;
    remains.leave(fleet);
    remains.leave(script);
    Ok(Answered {
        text,
        verdict: Verdict::Done,
        reason: None,
    })
}

// The script that a text encodes. Drops the text: a long one takes as much memory as its script.
fn script_in<R: Threads + Sync>(rt: &R, alloc: Global, text: Vec<u8>) -> Result<Script, ScriptError>
    ensures script { Gives script_data result (script_of text.items) }
    ensures range { IfOk result (λ s. All (IsInRange (length s.facts.items)) s.steps.items) }
    ensures reason { IfErr result (IsExplained (ExplainsScript text.items)) }
{
    read_script_by(rt, alloc, &text)
}

// The log that a text encodes. Drops the text too.
fn log_in<R: Threads + Sync>(rt: &R, alloc: Global, text: Vec<u8>) -> Result<FactLog, ScriptError>
    ensures log { Gives log_data result (facts_of text.items) }
    ensures reason { IfErr result (IsExplained (ExplainsLog text.items)) }
{
    read_facts_by(rt, alloc, &text)
}

// The answer to a script; and the reason of a bad line or a fault, if it is sought.
fn answer_script<R: Threads + Sync>(
    rt: &R,
    alloc: Global,
    input: Vec<u8>,
    explains: bool,
    remains: Remains,
) -> Result<Answered, AllocError>
    ensures output { IfOk result (λ a. IsRunOutput (script_of input.items) (string_bytes a.text) a.verdict) }
    ensures reason { explains ≡ true → IfOk result (λ a. MatchOption a.reason (HasSoundLog LinesTask.Run input.items) (IsTrueReason LinesTask.Run input.items)) }
{
    match script_in(rt, alloc, input) {
        Err(ScriptError::Memory) => Err(AllocError),
        Err(ScriptError::BadLine { at, reason }) => bad_line(alloc, at, reason),
        Ok(script) => match check_log(alloc, &script.facts, script.roster) {
            Err(CheckFault::Memory) => Err(AllocError),
            Err(CheckFault::Unsound(fault)) => {
                let reason = fault_reason(alloc, explains, &script.facts, script.roster, fault)?;
                unsound(alloc, fault, reason)
            }
            Ok(()) => replies(alloc, script, remains),
        },
    }
}

fn count(alloc: Global, facts: usize) -> Result<Answered, AllocError>
    ensures text { IfOk result (λ a. string_bytes a.text ≡ codes "sound " ++ (decimal facts ++ codes "\n")) }
    ensures verdict { IfOk result (λ a. a.verdict ≡ Verdict.Done) }
    ensures reason { IfOk result (λ a. a.reason ≡ None) }
{
    Ok(Answered {
        text: worded_line(alloc, "sound", &[facts as u64])?,
        verdict: Verdict::Done,
        reason: None,
    })
}

// The same for fact lines alone.
fn answer_facts<R: Threads + Sync>(
    rt: &R,
    alloc: Global,
    input: Vec<u8>,
    explains: bool,
    remains: Remains,
) -> Result<Answered, AllocError>
    ensures output { IfOk result (λ a. IsCheckOutput (facts_of input.items) (string_bytes a.text) a.verdict) }
    ensures reason { explains ≡ true → IfOk result (λ a. MatchOption a.reason (HasSoundLog LinesTask.Check input.items) (IsTrueReason LinesTask.Check input.items)) }
{
    match log_in(rt, alloc, input) {
        Err(ScriptError::Memory) => Err(AllocError),
        Err(ScriptError::BadLine { at, reason }) => bad_line(alloc, at, reason),
        Ok(log) => match check_log(alloc, &log.facts, log.roster) {
            Err(CheckFault::Memory) => Err(AllocError),
            Err(CheckFault::Unsound(fault)) => {
                let reason = fault_reason(alloc, explains, &log.facts, log.roster, fault)?;
                unsound(alloc, fault, reason)
            }
            Ok(()) => {
                let facts = log.facts.len();
                remains.leave(log);
                count(alloc, facts)
            }
        },
    }
}

/// The task's output for an input; and the reason of a bad line or a fault, if it is sought. Fails only if memory runs out.
pub fn answer<R: Threads + Sync>(
    rt: &R,
    alloc: Global,
    task: LinesTask,
    input: Vec<u8>,
    explains: bool,
) -> Result<Answered, AllocError>
    ensures output { IfOk result (λ a. IsOutputOf (as_text_task task) input.items (string_bytes a.text) a.verdict) }
    ensures reason { explains ≡ true → IfOk result (λ a. MatchOption a.reason (HasSoundLog task input.items) (IsTrueReason task input.items)) }
{
    match task {
        LinesTask::Run => answer_script(rt, alloc, input, explains, Remains::Dropped),
        LinesTask::Check => answer_facts(rt, alloc, input, explains, Remains::Dropped),
    }
}

/// The task's output for an input, where the program ends with it. Fails only if memory runs out.
pub(crate) fn last_answer<R: Threads + Sync>(
    rt: &R,
    alloc: Global,
    task: LinesTask,
    input: Vec<u8>,
) -> Result<Answered, AllocError>
    ensures { IfOk result (λ a. IsOutputOf (as_text_task task) input.items (string_bytes a.text) a.verdict) }
{
    match task {
        LinesTask::Run => answer_script(rt, alloc, input, false, Remains::Forgotten),
        LinesTask::Check => answer_facts(rt, alloc, input, false, Remains::Forgotten),
    }
}
