//! Whole scripts.

ghost use Rattle.std.specs.Prelude.{◌≡◌, ◌≤◌, ◌+◌, ◌-◌, ◌⊎◌, [], ◌∷◌, length, slice_get, All, Some, IfOk, IfErr};
ghost use Rattle.text.specs.Fields.{fields_in, made_by, read_by};
ghost use Rattle.text.specs.Parts.{parts_at};
ghost use Rattle.script_text.specs.FactLine.{fact_of};
ghost use Rattle.script_text.specs.StepLine.{step_of, IsInRange};
ghost use Rattle.script_text.specs.Script.{lines_from, nodes_from, nodes_form, nodes_in_line, script_from, script_of, facts_of, most, within, with_facts};
ghost use Rattle.script_text.specs.Outcome.{Gives, log_data, script_data, asked_data};
ghost use Rattle.script_text.specs.FormReasons.{IsFormReason, IsReasonBy};
ghost use Rattle.script_text.specs.FactReasons.{IsFactReason};
ghost use Rattle.script_text.specs.LineReasons.{IfBad, ExplainsFact, ExplainsStep};
ghost use Rattle.script_text.specs.TextReasons.{IsBadFact, IsBadNodes, IsBadStep, IsEndReason, IsReasonFrom, IsNodesReason, IsScriptReason, ExplainsScript, ExplainsLog, IsExplained};
ghost use Rattle.script_text.specs.declared.reasons.LineReason.TheVariants.{CarriageReturn};
ghost use Rattle.script_text.specs.declared.reasons.TextReason.TheVariants.{ManyFacts, ManySteps};
ghost use Rattle.script_text.specs.declared.script.ScriptError.TheVariants.{Memory};

use crate::fact_line::fact;
use crate::forms::one;
use crate::opening::read_opening;
use crate::reasons::{FactError, LineReason, TextReason};
use crate::step_line::step;
use redo_core::{Fact, Roster};
use script_steps::Step;
use std::alloc::{AllocError, AllocFailed, Global};
use text::{first_part, is_word};

/// The facts of a log, in the order of their lines, and its roster.
#[derive(Drop)]
pub struct FactLog {
    pub roster: Roster,
    pub facts: Vec<Fact>,
}

/// What a script says: a log, the number of nodes, and steps. A take names its fact by the place in the log, from 1.
#[derive(Drop)]
pub struct Script {
    pub roster: Roster,
    pub facts: Vec<Fact>,
    pub nodes: u16,
    pub steps: Vec<Step<usize>>,
}

/// What a script says below its roster.
#[derive(Drop)]
pub struct ScriptBody {
    pub facts: Vec<Fact>,
    pub nodes: u16,
    pub steps: Vec<Step<usize>>,
}

/// Why a text was not read.
#[derive(Clone, Copy)]
pub enum ScriptError {
    Memory,
    /// The number of the least bad line, from 1, and why it is bad.
    BadLine { at: usize, reason: TextReason },
}

impl From<AllocError> for ScriptError {
    ghost from_gives = { λ _ e. e ≡ Memory };

    fn from(_e: AllocError) -> ScriptError {
        ScriptError::Memory
    }
}

impl<T: Drop> From<AllocFailed<T>> for ScriptError {
    ghost from_gives = { λ _ e. e ≡ Memory };

    fn from(_e: AllocFailed<T>) -> ScriptError {
        ScriptError::Memory
    }
}

/// How many fact lines, and how many step lines, there may be.
pub(crate) const MOST: usize = 1000000;

/// How many nodes there may be.
const MOST_NODES: u64 = 64;

/// The reason, or the CR with which a bad line ends: an editor put it there, and it makes the last field bad.
fn or_return(line: &[u8], reason: LineReason) -> LineReason
    ensures { (result ≡ reason) ⊎ ((result ≡ CarriageReturn) × (slice_get line.now (length line.now - 1) ≡ Some 13)) }
{
    match line {
        [.., b'\r'] => LineReason::CarriageReturn,
        _ => reason,
    }
}

/// The error of the line of this number, which encodes no fact.
#[tactic(auto, using(crate::proofs::LineWords::fact_explained))]
fn bad_fact(at: usize, line: &[u8], error: FactError) -> ScriptError
    requires { IfBad (IsFactReason (parts_at 32 line.now)) error }
    ensures { IsExplained (IsBadFact at line.now) result }
{
    match error {
        FactError::Memory => ScriptError::Memory,
        FactError::Bad(reason) => ScriptError::BadLine {
            at,
            reason: TextReason::Line(or_return(line, reason)),
        },
    }
}

/// The step of the line of this number, for so many facts.
#[tactic(auto, using(crate::proofs::LineWords::step_explained))]
fn step_at(facts: usize, at: usize, line: &[u8]) -> Result<Step<usize>, ScriptError>
    requires { facts ≤ most }
    ensures step { IfOk result (λ s. step_of facts line.now ≡ Some s) }
    ensures reason { IfErr result (IsExplained (IsBadStep facts at line.now)) }
{
    match step(facts, line) {
        Ok(step) => Ok(step),
        Err(reason) => Err(ScriptError::BadLine {
            at,
            reason: TextReason::Line(or_return(line, reason)),
        }),
    }
}

/// The end of a text in which something is missing, with the number of its last line.
fn end_at(at: usize, rest: &[u8], missing: TextReason) -> ScriptError
    ensures { IsExplained (λ stop reason. (stop ≡ at) × IsEndReason missing rest.now reason) result }
{
    let reason = if rest.is_empty() {
        missing
    } else {
        TextReason::NoLineEnd
    };
    ScriptError::BadLine { at, reason }
}

/// Step lines to the end of the text, behind that many facts. The first has the number `at`.
fn steps(
    alloc: Global,
    text: &[u8],
    facts: usize,
    at: usize,
) -> Result<Vec<Step<usize>>, ScriptError>
    requires facts { facts ≤ most }
    requires at { at ≤ most + 4 }
    ensures steps { Gives (λ v. v.items) result (lines_from (step_of facts) 0 at (parts_at 10 text.now)) }
    ensures reason { IfErr result (IsExplained (IsReasonFrom (ExplainsStep facts) ManySteps 0 at (parts_at 10 text.now))) }
{
    let mut steps = Vec::new(alloc);
    let mut rest = text;
    while let Some((line, behind)) = first_part(rest, b'\n') {
        let here = at + steps.len();
        if steps.len() >= MOST {
            return Err(ScriptError::BadLine {
                at: here,
                reason: TextReason::ManySteps,
            });
        }
        match step_at(facts, here, line) {
            Ok(next) => steps.push(next)?,
            Err(error) => return Err(error),
        }
        rest = behind;
    }
    if rest.is_empty() {
        return Ok(steps);
    }
    Err(ScriptError::BadLine {
        at: at + steps.len(),
        reason: TextReason::NoLineEnd,
    })
}

/// The number of nodes that the field behind `nodes` names.
fn count(field: Option<&[u8]>) -> Result<u16, LineReason>
    ensures nodes { IfOk result (λ n. made_by nodes_form (fields_in field.entry) ≡ Some n) }
    ensures reason { IfErr result (IsFormReason nodes_form (fields_in field.entry)) }
{
    let nodes = one(field, MOST_NODES)?;
    if nodes == 0 {
        return Err(LineReason::Zero { at: 2 });
    }
    Ok(nodes as u16)
}

/// The number of nodes of a word, which must be `nodes`, and the field behind it.
fn named_nodes(word: &[u8], field: Option<&[u8]>) -> Result<u16, LineReason>
    ensures nodes { IfOk result (λ n. read_by (nodes_form ∷ []) (word.now ∷ fields_in field.entry) ≡ Some n) }
    ensures reason { IfErr result (IsReasonBy (nodes_form ∷ []) (word.now ∷ fields_in field.entry)) }
{
    if is_word(word, b"nodes") {
        count(field)
    } else {
        Err(LineReason::UnknownWord)
    }
}

/// The number of nodes that a line like `nodes 2` names.
#[tactic(auto, unfolding(crate::specs::Script::nodes_in_line))]
fn nodes(line: &[u8]) -> Result<u16, LineReason>
    ensures nodes { IfOk result (λ n. nodes_in_line line.now ≡ Some n) }
    ensures reason { IfErr result (IsReasonBy (nodes_form ∷ []) (parts_at 32 line.now)) }
{
    match first_part(line, b' ') {
        Some((word, field)) => named_nodes(word, Some(field)),
        None => named_nodes(line, None),
    }
}

/// The same of the line of this number.
#[tactic(auto, using(crate::proofs::LineWords::nodes_explained))]
fn nodes_at(at: usize, line: &[u8]) -> Result<u16, ScriptError>
    ensures nodes { IfOk result (λ n. nodes_in_line line.now ≡ Some n) }
    ensures reason { IfErr result (IsExplained (IsBadNodes at line.now)) }
{
    match nodes(line) {
        Ok(nodes) => Ok(nodes),
        Err(reason) => Err(ScriptError::BadLine {
            at,
            reason: TextReason::Line(or_return(line, reason)),
        }),
    }
}

/// What follows the line `go`: the nodes and the steps.
pub(crate) fn after_go(
    alloc: Global,
    text: &[u8],
    facts: Vec<Fact>,
    at: usize,
) -> Result<ScriptBody, ScriptError>
    requires facts { length facts.items ≤ most }
    requires at { at ≤ most + 3 }
    ensures asked { Gives asked_data result (within (with_facts facts.items) (nodes_from (length facts.items) at (parts_at 10 text.now))) }
    ensures reason { IfErr result (IsExplained (IsNodesReason (length facts.items) at (parts_at 10 text.now))) }
{
    let Some((first, rest)) = first_part(text, b'\n') else {
        return Err(end_at(at, text, TextReason::NoNodes));
    };
    let nodes = match nodes_at(at, first) {
        Ok(nodes) => nodes,
        Err(error) => return Err(error),
    };
    let steps = steps(alloc, rest, facts.len(), at + 1)?;
    Ok(ScriptBody {
        facts,
        nodes,
        steps,
    })
}

/// Fact lines up to `go`, and what follows. The first has the number `at`.
pub(crate) fn script_lines(alloc: Global, text: &[u8], at: usize) -> Result<ScriptBody, ScriptError>
    requires { at ≤ 2 }
    ensures asked { Gives asked_data result (script_from 0 at (parts_at 10 text.now)) }
    ensures reason { IfErr result (IsExplained (IsScriptReason 0 at (parts_at 10 text.now))) }
{
    let mut facts = Vec::new(alloc);
    let mut rest = text;
    while let Some((line, behind)) = first_part(rest, b'\n') {
        let here = at + facts.len();
        if is_word(line, b"go") {
            return after_go(alloc, behind, facts, here + 1);
        }
        if facts.len() >= MOST {
            return Err(ScriptError::BadLine {
                at: here,
                reason: TextReason::ManyFacts,
            });
        }
        match fact(alloc, line) {
            Ok(next) => facts.push(next)?,
            Err(error) => return Err(bad_fact(here, line, error)),
        }
        rest = behind;
    }
    Err(end_at(at + facts.len(), rest, TextReason::NoGo))
}

/// The facts of lines to the end of the text. The first line has the number `at`.
pub(crate) fn facts(alloc: Global, text: &[u8], at: usize) -> Result<Vec<Fact>, ScriptError>
    requires { at ≤ 2 }
    ensures facts { Gives (λ v. v.items) result (lines_from fact_of 0 at (parts_at 10 text.now)) }
    ensures reason { IfErr result (IsExplained (IsReasonFrom ExplainsFact ManyFacts 0 at (parts_at 10 text.now))) }
{
    let mut facts = Vec::new(alloc);
    let mut rest = text;
    while let Some((line, behind)) = first_part(rest, b'\n') {
        let here = at + facts.len();
        if facts.len() >= MOST {
            return Err(ScriptError::BadLine {
                at: here,
                reason: TextReason::ManyFacts,
            });
        }
        match fact(alloc, line) {
            Ok(next) => facts.push(next)?,
            Err(error) => return Err(bad_fact(here, line, error)),
        }
        rest = behind;
    }
    if rest.is_empty() {
        return Ok(facts);
    }
    Err(ScriptError::BadLine {
        at: at + facts.len(),
        reason: TextReason::NoLineEnd,
    })
}

/// The script that the text encodes: a roster or none, fact lines, `go`, a line like `nodes 2`, step lines.
///
/// Errors: `BadLine` with the least bad line and a true reason, and `Memory`.
pub fn read_script(alloc: Global, text: &[u8]) -> Result<Script, ScriptError>
    ensures script { Gives script_data result (script_of text.now) }
    ensures range { IfOk result (λ s. All (IsInRange (length s.facts.items)) s.steps.items) }
    ensures reason { IfErr result (IsExplained (ExplainsScript text.now)) }
{
    let opening = read_opening(text);
    let ScriptBody {
        facts,
        nodes,
        steps,
    } = script_lines(alloc, opening.rest, opening.lines + 1)?;
    Ok(Script {
        roster: opening.roster,
        facts,
        nodes,
        steps,
    })
}

/// The log that the text encodes: a roster or none, and fact lines.
///
/// Errors: as for `read_script`.
pub fn read_facts(alloc: Global, text: &[u8]) -> Result<FactLog, ScriptError>
    ensures log { Gives log_data result (facts_of text.now) }
    ensures reason { IfErr result (IsExplained (ExplainsLog text.now)) }
{
    let opening = read_opening(text);
    let facts = facts(alloc, opening.rest, opening.lines + 1)?;
    Ok(FactLog {
        roster: opening.roster,
        facts,
    })
}
