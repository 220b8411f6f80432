//! The steps of a script, carried out one after another.

ghost use Rattle.std.specs.Prelude.{◌≡◌, ◌++◌, ℕ, List, length, All, IfOk, OnOk, string_bytes};
ghost use Rattle.script_text.specs.StepLine.{IsInRange};
ghost use Rattle.fleet_core.specs.Runs.{FollowsStep};
ghost use Rattle.fleet_tool.specs.ScriptSteps.{IsStepOf, AnswersSteps, AnswersStep};

use crate::lines::put_line;
use fleet_core::{Fleet, Reply};
use redo_core::Fact;
use script_steps::Step;
use std::alloc::{AllocError, Global};

/// The step of the fleet that a script's step asks for, with a copy of the fact that it names.
fn step_of(facts: &[Fact], step: Step<usize>) -> Result<Step<Fact>, AllocError>
    requires { IsInRange (length facts.now) step }
    ensures { IfOk result (IsStepOf facts.now step) }
{
    step.naming(|place| facts[place - 1].copy())
}

/// Carries out a step; a take's fact is not copied again.
fn carry_out(fleet: &mut Fleet, step: Step<Fact>) -> Reply
    ensures { FollowsStep fleet.old step result fleet.new }
{
    match step {
        Step::Take { node, fact } => fleet.take(node, fact),
        other => fleet.step(&other),
    }
}

/// Carries out a step, and appends its answer line. Fails where memory runs out, here or in the step.
fn put_answer(
    alloc: Global,
    fleet: &mut Fleet,
    facts: &[Fact],
    step: Step<usize>,
    text: &mut String,
) -> Result<(), AllocError>
    requires { IsInRange (length facts.now) step }
    ensures { OnOk result ((line : List ℕ) × (string_bytes text.new ≡ string_bytes text.old ++ line) × AnswersStep fleet.old facts.now step line fleet.new) }
{
    let asked = step_of(facts, step)?;
    let reply = carry_out(fleet, asked);
    put_line(alloc, step, &reply, text)
}

/// The answer lines of a fleet to steps that take their facts from the list. Keeps no page for an answer: it writes each step's line
/// before the next step. Fails only if memory runs out.
pub(crate) fn answers(
    alloc: Global,
    fleet: &mut Fleet,
    facts: &[Fact],
    steps: &[Step<usize>],
) -> Result<String, AllocError>
    requires { All (IsInRange (length facts.now)) steps.now }
    ensures { IfOk result (λ s. AnswersSteps fleet.old facts.now steps.now (string_bytes s)) }
{
    let mut text = String::new(alloc);
    for step in steps {
        put_answer(alloc, fleet, facts, *step, &mut text)?;
    }
    Ok(text)
}
