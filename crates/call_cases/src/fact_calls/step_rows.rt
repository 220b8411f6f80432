//! Parsed step lines: what the step is, which nodes it names, and which of them a fleet lacks.

use crate::answer::Answer;
use case_io::{Row, byte, number};
use script_steps::Step;
use script_text::{ScriptError, read_script};
use std::alloc::AllocError;

/// Four facts, and the opening of the steps.
const OPENING: &str = "min 0 1\nmin 0 2\nmin 0 3\nmin 0 4\ngo\nnodes 64\n";

const LETTERS: [&str; 3] = ["a", "b", "c"];

// The letter at an index, from 0; the error is an index without one.
fn letter(place: usize) -> Result<&'static str, usize> {
    match LETTERS.get(place) {
        Some(letter) => Ok(*letter),
        None => Err(place),
    }
}

// A step, the node and the other node that it names, which of them a fleet of so many nodes lacks, and the step with a letter for its
// fact.
fn told(row: &Row, step: Step<usize>, nodes: u8) -> Result<Answer, AllocError> {
    let (node, other) = (step.node(), step.other());
    let (missing, named) = (step.missing(usize::from(nodes)), step.naming(letter));
    Answer::parts(row.alloc, "Step", &(step, node, other, missing, named))
}

fn of_steps(row: &Row, steps: &[Step<usize>]) -> Result<Answer, AllocError> {
    match steps {
        [step] => told(row, *step, byte(number(row.name, 0))),
        _ => Ok(Answer::Unknown),
    }
}

/// The answer of a test case whose name is the fleet's number of nodes, and whose words are the step.
pub fn answer(row: &Row) -> Result<Answer, AllocError> {
    let line = row.words;
    let text = format!(in row.alloc; "{OPENING}{line}\n")?;
    match read_script(row.alloc, text.as_bytes()) {
        Ok(script) => of_steps(row, &script.steps),
        Err(ScriptError::BadLine { at, .. }) => Ok(Answer::Numbered("BadLine", at as u64)),
        Err(ScriptError::Memory) => Err(AllocError),
    }
}
