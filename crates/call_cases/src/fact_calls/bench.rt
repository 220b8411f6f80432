use crate::answer::Answer;
use crate::fact_calls::{bodies, drills, model, shapes, step_rows, wire, writing};
use crate::given::keep_fact;
use case_io::Row;
use log_law::Writer;
use redo_core::{Fact, Roster};
use std::alloc::{AllocError, Global};

/// The state that the lines so far have made: facts, and a writer.
#[derive(Drop)]
pub struct Fixture {
    facts: Vec<Fact>,
    writer: Writer,
}

/// No facts, and a new writer of the roster.
pub fn new_bench(alloc: Global, roster: Roster) -> Result<Fixture, AllocError> {
    Ok(Fixture {
        facts: Vec::new(alloc),
        writer: Writer::new(alloc, roster)?,
    })
}

/// The answer of a test case.
pub fn answer(bench: &mut Fixture, row: &Row) -> Result<Answer, AllocError> {
    let call = &row.behind();
    match row.name {
        "clear" => {
            bench.facts.clear();
            Ok(Answer::Word("Cleared"))
        }
        "make" => shapes::answer(call),
        "write" => writing::answer(&mut bench.writer, call),
        "wire" => wire::answer(call),
        "kept" => bodies::answer(&bench.facts, call),
        "model" => model::answer(&bench.facts, call),
        "drill" => drills::answer(row),
        "step" => step_rows::answer(call),
        _ => keep_fact(row.alloc, &mut bench.facts, row.line),
    }
}
