//! The calls of a writer.

use crate::answer::Answer;
use crate::fact_calls::model::checked;
use crate::keeping::or_fault;
use case_io::Row;
use log_law::{Writer, WriterFault};
use redo_core::{Fact, Roster};
use script_text::fact_text;
use std::alloc::AllocError;

fn append(writer: &mut Writer, row: &Row) -> Result<Fact, WriterFault> {
    let written = writer.append(row.number(0), row.short(1), Vec::new(row.alloc));
    or_fault(written).map(Fact::Record)
}

// What a call wrote, or why it was refused.
fn called(writer: &mut Writer, row: &Row) -> Result<Fact, WriterFault> {
    match row.name {
        "append" => append(writer, row),
        "recover" => writer.recover(row.number(0), row.number(1)).map(Fact::Cut),
        "advance" => writer.advance(row.number(0)).map(Fact::Advance),
        _ => writer
            .advance_of(row.byte(0), row.number(1))
            .map(Fact::Advance),
    }
}

// How many facts were written, and whether they are a sound log.
fn written(writer: &Writer, roster: Roster, row: &Row) -> Result<Answer, AllocError> {
    let fault = checked(row.alloc, writer.log(), roster)?;
    Answer::parts(row.alloc, "Written", &(writer.log().len(), fault.is_none()))
}

fn begin_anew(writer: &mut Writer, roster: Roster, row: &Row) -> Result<Answer, AllocError> {
    *writer = Writer::new(row.alloc, roster)?;
    written(writer, roster, row)
}

fn of_roster(writer: &mut Writer, row: &Row) -> Result<Answer, AllocError> {
    match Roster::new(row.byte(0)) {
        Ok(roster) if row.name == "new" => begin_anew(writer, roster, row),
        Ok(roster) => written(writer, roster, row),
        Err(_) => Ok(Answer::Unknown),
    }
}

fn told(row: &Row, written: Result<Fact, WriterFault>) -> Result<Answer, AllocError> {
    match written {
        Ok(fact) => fact_text(row.alloc, &fact).map(Answer::Text),
        Err(WriterFault::Memory) => Err(AllocError),
        Err(fault) => fault.to_string(row.alloc).map(Answer::Text),
    }
}

/// The answer of a call of the writer.
pub fn answer(writer: &mut Writer, row: &Row) -> Result<Answer, AllocError> {
    match row.name {
        "new" | "log" => of_roster(writer, row),
        _ => told(row, called(writer, row)),
    }
}
