//! How a fixture stores the results of calls. Each function is generic: one that has a large value by value proves all that the value
//! is made of.
ghost use Rattle.std.specs.Prelude.{◌≡◌, Ok, IfOk};

use crate::answer::Answer;
use crate::common::in_box;
use redo_core::{RecordFault, Refused, ShapeFault};
use std::alloc::{AllocError, Global};

/// The result in a box.
pub fn boxed<T: Drop>(alloc: Global, made: Result<T, AllocError>) -> Result<Box<T>, AllocError> {
    in_box(alloc, made?)
}

/// Replaces the stored value by the result.
pub fn renew<T: Drop>(kept: &mut T, made: Result<T, AllocError>) -> Result<Answer, AllocError> {
    *kept = made?;
    Ok(Answer::Word("Done"))
}

/// Appends an item to a list, and answers with a word and its number.
pub fn add<T: Drop>(word: &'static str, items: &mut Vec<T>, item: T) -> Result<Answer, AllocError> {
    items.push(item)?;
    Ok(Answer::Numbered(word, items.len() as u64))
}

/// The answer of a call that is done, if memory did not run out.
pub fn done<E: Drop>(outcome: Result<(), E>) -> Result<Answer, AllocError> {
    match outcome {
        Ok(()) => Ok(Answer::Word("Done")),
        Err(_) => Err(AllocError),
    }
}

/// The result, or the fault: the value that was returned with it is dropped.
pub fn or_fault<T, V: Drop, F>(made: Result<T, Refused<V, F>>) -> Result<T, F>
    ensures { IfOk result (λ value. made ≡ Ok value) }
{
    match made {
        Ok(made) => Ok(made),
        Err(refused) => Err(refused.fault),
    }
}

/// The record, or the fault of its shape: what was returned with it is dropped. The only error is an allocation failure.
pub fn or_shape_fault<T, V: Drop>(
    made: Result<T, Refused<V, RecordFault>>,
) -> Result<Result<T, ShapeFault>, AllocError> {
    match or_fault(made) {
        Ok(made) => Ok(Ok(made)),
        Err(RecordFault::Shape(fault)) => Ok(Err(fault)),
        Err(RecordFault::Memory) => Err(AllocError),
    }
}
