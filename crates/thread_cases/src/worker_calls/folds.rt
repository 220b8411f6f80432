use crate::Log;
use crate::worker_calls::rounds::early_at_the_first;
use case_io::{Row, first_number};
use node_cell::{FoldPlan, Folded, Node};
use node_threads::fold_many;
use std::alloc::{AllocError, Global};
use std::io;
use std::sync::Wait;
use std::thread::Threads;

const PAGES: u16 = 8;

fn plans_of<R: Wait>(
    rt: &R,
    alloc: Global,
    node: &Node<Log>,
) -> Result<Vec<FoldPlan<Log>>, AllocError> {
    let mut plans = Vec::with_capacity(alloc, 8)?;
    for page in 0..PAGES {
        plans.push(node.fold_plan(rt, page)?)?;
    }
    Ok(plans)
}

/// Prints the folds of the pages of a node with the early facts, made by many threads.
pub fn print_folds<R: Threads + Wait + Sync>(rt: &R, row: &Row) -> io::Result<()> {
    let worked = early_at_the_first(rt, row.alloc, 1)?;
    match worked.nodes.first() {
        Some(node) => print_folds_of(rt, row, node),
        None => row.unknown(),
    }
}

fn print_folds_of<R: Threads + Wait + Sync>(rt: &R, row: &Row, node: &Node<Log>) -> io::Result<()> {
    let plans = plans_of(rt, row.alloc, node)?;
    match fold_many(rt, row.alloc, plans) {
        Ok(folds) => print_each(row, folds.as_slice()),
        Err(_) => Err(AllocError.into()),
    }
}

// Prints of each page its number, its version, and the number that it begins with.
fn print_each(row: &Row, folds: &[Folded<Log>]) -> io::Result<()> {
    for folded in folds {
        let begins = first_number(folded.image().bytes());
        row.parts("Fold", &(folded.page(), folded.version(), begins))?;
    }
    Ok(())
}
