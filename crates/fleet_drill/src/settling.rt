ghost use Rattle.std.specs.Prelude.{◌≡◌, ◌+◌, ◌<◌, ◌++◌, ◌∷◌, [], Some, is_some, true, length, map, OnOk, IfOk};
ghost use Rattle.node_cell.specs.Node.{IsPassOf};
ghost use Rattle.node_threads.specs.Refusals.{AllStarted};
ghost use Rattle.node_threads.specs.Work.{receipts_in};

use crate::working::DrillResult;
use named_log::LogName;
use node_cell::laws::receipts_stand;
use node_cell::{AbsorbFault, Closed, DeliverFault, Node, Pass, Receipt, settle};
use node_threads::{DeliverResult, Inlet, WorkerRefusal};
use segment_core::CommitFault;
use std::alloc::{AllocError, Global};
use std::sync::Wait;

/// Closes each node with its pass, in order, and settles its receipts. An error is lack of memory, or of a thread, also of a worker
/// before: the nodes are then gone.
pub fn close_all<L: LogName, R: Wait>(
    rt: &R,
    alloc: Global,
    mut worked: DrillResult<L>,
) -> Result<Vec<Closed<L>>, AllocError>
    ensures { IfOk result (λ closed. length closed.items ≡ length worked.nodes.items) }
{
    let mut closed = Vec::with_capacity(alloc, worked.nodes.len())?;
    close_each(rt, alloc, &mut worked, &mut closed)?;
    closed.as_mut_slice().reverse();
    Ok(closed)
}

// Closes the nodes, the last first. They are borrowed: a path without memory then has nothing to drop here.
fn close_each<L: LogName, R: Wait>(
    rt: &R,
    alloc: Global,
    worked: &mut DrillResult<L>,
    closed: &mut Vec<Closed<L>>,
) -> Result<(), AllocError>
    ensures { OnOk result (length closed.new.items ≡ length closed.old.items + length worked.old.nodes.items) }
{
    had_memory(worked.refusals.as_slice())?;
    while !worked.nodes.is_empty() {
        close_last(rt, alloc, worked, closed)?;
    }
    Ok(())
}

fn close_last<L: LogName, R: Wait>(
    rt: &R,
    alloc: Global,
    worked: &mut DrillResult<L>,
    closed: &mut Vec<Closed<L>>,
) -> Result<(), AllocError>
    requires started { AllStarted worked.old.refusals.items }
    requires left { 0 < length worked.old.nodes.items }
    ensures refusals { worked.new.refusals ≡ worked.old.refusals }
    ensures left { OnOk result (length worked.old.nodes.items ≡ length worked.new.nodes.items + 1) }
    ensures closed { OnOk result (length closed.new.items ≡ length closed.old.items + 1) }
{
    closed.reserve(1)?;
    let list = take_last(&mut worked.answers);
    let back = take_last(&mut worked.inlets);
    let node = take_last(&mut worked.nodes);
    let pass = pass_of(back);
    closed.push_reserved(close_one(rt, alloc, node, pass, list)?);
    Ok(())
}

fn take_last<T: Drop>(items: &mut Vec<T>) -> T
    requires { 0 < length items.old.items }
    ensures { items.old.items ≡ items.new.items ++ result ∷ [] }
{
    match items.pop() {
        Some(item) => item,
        None => unreachable!(),
    }
}

// The pass of an inlet that came back.
fn pass_of<L: LogName>(back: Option<Inlet<L>>) -> Pass<L>
    requires { is_some back ≡ true }
    ensures { (i : _) × (back ≡ Some i) × (result ≡ i.pass) }
{
    match back {
        Some(inlet) => inlet.pass,
        None => unreachable!(),
    }
}

// An error where a worker could not be started, or lacked memory.
fn had_memory(refusals: &[WorkerRefusal]) -> Result<(), AllocError>
    ensures { OnOk result (AllStarted refusals.now) }
{
    for refusal in refusals {
        match refusal {
            WorkerRefusal::NotStarted { .. } => return Err(AllocError),
            WorkerRefusal::Memory { .. } => return Err(AllocError),
            WorkerRefusal::Commit {
                fault: CommitFault::Memory,
                ..
            } => return Err(AllocError),
            WorkerRefusal::Absorb {
                fault: AbsorbFault::Memory,
                ..
            } => return Err(AllocError),
            _ => {}
        }
    }
    Ok(())
}

fn close_one<L: LogName, R: Wait>(
    rt: &R,
    alloc: Global,
    node: Node<L>,
    pass: Pass<L>,
    answers: Vec<DeliverResult<L>>,
) -> Result<Closed<L>, AllocError>
    requires pass { IsPassOf node pass }
    requires list { pass.list ≡ receipts_in answers.items }
{
    let receipts = receipts_of(alloc, answers)?;
    let passes = Vec::from_array(alloc, [pass])?;
    let closed = node.close(rt, passes);
    receipts_stand();
    match settle(&closed, receipts.as_slice()) {
        Ok(()) => Ok(closed),
        Err(_) => unreachable!(),
    }
}

fn receipts_of<L: LogName>(
    alloc: Global,
    answers: Vec<DeliverResult<L>>,
) -> Result<Vec<Receipt<L>>, AllocError>
    ensures { IfOk result (λ rs. map (λ r. (r.place, r.log_place)) rs.items ≡ receipts_in answers.items) }
{
    let mut receipts = Vec::with_capacity(alloc, answers.len())?;
    for answer in answers {
        match answer {
            Ok(receipt) => receipts.push(receipt)?,
            Err(refused) => {
                if refused.fault == DeliverFault::Memory {
                    return Err(AllocError);
                }
            }
        }
    }
    Ok(receipts)
}
