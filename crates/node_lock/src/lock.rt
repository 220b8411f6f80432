ghost use Rattle.std.specs.Prelude.{◌≡◌, ◌<◌, ◌≤◌, [], map, length, IfOk, IfErr, Some, None};
ghost use Rattle.node_lock.specs.Trail.{receipts_of, HasReceipts};
ghost use Rattle.node_lock.specs.Passes.{IsIdlePass, AreIdle, AreNew, AreTrue, receipt_count};
ghost use Rattle.node_lock.specs.Turn.{found_by_turn};
ghost use Rattle.node_lock.specs.Visit.{taken_by, found_by_visit, lock_of_visit};
ghost use Rattle.node_lock.specs.Known.{standing_for, new_parts, part_of};

use crate::final_state::FinalState;
use crate::held::Held;
use crate::pass::Pass;
use crate::rule::{StateTable, Steps, Token, Trailed};
use crate::sleepers::Sleepers;
use crate::steps;
use crate::turn::Turn;
use crate::visit::Visit;
use atomic_table::Table;
use redo_core::Refused;
use std::alloc::{AllocError, Global};
use std::marker::Model;
use std::snapshot::Snapshot;
use std::sync::Wait;

/// The most passes of a lock.
pub const MAX_PASSES: u64 = 64;

/// A lock round a state. Contracts see which lock it is, and with how many passes it was opened.
#[derive(Drop)]
pub struct Lock<S: Trailed + Drop> {
    pub(crate) table: StateTable<S>,
    pub(crate) sleepers: Sleepers,
}

impl<S: Trailed + Drop> Model for Lock<S> {
    ghost use Rattle.std.specs.Prelude.{◌≡◌, ◌<◌};
    ghost use Rattle.node_lock.specs.Passes.{LockData};

    ghost Value = { LockData };

    ghost view = { λ l. record { id = l.table.shared.table_id; passes = l.table.shared.key } };

    ghost invariant = { λ l. (l.table.shared.table_id.words ≡ 1) × (l.table.shared.table_id.slots ≡ 1) × (0 < l.table.shared.key) };
}

impl<S: Trailed + Drop> Lock<S> {
    /// A lock round a state with an empty trail, and its passes, 1 to 64, numbered from 0.
    /// It fails only if memory runs out. The state comes back.
    pub fn open(
        alloc: Global,
        state: S,
        passes: u64,
    ) -> Result<(Lock<S>, Vec<Pass<S>>), Refused<S, AllocError>>
        requires state { (S.trail state ≡ []) × S.keeps state }
        requires passes { (0 < passes) × (passes ≤ MAX_PASSES) }
        ensures lock { IfOk result (λ t. t.0.passes ≡ passes) }
        ensures count { IfOk result (λ t. length t.1.items ≡ passes) }
        ensures passes { IfOk result (λ t. AreIdle t.0.id t.1.items × AreNew 0 t.1.items) }
        ensures back { IfErr result (λ e. e.value ≡ state) }
    {
        let Ok(mut dealt) = Vec::with_capacity(alloc, passes as usize) else {
            return Err(Refused {
                value: state,
                fault: AllocError,
            });
        };
        let (table, mut seat) = new_table(alloc, state, passes)?;
        for number in 0..passes {
            let own = steps::deal(&table.shared, &mut seat);
            dealt.push_reserved(Pass { seat: own, number });
        }
        let lock = Lock {
            table,
            sleepers: Sleepers::new(),
        };
        Ok((lock, dealt))
    }

    /// Takes the state by a pass, as soon as nobody else has it. It has every receipt of the pass.
    pub fn take<'l, 'p, R: Wait>(&'l self, rt: &R, pass: &'p mut Pass<S>) -> Turn<'l, 'p, S>
        requires { IsIdlePass self.now.id pass.old }
        ensures same_pass { result.pass.ghost_name ≡ pass.entry.ghost_name }
        ensures pass { result.pass.now ≡ record pass.old { out = Some (S.trail result.state) } }
        ensures state { S.keeps result.state }
        ensures found { found_by_turn result ≡ result.state }
        ensures list { pass.old.list ≡ receipts_of pass.old.number (S.trail result.state) }
        ensures has { HasReceipts (S.trail result.state) pass.old.number pass.old.list }
    {
        let state = pass.take(rt, &self.table.shared, &self.sleepers);
        let found = Snapshot::of(&state);
        Turn {
            pass,
            state,
            found,
            lock: self,
        }
    }

    /// Takes the state without a pass, as soon as nobody else has it.
    pub fn visit<R: Wait>(&self, rt: &R) -> Visit<'_, S>
        ensures trail { taken_by result ≡ S.trail result.state }
        ensures state { S.keeps result.state }
        ensures found { found_by_visit result ≡ result.state }
        ensures lock { lock_of_visit result ≡ self.now.id }
    {
        let mut seat = steps::new_seat(&self.table.shared);
        let state = steps::take(rt, &self.table.shared, &self.sleepers, &mut seat);
        let found = Snapshot::of(&state);
        Visit {
            state,
            found,
            lock: self,
            held: Held::new(seat),
        }
    }

    /// Takes the state out for good. Each pass that is handed in has its entries of the trail, in order, and with all passes their
    /// receipts are the whole trail.
    pub fn close<R: Wait>(self, rt: &R, passes: Vec<Pass<S>>) -> FinalState<S>
        requires { AreIdle self.id passes.items }
        ensures lock { result.lock ≡ self.id }
        ensures state { S.keeps result.state }
        ensures lists { AreTrue (S.trail result.state) passes.items }
        ensures all { length passes.items ≡ self.passes → receipt_count passes.items ≡ length (S.trail result.state) }
    {
        let mut seat = join_all(&self.table.shared, passes);
        let state = steps::take(rt, &self.table.shared, &self.sleepers, &mut seat);
        FinalState::new(Snapshot::of(&self), state)
    }
}

// A seat that represents these passes.
fn join_all<S: Trailed + Drop>(table: &Steps<S>, passes: Vec<Pass<S>>) -> Token<S>
    requires words { 0 < table.now.table_id.words }
    requires idle { AreIdle table.now.table_id passes.items }
    ensures { (result.table_id ≡ table.now.table_id) × (result.me ≡ (standing_for table.now.key (map part_of passes.items), [])) }
{
    let mut seat = steps::new_seat(table);
    for pass in passes {
        let Pass {
            seat: other,
            number: _,
        } = pass;
        steps::join(table, &mut seat, other);
    }
    seat
}

// The table with the state, and a seat that represents all passes.
fn new_table<S: Trailed + Drop>(
    alloc: Global,
    state: S,
    passes: u64,
) -> Result<(StateTable<S>, Token<S>), Refused<S, AllocError>>
    requires state { (S.trail state ≡ []) × S.keeps state }
    ensures table { IfOk result (λ t. (t.0.shared.table_id.words ≡ 1) × (t.0.shared.table_id.slots ≡ 1) × (t.0.shared.key ≡ passes)) }
    ensures seat { IfOk result (λ t. (t.1.table_id ≡ t.0.shared.table_id) × (t.1.me ≡ (standing_for passes (new_parts 0 passes), []))) }
    ensures back { IfErr result (λ e. e.value ≡ state) }
{
    let mut slots = Vec::new(alloc);
    if let Err(failed) = slots.push(Some(state)) {
        let Some(value) = failed.value else {
            unreachable!()
        };
        return Err(Refused {
            value,
            fault: AllocError,
        });
    }
    match Table::new(alloc, &[0], slots, &passes) {
        Ok(made) => Ok(made),
        Err(mut unmade) => {
            let Some(Some(value)) = unmade.slots.pop() else {
                unreachable!()
            };
            Err(Refused {
                value,
                fault: AllocError,
            })
        }
    }
}
