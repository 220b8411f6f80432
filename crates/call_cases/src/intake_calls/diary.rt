//! A lock round a trail.
ghost use Rattle.std.specs.Prelude.{◌≡◌, ◌<◌, ◌≤◌, ◌+◌, ◌^◌, ◌++◌, ◌∷◌, [], None, length, vec_capacity, OnOk, OnErr, IfOk};
ghost use Rattle.node_lock.specs.Passes.{IsIdlePass, AreIdle};

use crate::common::{both, in_box};
use crate::keeping::or_fault;
use case_io::Row;
use node_lock::{Lock, MAX_PASSES, Pass, Trailed};
use std::alloc::{AllocError, Global};
use std::sync::Wait;
use std::thread::Threads;
use std::{io, mem, thread};

/// A trail with its length, and the number of reads, which is no part of the state that it keeps.
#[derive(Drop)]
pub struct CountedTrail {
    trail: Vec<(u64, u64)>,
    count: usize,
    looks: u64,
}

impl Trailed for CountedTrail {
    ghost use Rattle.std.specs.Prelude.{◌≡◌, ◌≤◌, length};
    ghost use Rattle.std.proofs.Common.{le_refl, le_trans};

    ghost trail = { λ d. d.trail.items };

    ghost keeps = { λ d. d.count ≡ length d.trail.items };

    ghost retains = { λ old new. length old.trail.items ≤ length new.trail.items };

    ghost reflexive = { λ d. le_refl (length d.trail.items) };

    ghost transitive = { λ a b c first next. le_trans first next };
}

impl CountedTrail {
    fn new(alloc: Global) -> CountedTrail
        ensures { (result.trail.items ≡ []) × (result.count ≡ 0) }
    {
        CountedTrail {
            trail: Vec::new(alloc),
            count: 0,
            looks: 0,
        }
    }

    fn note(&mut self, pass: u64, log_place: u64) -> Result<(), AllocError>
        ensures noted { OnOk result (self.new.trail.items ≡ self.old.trail.items ++ (pass, log_place) ∷ []) }
        ensures counted { OnOk result (self.new.count ≡ length self.new.trail.items) }
        ensures unchanged { OnErr result ((self.new.trail.items ≡ self.old.trail.items) × (self.new.count ≡ self.old.count)) }
    {
        self.trail.push((pass, log_place))?;
        self.count = self.trail.len();
        Ok(())
    }

    fn look(&mut self) -> u64
        ensures { (self.new.trail.items ≡ self.old.trail.items) × (self.new.count ≡ self.old.count) }
    {
        self.looks = self.looks.wrapping_add(1);
        self.looks
    }

    // Whether the entries of a pass are those from `first` on, in order, up to the one before `end`, and no others.
    fn is_in_order(&self, pass: u64, first: u64, end: u64) -> bool {
        let mut next = first;
        for entry in self.trail.as_slice() {
            if entry.0 == pass {
                if entry.1 != next {
                    return false;
                }
                next = next.wrapping_add(1);
            }
        }
        next == end
    }
}

// Appends an entry. The state is returned on both paths.
fn append<R: Wait>(
    rt: &R,
    lock: &Lock<CountedTrail>,
    pass: &mut Pass<CountedTrail>,
    log_place: u64,
) -> Result<(), AllocError>
    requires { IsIdlePass lock.now.id pass.old }
    ensures { IsIdlePass lock.now.id pass.new }
{
    let number = pass.number();
    let mut turn = lock.take(rt, pass);
    match turn.state.note(number, log_place) {
        Ok(()) => {
            turn.post(log_place);
            Ok(())
        }
        Err(fault) => {
            turn.give();
            Err(fault)
        }
    }
}

// Appends entries at the log indices from `first` on.
fn append_all<R: Wait>(
    rt: &R,
    lock: &Lock<CountedTrail>,
    mut pass: Pass<CountedTrail>,
    first: u64,
    count: u64,
) -> Result<Pass<CountedTrail>, AllocError>
    requires pass { IsIdlePass lock.now.id pass }
    requires range { first + count < 2 ^ 64 }
    ensures { IfOk result (λ p. IsIdlePass lock.now.id p) }
{
    for step in 0..count {
        append(rt, lock, &mut pass, first + step)?;
    }
    Ok(pass)
}

/// A lock with two passes.
#[derive(Drop)]
pub struct Diaries {
    lock: Lock<CountedTrail>,
    one: Pass<CountedTrail>,
    other: Pass<CountedTrail>,
    ghost idle: { IsIdlePass lock.id one × IsIdlePass lock.id other },
}

type Opened = (Lock<CountedTrail>, Vec<Pass<CountedTrail>>);

fn open_lock(alloc: Global, passes: u64) -> Result<Opened, AllocError>
    requires { (0 < passes) × (passes ≤ MAX_PASSES) }
    ensures idle { IfOk result (λ t. AreIdle t.0.id t.1.items) }
    ensures count { IfOk result (λ t. length t.1.items ≡ passes) }
{
    or_fault(Lock::open(alloc, CountedTrail::new(alloc), passes))
}

fn opened(alloc: Global) -> Result<Diaries, AllocError> {
    let (lock, passes) = open_lock(alloc, 2)?;
    let (one, other) = both(passes);
    Ok(Diaries { lock, one, other })
}

/// Opens a lock with two passes and an empty trail.
pub fn open_diaries(alloc: Global) -> Result<Box<Diaries>, AllocError> {
    in_box(alloc, opened(alloc)?)
}

/// Appends an entry by a pass, 0 or another.
pub fn note<R: Wait>(rt: &R, diaries: &mut Diaries, row: &Row) -> io::Result<()> {
    match row.number(0) {
        0 => append(rt, &diaries.lock, &mut diaries.one, row.number(1))?,
        _ => append(rt, &diaries.lock, &mut diaries.other, row.number(1))?,
    }
    row.done()
}

/// Reads the state without a pass.
pub fn look<R: Wait>(rt: &R, diaries: &Diaries, row: &Row) -> io::Result<()> {
    let mut visit = diaries.lock.visit(rt);
    let looks = visit.state.look();
    visit.leave();
    row.one("Looks", &looks)
}

/// Reads the state by the second pass.
pub fn look_by_pass<R: Wait>(rt: &R, diaries: &mut Diaries, row: &Row) -> io::Result<()> {
    let mut turn = diaries.lock.take(rt, &mut diaries.other);
    let looks = turn.state.look();
    turn.give();
    row.one("Looks", &looks)
}

/// Reads the state in a closure, by the first pass.
pub fn look_in_a_call<R: Wait>(rt: &R, diaries: &mut Diaries, row: &Row) -> io::Result<()> {
    let looks = diaries
        .lock
        .read(rt, &mut diaries.one, |diary| diary.look())
        .0;
    row.one("Looks", &looks)
}

/// Closes the lock with the first pass alone, and opens one. The answer is the entries of the trail: the pass and the log index
/// of each.
pub fn close<R: Wait>(rt: &R, diaries: &mut Box<Diaries>, row: &Row) -> io::Result<()> {
    let closed = mem::replace(diaries, open_diaries(row.alloc)?);
    let room = Vec::with_capacity(row.alloc, 1)?;
    let diary = closed_by_one(rt, Box::into_inner(closed), room);
    row.one("Trail", &diary.trail)
}

// The first pass goes into an empty list.
fn closed_by_one<R: Wait>(
    rt: &R,
    diaries: Diaries,
    mut passes: Vec<Pass<CountedTrail>>,
) -> CountedTrail
    requires { (passes.items ≡ []) × (0 < vec_capacity passes) }
{
    let Diaries {
        lock,
        one,
        other: _,
    } = diaries;
    passes.push_reserved(one);
    lock.close(rt, passes).into_state()
}

// What a pass's thread returns.
type Back = Result<Pass<CountedTrail>, AllocError>;

// Two threads append 1000 entries each, by a pass of their own.
fn append_twice<R: Threads + Wait + Sync>(
    rt: &R,
    lock: &Lock<CountedTrail>,
    one: Pass<CountedTrail>,
    other: Pass<CountedTrail>,
) -> (Back, Back)
    requires { IsIdlePass lock.now.id one × IsIdlePass lock.now.id other }
    ensures one { IfOk result.0 (λ p. IsIdlePass lock.now.id p) }
    ensures other { IfOk result.1 (λ p. IsIdlePass lock.now.id p) }
{
    thread::join(
        rt,
        move || -> Back
            requires { IsIdlePass lock.now.id one }
            ensures { IfOk result (λ p. IsIdlePass lock.entry.now.id p) }
        { append_all(rt, lock, one, 1, 1000) },
        move || -> Back
            requires { IsIdlePass lock.now.id other }
            ensures { IfOk result (λ p. IsIdlePass lock.entry.now.id p) }
        { append_all(rt, lock, other, 5001, 1000) },
    )
}

fn appended_twice<R: Threads + Wait + Sync>(
    rt: &R,
    alloc: Global,
) -> Result<CountedTrail, AllocError> {
    let Diaries { lock, one, other } = opened(alloc)?;
    let (one, other) = append_twice(rt, &lock, one, other);
    let passes = Vec::from_array(alloc, [one?, other?])?;
    Ok(lock.close(rt, passes).into_state())
}

/// Prints how many entries the trail has, and whether those of each pass are in order.
pub fn append_in_two_threads<R: Threads + Wait + Sync>(rt: &R, row: &Row) -> io::Result<()> {
    let diary = appended_twice(rt, row.alloc)?;
    let first = diary.is_in_order(0, 1, 1001);
    let second = diary.is_in_order(1, 5001, 6001);
    row.parts("InOrder", &(diary.count, first, second))
}

/// Prints how many passes a lock has, and the number of the last.
pub fn print_passes(row: &Row) -> io::Result<()> {
    let count = row.number(0);
    if count == 0 || count > MAX_PASSES {
        return row.unknown();
    }
    let (_, passes) = open_lock(row.alloc, count)?;
    match passes.last() {
        Some(last) => row.parts("Passes", &(passes.len(), last.number())),
        None => row.said("None"),
    }
}
