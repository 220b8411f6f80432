ghost use Rattle.std.specs.Prelude.{◌≡◌};

use node_lock::{Lock, Trailed};
use std::alloc::{AllocError, Global};
use std::hint::black_box;
use std::sync::atomic::{AtomicU64, Ordering};
use std::sync::{Mutex, Wait};
use std::thread;
use std::thread::Threads;

// A state with no trail.
#[derive(Drop)]
struct Count {
    trail: Vec<(u64, u64)>,
    count: u64,
}

impl Trailed for Count {
    ghost trail = { λ d. d.trail.items };

    ghost keeps = { λ d. Unit {0} };

    ghost retains = { λ old new. Unit {0} };

    ghost reflexive = { λ d. tt };

    ghost transitive = { λ a b c first next. tt };
}

impl Count {
    fn work(&mut self, rounds: u64)
        ensures { self.new.trail.items ≡ self.old.trail.items }
    {
        self.count = worked(self.count, rounds);
    }
}

fn worked(from: u64, rounds: u64) -> u64 {
    let mut count = from.wrapping_add(1);
    for round in 0..rounds {
        count = black_box(count)
            .wrapping_mul(6364136223846793005)
            .wrapping_add(round);
    }
    count
}

#[derive(Drop)]
enum Shared {
    Node(Lock<Count>),
    Plain(Mutex<u64>),
}

impl Shared {
    fn turn<R: Wait>(&self, rt: &R, rounds: u64) {
        match self {
            Shared::Node(lock) => {
                let mut visit = lock.visit(rt);
                visit.state.work(rounds);
                visit.leave();
            }
            Shared::Plain(mutex) => {
                let mut guard = mutex.lock(rt);
                *guard = worked(*guard, rounds);
            }
        }
    }

    fn turns<R: Wait>(&self, rt: &R, count: u64, rounds: u64) {
        for _ in 0..count {
            self.turn(rt, rounds);
        }
    }

    // Takes empty turns until the working holder is done.
    fn turns_until<R: Wait>(&self, rt: &R, done: &AtomicU64) {
        for _ in rt.forever() {
            if done.load(Ordering::SeqCst) != 0 {
                return;
            }
            self.turn(rt, 0);
        }
    }
}

/// What the threads do: each takes `turns` turns of `rounds`, or, with one working holder, only the first does, and the others wait.
#[derive(Drop)]
pub struct TurnTask {
    pub threads: usize,
    pub turns: u64,
    pub rounds: u64,
    pub has_holder: bool,
}

fn run<R: Threads + Wait + Sync>(
    rt: &R,
    alloc: Global,
    shared: &Shared,
    task: &TurnTask,
) -> Result<usize, AllocError> {
    let done = AtomicU64::new(0);
    let ended = thread::map_indices(
        rt,
        alloc,
        task.threads,
        &|number| {
            if number > 0 && task.has_holder {
                shared.turns_until(rt, &done);
            } else {
                shared.turns(rt, task.turns, task.rounds);
                done.store(1, Ordering::SeqCst);
            }
        },
    )?;
    Ok(ended.len())
}

fn opened(alloc: Global, name: &str) -> Result<Shared, AllocError> {
    if name == "mutex" {
        return Ok(Shared::Plain(Mutex::new(0)));
    }
    let start = Count {
        trail: Vec::new(alloc),
        count: 0,
    };
    let (lock, _) = Lock::open(alloc, start, 1).map_err(|refused| refused.fault)?;
    Ok(Shared::Node(lock))
}

/// Threads take turns at a node's lock, or at a mutex where that is its name, as the task says. Returns how many threads ended.
pub fn take_turns<R: Threads + Wait + Sync>(
    rt: &R,
    alloc: Global,
    name: &str,
    task: &TurnTask,
) -> Result<usize, AllocError> {
    run(rt, alloc, &opened(alloc, name)?, task)
}
