use named_log::{LogFact, LogName};
use segment_core::Segment;
use std::alloc::{AllocError, Global};
use std::sync::{Mutex, Wait};
use std::thread;
use std::thread::Threads;

/// Threads take the facts that were dealt to them into one segment under a mutex. Returns how many of each were accepted.
pub fn deliver<L: LogName + Send, R: Threads + Wait + Sync>(
    rt: &R,
    alloc: Global,
    dealt: Vec<Vec<LogFact<L>>>,
) -> Result<Vec<u64>, AllocError> {
    let segment = Mutex::new(Segment::new(alloc, L::roster())?);
    thread::map_vec(rt, dealt, &|share| take_all(rt, &segment, share))
}

fn take_all<L: LogName, R: Wait>(rt: &R, segment: &Mutex<Segment>, share: Vec<LogFact<L>>) -> u64 {
    let mut count = 0u64;
    for fact in share {
        if segment.lock(rt).take(fact.into_fact()).is_ok() {
            count = count.saturating_add(1);
        }
    }
    count
}
