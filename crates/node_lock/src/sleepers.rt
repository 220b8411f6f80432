//! How takers of the state wait.
ghost use Rattle.std.specs.Prelude.{◌<◌};

use crate::rule::{Steps, Trailed};
use std::sync::Wait;
use std::sync::atomic::{AtomicU64, Ordering};
use std::thread::yield_now;

// How often a taker looks at the word, and lets others run where the state is out, before it sleeps.
const LOOKS: u32 = 6;

// The takers that sleep, or are about to. Nothing of it is proved: a wake that is lost would leave a taker asleep.
//
// A taker that is about to sleep reads the rings, then asks to be woken, and then looks once more whether the state is out. A giver sets
// the word to 0 and then takes the request, if there is one, rings and wakes one taker. So a giver whose state the sleeper saw to be out
// finds the request, and its ring ends the sleep, or keeps it from beginning. The taker that was woken asks for the other sleepers, at
// its next sleep or once it has the state.
#[derive(Drop)]
pub(crate) struct Sleepers {
    rings: AtomicU64,
    asks: AtomicU64,
}

impl Sleepers {
    pub(crate) fn new() -> Sleepers {
        Sleepers {
            rings: AtomicU64::new(0),
            asks: AtomicU64::new(0),
        }
    }

    // Waits while the word is not 0, for a while awake and then asleep, and says whether it slept. It may return for no reason: the
    // caller tries again.
    pub(crate) fn wait<S: Trailed + Drop, R: Wait>(&self, rt: &R, steps: &Steps<S>) -> bool
        requires { 0 < steps.now.table_id.words }
    {
        for _ in 0..LOOKS {
            if steps.peek(0) == 0 {
                return false;
            }
            yield_now();
        }
        let heard = (self.rings.load(Ordering::SeqCst) & 0xffff_ffff) as u32;
        self.ask();
        if steps.peek(0) == 0 {
            return false;
        }
        self.rings.park(rt, heard);
        true
    }

    // The next giver wakes one taker that sleeps.
    pub(crate) fn ask(&self) {
        self.asks.store(1, Ordering::SeqCst);
    }

    // After the word is 0: wakes one taker that sleeps, if one asked.
    pub(crate) fn wake(&self) {
        if self.asks.load(Ordering::SeqCst) != 0 && self.asks.swap(0, Ordering::SeqCst) != 0 {
            self.rings.fetch_add(1, Ordering::SeqCst);
            self.rings.wake_one();
        }
    }
}
