//! Gates that hold workers back until others have come so far.
use node_threads::{Gate, Job, Kind};
use std::sync::atomic::{AtomicU64, Ordering};
use std::thread;

/// How often a gate polls before it lets a worker through all the same.
const LOOKS: u64 = 100_000_000;

/// A counter of events, which threads share.
#[derive(Drop)]
pub struct Tally {
    count: AtomicU64,
}

impl Tally {
    /// A counter at 0.
    pub fn new() -> Tally {
        Tally {
            count: AtomicU64::new(0),
        }
    }

    /// Counts one event.
    pub fn add(&self) {
        self.count.fetch_add(1, Ordering::SeqCst);
    }

    /// The number of events so far.
    pub fn read(&self) -> u64 {
        self.count.load(Ordering::SeqCst)
    }

    // Whether the counter reaches `count` before the polls are used up.
    fn reaches(&self, count: u64) -> bool {
        for _ in 0..LOOKS {
            if self.read() >= count {
                return true;
            }
            thread::yield_now();
        }
        false
    }
}

/// When folders and gossipers go on.
#[derive(Clone, Copy)]
pub enum Order {
    /// A folder's round begins when a gossiper's has begun, and the other way round.
    AtOnce,
    /// A fold is committed after all parcels.
    LateFolds,
    /// The first parcel comes after all mail is made, and mail is absorbed after all parcels.
    EarlyMail,
}

/// A gate of an order, for so many parcels and so many gossip rounds, each of a worker of its own.
#[derive(Drop)]
pub struct Turnstile {
    order: Order,
    parcels: u64,
    rounds: u64,
    delivered: Tally,
    folding: Tally,
    gossiping: Tally,
    mails: Tally,
    /// How many workers were let through without their condition.
    pub unmet: Tally,
}

impl Turnstile {
    /// A gate that no worker has reached.
    pub fn new(order: Order, parcels: u64, rounds: u64) -> Turnstile {
        Turnstile {
            order,
            parcels,
            rounds,
            delivered: Tally::new(),
            folding: Tally::new(),
            gossiping: Tally::new(),
            mails: Tally::new(),
            unmet: Tally::new(),
        }
    }

    fn wait_for(&self, tally: &Tally, count: u64) {
        if !tally.reaches(count) {
            self.unmet.add();
        }
    }
}

impl Gate for Turnstile {
    fn before(&self, job: Job) {
        match (self.order, job.kind) {
            (Order::AtOnce, Kind::Fold) => {
                self.folding.add();
                self.wait_for(&self.gossiping, 1);
            }
            (Order::AtOnce, Kind::Gossip) => {
                self.gossiping.add();
                self.wait_for(&self.folding, 1);
            }
            (Order::EarlyMail, Kind::Deliver) => self.wait_for(&self.mails, self.rounds),
            _ => {}
        }
    }

    fn between(&self, job: Job) {
        match (self.order, job.kind) {
            (Order::LateFolds, Kind::Fold) => self.wait_for(&self.delivered, self.parcels),
            (Order::EarlyMail, Kind::Gossip) => {
                self.mails.add();
                self.wait_for(&self.delivered, self.parcels);
            }
            _ => {}
        }
    }

    fn after(&self, job: Job) {
        if job.kind == Kind::Deliver {
            self.delivered.add();
        }
    }
}
