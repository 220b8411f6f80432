//! A lock round a state with a trail, shared by the threads of a node, and passes that know what they appended.
//!
//! The lock guards one state, with the property that its type keeps. A holder takes it by a pass, or on a visit without one, has it alone
//! and has to give it back: a `Turn` or a `Visit` is not `Drop`, so a program ends it only by `give`, `post` or `leave`, and it borrows
//! its pass and the lock, so that neither can be used, closed or dropped meanwhile. `Lock::read` runs a call on the state and gives it
//! back itself. The state that comes back retains the one that was found, in the relation that the state's type defines. A type that
//! must remember something chooses a relation that excludes forgetting.
//!
//! Each of these calls returns a `Section`: evidence of the state that the holder found and of the one that it gave back. No other code
//! makes a section, so a contract above can speak of these two states, and not only of some states with their properties. In the same
//! way the `FinalState` that `Lock::close` returns is the state of that lock.
//!
//! The trail grows under the numbers of the passes, by one entry a turn, and each entry names a place in the log. A pass's list of
//! receipts is always its entries of the trail, in order, with their places: a holder that takes the state by the pass finds each of
//! them, whatever other passes appended in between, and so does the caller that closes the lock with the pass. With all passes the
//! receipts are the whole trail.
//!
//! A call that takes the state waits until nobody else has it: for a while awake, then asleep until a giver wakes it. Nothing promises
//! when.
#![tactic(auto)]

mod final_state;
mod held;
mod lock;
mod pass;
mod reading;
mod rule;
mod section;
mod sleepers;
mod steps;
mod turn;
mod visit;

pub use final_state::FinalState;
pub use lock::{Lock, MAX_PASSES};
pub use pass::Pass;
pub use rule::Trailed;
pub use section::Section;
pub use turn::Turn;
pub use visit::Visit;
