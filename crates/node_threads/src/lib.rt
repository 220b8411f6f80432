//! Workers in threads round the nodes of a log: feeders, drainers, folders and gossipers.
//!
//! A feeder offers facts to an intake, a drainer takes parcels and delivers them, a folder folds pages (`fold_many`: by many threads,
//! the result of each plan alone, in the order given), a gossiper sends one node what it lacks of another. Each ends with its work, or
//! sooner where it would have to wait and the stop flag says that a worker could not be started.
//!
//! `serve` runs them all and gives back what they were handed. Where every worker was started, the facts of each feed that names an
//! inlet were accepted from its sender, in order; each inlet has as many answers as the plan says, in order for the facts that its
//! taker took, and its pass has just the receipts among them.
#![tactic(auto)]

mod context;
mod drain;
mod ending;
mod feed;
mod folding;
mod gate;
mod inlet;
mod join_drainers;
mod join_feeders;
mod join_rounds;
mod list;
mod refusal;
mod rooms;
mod rounds;
mod run;
mod serving;
mod start_drainers;
mod start_feeders;
mod start_rounds;
mod stop;

pub use drain::DeliverResult;
pub use feed::Feed;
pub use folding::fold_many;
pub use gate::{Gate, Job, Kind};
pub use inlet::Inlet;
pub use refusal::WorkerRefusal;
pub use serving::{Plan, ServeInput, Served, Shared, serve};
