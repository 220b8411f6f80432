//! The engine's side of a volume: a machine that decides what an engine asks of the nodes of a volume, and what is durable.
//!
//! A volume is one log on up to 15 nodes, each behind a guard, with a write quorum of more than half of them. `Volume::step` takes one
//! event (a call of the engine, a reply of a node, a broken connection) and returns the actions that follow from it. There is no clock,
//! no socket and no thread.
//!
//! An opening fences a quorum, then pulls what each node of it has, makes the union known at a quorum, and has a truncation accepted by a
//! quorum and then taken by one. Only then does the engine write. What `step` does in each phase is `IsVolumeStep` (`specs/Stepping`).
#![tactic(auto)]

mod actions;
mod backlog;
mod creating;
mod errands;
mod events;
mod fencing;
mod opening;
mod page_layout;
mod phases;
mod plans;
mod pulling;
mod resuming;
mod sets;
mod settings;
mod turns;
mod volume;
mod writing;

pub use actions::{Action, Fault};
pub use backlog::Backlog;
pub use creating::{Creating, Round};
pub use errands::{Errand, Joining, Query};
pub use events::Event;
pub use fencing::Fencing;
pub use page_layout::{MAX_HEADER, NUMBER_OFFSET};
pub use phases::{Opening, Phase, Session, Stage, Writing};
pub use plans::CutPlan;
pub use sets::MAX_NODES;
pub use settings::{Settings, SettingsFault};
pub use turns::Transition;
pub use volume::Volume;
