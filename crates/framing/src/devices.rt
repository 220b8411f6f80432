//! Readers and writers that remember whether a call failed, and why a run over them failed.

mod fault;
mod transfer;
mod watched;

pub use fault::RunFault;
pub use transfer::{read_all, write_all};
pub use watched::Watched;
