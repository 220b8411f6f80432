//! The guard of a node follows the rules of the volume protocol.
//!
//! The theorems of `volume_theorems` are about nodes in the abstract. `guard_moves` says that each request that a guard answers, as its
//! contract says, is a move that these rules allow. It leaves open what the rules ask of engines (`IsAllowed`), and of the facts of
//! segments (`KeepsFacts`), which `parts_grow` has of the parts of a sound log.
#![tactic(auto)]

ghost use Rattle.volume_guards.specs.Guards.{GuardMoves};

/// Whatever a guard replies, it has made a move that the rules of the volume protocol allow.
pub fn guard_moves()
    ensures { GuardMoves }
{}
