ghost use Rattle.std.specs.Prelude.{◌≡◌};
ghost use Rattle.epoch_book.specs.declared.refusals.BookRefusal.TheVariants.{Memory};

use redo_core::{Advance, Cut};
use std::alloc::AllocFailed;
use thiserror::Error;

/// Whether a fact changed the book.
#[derive(Clone, Copy, Debug, PartialEq, Eq)]
pub enum Learnt {
    /// The book has changed.
    New,
    /// Nothing has changed: the fact was known.
    Known,
}

/// What a refused fact contradicts.
#[derive(Clone, Copy, Debug, PartialEq, Eq)]
pub enum Held {
    /// The minimum read point.
    Min(u64),
    /// An advance that waits.
    Advance(Advance),
    /// A truncation.
    Cut(Cut),
}

/// Why a book has not learnt a fact. It is unchanged.
#[derive(Clone, Copy, Debug, PartialEq, Eq, Error)]
pub enum BookRefusal {
    #[error("{shown} does not fit the roster of {own} readers")]
    OtherRoster { own: u8, shown: u8 },
    #[error("another truncation of the epoch is stored")]
    OtherCut(Cut),
    #[error("the fact contradicts what is stored")]
    Contradiction(Held),
    #[error("out of memory")]
    Memory,
}

impl<T: Drop> From<AllocFailed<T>> for BookRefusal {
    ghost from_gives = { λ _ e. e ≡ Memory };

    fn from(_failed: AllocFailed<T>) -> BookRefusal {
        BookRefusal::Memory
    }
}
