//! How far down a truncation cuts, where it opens epochs.

use epoch_book::EpochBook;
use redo_core::Cut;

/// The least `lo` of a truncation and of those that take effect with it, where its epoch is the next one and it contradicts nothing; else
/// the greatest LSN. This only spares searches: the book that has learnt the truncation decides whether it is right.
pub(crate) fn lo_opened_by(book: &EpochBook, cut: Cut) -> u64 {
    let complete = book.complete_epoch();
    if cut.epoch() != complete.saturating_add(1) || book.against_cut(cut).is_some() {
        return u64::MAX;
    }
    let cuts = book.cuts();
    let mut lo = cut.lo();
    let mut last = cut.epoch();
    let mut place = usize::from(complete);
    while place < cuts.len() && cuts[place].epoch() == last.saturating_add(1) {
        lo = lo.min(cuts[place].lo());
        last = cuts[place].epoch();
        place += 1;
    }
    lo
}
