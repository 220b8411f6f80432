//! Which keys of an epoch are kept, from one that is.
ghost use Rattle.std.specs.Prelude.{◌≡◌, ◌≤◌, ◌↔◌, IsTrue, IfSome};
ghost use Rattle.hot_log.specs.Kept.{KeepsKey};
ghost use Rattle.hot_log.specs.Spans.{IsSpan};

use crate::search::is_kept;
use epoch_book::EpochBook;
use redo_core::Key;

/// From an LSN on, the keys of an epoch that are kept: those up to another LSN.
#[derive(Clone, Copy)]
pub(crate) struct Span {
    pub(crate) epoch: u16,
    pub(crate) from: u64,
    pub(crate) to: u64,
}

/// The span from a kept key on.
fn span_from(book: &EpochBook, key: Key, point: u64) -> Span
    requires { KeepsKey book.now point key }
    ensures { IsSpan book.now point result }
{
    let to = if key.epoch > book.complete_epoch() {
        u64::MAX
    } else {
        match book.least_lo(key.epoch) {
            Some(lo) => lo,
            None => u64::MAX,
        }
    };
    Span {
        epoch: key.epoch,
        from: key.number,
        to,
    }
}

/// Whether a key waits, or is alive above an LSN. A span that is known answers for the keys in it; the first kept key of an epoch gives
/// the next one.
pub(crate) fn keeps(book: &EpochBook, span: &mut Option<Span>, key: Key, point: u64) -> bool
    requires { IfSome span.old (IsSpan book.now point) }
    ensures keeps { IsTrue result ↔ KeepsKey book.now point key }
    ensures span { IfSome span.new (IsSpan book.now point) }
{
    match *span {
        Some(known) if known.epoch == key.epoch && known.from <= key.number => {
            key.number <= known.to
        }
        _ => {
            let is_new = is_kept(book, key, point);
            if is_new {
                *span = Some(span_from(book, key, point));
            }
            is_new
        }
    }
}
