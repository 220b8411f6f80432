//! What the contracts determine, so that no other body meets them: a call that reads a log has one result.
//! Each function states a theorem and is called by nobody.

ghost use Rattle.std.specs.Prelude.{◌≡◌, ◌≤◌};

use crate::log::HotLog;
use crate::steps::Steps;
use crate::view::BookView;
use redo_core::Key;

fn linked_number_has_one_answer(view: &BookView, from: u64, limit: u64) -> (u64, u64)
    requires { from ≤ limit }
    ensures { result.0 ≡ result.1 }
{
    (
        view.linked_counted(from, limit, &mut Steps::new()),
        view.linked_to(from, limit),
    )
}

fn straight_end_has_one_answer(view: &BookView, from: u64) -> (Option<u64>, Option<u64>)
    ensures { result.0 ≡ result.1 }
{
    (view.contiguous_end(from), view.contiguous_end(from))
}

fn key_after_has_one_answer(log: &HotLog, after: Option<Key>) -> (Option<Key>, Option<Key>)
    ensures { result.0 ≡ result.1 }
{
    (log.key_after(after), log.key_after(after))
}

fn gap_has_one_answer(view: &BookView, number: u64) -> (Option<u64>, Option<u64>)
    ensures { result.0 ≡ result.1 }
{
    view.held.opens_form();
    view.book.opens_form();
    (view.gap_above(number), view.gap_above(number))
}

fn awaited_epoch_has_one_answer(view: &BookView) -> (Option<u16>, Option<u16>)
    ensures { result.0 ≡ result.1 }
{
    (view.awaited(), view.awaited())
}
