//! What the contracts determine, so that no other body meets them: each call to a segment has one result.
//! Each function states its law; no code calls it.

ghost use Rattle.std.specs.Prelude.{◌≡◌, IfOk};

use crate::{Front, Gap, ReadFault, Segment, Standing};
use redo_core::{Key, Page};

fn front_has_one_answer(segment: &Segment) -> (Front, Front)
    ensures { result.0 ≡ result.1 }
{
    (segment.front(), segment.front())
}

fn anchor_has_one_answer(segment: &Segment) -> (u64, u64)
    ensures { result.0 ≡ result.1 }
{
    segment.opens_form();
    (segment.anchor(), segment.anchor())
}

fn standing_has_one_answer(segment: &Segment, epoch: u16, number: u64) -> (Standing, Standing)
    ensures { result.0 ≡ result.1 }
{
    (segment.stands(epoch, number), segment.stands(epoch, number))
}

fn next_key_has_one_answer(segment: &Segment, after: Option<Key>) -> (Option<Key>, Option<Key>)
    ensures { result.0 ≡ result.1 }
{
    (segment.key_after(after), segment.key_after(after))
}

#[tactic(auto, using(crate::proofs::SamePages::shows_one))]
fn page_read_has_one_image(
    segment: &Segment,
    page: u16,
    point: u64,
) -> Result<(Page, Page), ReadFault>
    ensures { IfOk result (λ both. both.0 ≡ both.1) }
{
    Ok((segment.read(page, point)?, segment.read(page, point)?))
}

fn gap_has_one_answer(segment: &Segment) -> (Option<Gap>, Option<Gap>)
    ensures { result.0 ≡ result.1 }
{
    (segment.gap(), segment.gap())
}
