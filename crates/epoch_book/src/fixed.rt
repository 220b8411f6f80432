//! What the contracts determine, so that no other body meets them: a book responds to a fact in one way.
//! Each function states a theorem and is called by nobody.

ghost use Rattle.std.specs.Prelude.{◌≡◌, IfOk, IfErr, IfSome};

use crate::book::EpochBook;
use crate::refusals::{BookRefusal, Learnt};
use redo_core::{Advance, Cut};

fn truncation_is_answered_one_way(
    one: &mut EpochBook,
    other: &mut EpochBook,
    cut: Cut,
) -> Result<(Learnt, Learnt), Option<(BookRefusal, BookRefusal)>>
    requires { one.old ≡ other.old }
    ensures learnt { IfOk result (λ both. both.0 ≡ both.1) }
    ensures refused { IfErr result (λ refusals. IfSome refusals (λ both. both.0 ≡ both.1)) }
{
    match (one.learn_cut(cut), other.learn_cut(cut)) {
        (Err(BookRefusal::Memory), _) => Err(None),
        (_, Err(BookRefusal::Memory)) => Err(None),
        (Ok(first), Ok(second)) => Ok((first, second)),
        (Err(first), Err(second)) => Err(Some((first, second))),
        _ => unreachable!(),
    }
}

// The contract of `learn_advance` itself determines which advances are known.
fn advance_is_refused_one_way(
    one: &mut EpochBook,
    other: &mut EpochBook,
    advance: Advance,
) -> Option<(BookRefusal, BookRefusal)>
    requires { one.old ≡ other.old }
    ensures { IfSome result (λ both. both.0 ≡ both.1) }
{
    match (one.learn_advance(advance), other.learn_advance(advance)) {
        (Err(BookRefusal::Memory), _) => None,
        (_, Err(BookRefusal::Memory)) => None,
        (Ok(_), Ok(_)) => None,
        (Err(first), Err(second)) => Some((first, second)),
        _ => unreachable!(),
    }
}
