use crate::drill_facts::fact_at_place;
use crate::names::LogName;
use redo_core::{Fact, Roster};
use std::alloc::{AllocError, Global};

/// The log of N records of epoch 0, an advance, a truncation at N / 2 and N records of epoch 1, for N from 2 to 1,048,576.
/// For any other N it is empty. Its roster has one reader.
#[derive(Clone, Copy)]
pub struct Drill<const N: u64>;

impl<const N: u64> LogName for Drill<N> {
    ghost use Rattle.named_log.specs.DrillLog.{drill_log};
    ghost use Rattle.named_log.specs.Soundness.Sound.{drill_sound};

    ghost roster = { 1 };

    ghost log = { drill_log N };

    fn roster() -> Roster {
        match Roster::new(1) {
            Ok(roster) => roster,
            Err(_) => unreachable!(),
        }
    }

    fn fact(alloc: Global, place: u64) -> Result<Option<Fact>, AllocError> {
        if N < 2 || N > 1048576 {
            return Ok(None);
        }
        fact_at_place(alloc, N, place)
    }

    ghost sound = { drill_sound N };
}
