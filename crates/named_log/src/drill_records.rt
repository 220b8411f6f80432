ghost use Rattle.std.specs.Prelude.{◌≡◌, ◌<◌, ◌≤◌, IfOk};
ghost use Rattle.std.specs.Int.{to_be_bytes, w64};
ghost use Rattle.redo_core.specs.Data.{record_of};
ghost use Rattle.redo_core.specs.declared.facts.Fact.TheVariants.{Record};
ghost use Rattle.named_log.specs.DrillLog.{drill_writes, record_of_epoch_0, record_of_epoch_1, last_of_page};

use redo_core::{Fact, RecordFault, Write};
use std::alloc::{AllocError, Global};

/// The record of an LSN of epoch 0.
pub(crate) fn first_epoch_record(alloc: Global, number: u64) -> Result<Fact, AllocError>
    requires { (1 ≤ number) × (number ≤ 1048576) }
    ensures { IfOk result (λ fact. fact ≡ Record (record_of_epoch_0 number)) }
{
    let block_back = if number > 8 { number - 8 } else { 0 };
    record(
        alloc,
        0,
        number,
        number - 1,
        (number % 8) as u16,
        block_back,
    )
}

/// The j-th record of epoch 1.
pub(crate) fn second_epoch_record(alloc: Global, size: u64, j: u64) -> Result<Fact, AllocError>
    requires size { (2 ≤ size) × (size ≤ 1048576) }
    requires j { (1 ≤ j) × (j ≤ size) }
    ensures { IfOk result (λ fact. fact ≡ Record (record_of_epoch_1 size j)) }
{
    let number = size + 8 + j;
    let page = (j - 1) % 8;
    let back = if j == 1 { size / 2 } else { number - 1 };
    let block_back = if j > 8 {
        number - 8
    } else {
        last_number_of_page(size / 2, page)
    };
    record(alloc, 1, number, back, page as u16, block_back)
}

// The greatest LSN up to h of a page, or 0.
fn last_number_of_page(h: u64, page: u64) -> u64
    ensures { result ≡ last_of_page h page }
{
    if h < page { 0 } else { h - (h - page) % 8 }
}

fn record(
    alloc: Global,
    epoch: u16,
    number: u64,
    back: u64,
    page: u16,
    block_back: u64,
) -> Result<Fact, AllocError>
    requires number { number < 281474976710656 }
    requires back { back < number }
    requires block_back { block_back ≤ back }
    ensures { IfOk result (λ fact. fact ≡ Record (record_of epoch number back page block_back (drill_writes number))) }
{
    let writes = writes(alloc, number)?;
    match redo_core::Record::new(epoch, number, back, page, block_back, writes) {
        Ok(redo) => Ok(Fact::Record(redo)),
        Err(refused) => match refused.fault {
            RecordFault::Shape(_) => unreachable!(),
            RecordFault::Memory => Err(AllocError),
        },
    }
}

#[tactic(auto, unfolding(crate::specs::DrillLog::drill_writes))]
fn writes(alloc: Global, number: u64) -> Result<Vec<Write>, AllocError>
    ensures { IfOk result (λ made. made.items ≡ drill_writes number) }
{
    let mut writes = Vec::new(alloc);
    writes.push(number_at(alloc, 0, number)?)?;
    writes.push(number_at(alloc, (8 + 8 * (number / 8 % 511)) as u16, number)?)?;
    Ok(writes)
}

// A write of the eight bytes of an LSN, the most significant first.
fn number_at(alloc: Global, offset: u16, number: u64) -> Result<Write, AllocError>
    ensures { IfOk result (λ made. made ≡ record { offset = offset; bytes = to_be_bytes w64 number }) }
{
    let mut bytes = Vec::new(alloc);
    bytes.extend_from_slice(&number.to_be_bytes())?;
    Ok(Write::new(offset, bytes))
}
