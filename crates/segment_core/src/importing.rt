ghost use Rattle.std.specs.Prelude.{◌≡◌, ◌≤◌, ◌⊎◌, [], ◌∷◌, length, map, OnOk, IfErr};
ghost use Rattle.std.specs.List.{All};
ghost use Rattle.redo_core.specs.Shape.{max_readers, max_number};
ghost use Rattle.redo_core.specs.Roster.{IsReader};
ghost use Rattle.redo_core.specs.declared.facts.Fact.TheVariants.{Record as OfRecord, Cut as OfCut, Advance as OfAdvance};
ghost use Rattle.segment_core.specs.Transaction.{began, reached};
ghost use Rattle.segment_core.specs.declared.answers.Refusal.TheVariants.{Memory as MemoryOf};
ghost use Rattle.segment_core.specs.Exported.{point_facts, book_facts, exported_facts};
ghost use Rattle.segment_core.specs.InOrder.{TakesOne, TakesEach, RefusesOne};

use crate::answers::Refusal;
use crate::merge_transaction::MergeTransaction;
use messages::BookRef;
use redo_core::{Advance, Cut, Fact, Record};

/// Takes exported facts into a merge transaction: of a book its truncations, each reader's point as an advance in its complete epoch,
/// its waiting advances, and then records, in that order.
///
/// Errors: as of the first of these facts that `take` refuses; `Memory`. The facts before it are then taken: drop the transaction,
/// which rolls the segment back.
pub fn import_facts(
    union: &mut MergeTransaction<'_>,
    book: &BookRef<'_>,
    records: &[&Record],
) -> Result<(), Refusal>
    ensures takes { OnOk result (TakesEach (reached union.old) (exported_facts book.now (map (λ r. r.now) records.now)) (reached union.new)) }
    ensures refused { IfErr result (λ e. (e ≡ MemoryOf) ⊎ RefusesOne (reached union.old) (exported_facts book.now (map (λ r. r.now) records.now)) e) }
    ensures began { began union.new ≡ began union.old }
{
    if let Err(why) = take_book(union, book) {
        return Err(why);
    }
    take_records(union, records)
}

/// Takes the facts of a book: truncations, each reader's point as an advance in the complete epoch, waiting advances.
fn take_book(union: &mut MergeTransaction<'_>, book: &BookRef<'_>) -> Result<(), Refusal>
    ensures takes { OnOk result (TakesEach (reached union.old) (book_facts book.now) (reached union.new)) }
    ensures refused { IfErr result (λ e. (e ≡ MemoryOf) ⊎ RefusesOne (reached union.old) (book_facts book.now) e) }
    ensures began { began union.new ≡ began union.old }
{
    let cuts = book.cuts();
    let complete = book.complete();
    let points = book.points();
    let waits = book.waits();
    if let Err(why) = take_cuts(union, cuts) {
        return Err(why);
    }
    if let Err(why) = take_points(union, complete, points) {
        return Err(why);
    }
    take_waits(union, waits)
}

/// Takes one fact, whether or not it is new.
fn take_one(union: &mut MergeTransaction<'_>, fact: Fact) -> Result<(), Refusal>
    ensures takes { OnOk result (TakesOne (reached union.old) fact (reached union.new)) }
    ensures refused { IfErr result (λ e. (e ≡ MemoryOf) ⊎ RefusesOne (reached union.old) (fact ∷ []) e) }
    ensures began { began union.new ≡ began union.old }
{
    // There is a complete epoch.
    union.segment().opens_form();
    match union.take(fact) {
        Ok(_) => Ok(()),
        Err(why) => Err(why),
    }
}

fn take_cuts(union: &mut MergeTransaction<'_>, cuts: &[Cut]) -> Result<(), Refusal>
    ensures takes { OnOk result (TakesEach (reached union.old) (map OfCut cuts.now) (reached union.new)) }
    ensures refused { IfErr result (λ e. (e ≡ MemoryOf) ⊎ RefusesOne (reached union.old) (map OfCut cuts.now) e) }
    ensures began { began union.new ≡ began union.old }
{
    for cut in cuts {
        if let Err(why) = take_one(union, Fact::Cut(*cut)) {
            return Err(why);
        }
    }
    Ok(())
}

/// Takes each reader's point as an advance in an epoch.
fn take_points(union: &mut MergeTransaction<'_>, epoch: u16, points: &[u64]) -> Result<(), Refusal>
    requires roster { length points.now ≤ max_readers }
    requires shaped { All (λ p. p ≤ max_number) points.now }
    ensures takes { OnOk result (TakesEach (reached union.old) (point_facts epoch 1 points.now) (reached union.new)) }
    ensures refused { IfErr result (λ e. (e ≡ MemoryOf) ⊎ RefusesOne (reached union.old) (point_facts epoch 1 points.now) e) }
    ensures began { began union.new ≡ began union.old }
{
    for (place, point) in points.iter().enumerate() {
        if let Err(why) = take_point(union, place as u8 + 1, epoch, *point) {
            return Err(why);
        }
    }
    Ok(())
}

/// Takes a reader's point as an advance in an epoch; a point of 0 makes none.
fn take_point(
    union: &mut MergeTransaction<'_>,
    reader: u8,
    epoch: u16,
    point: u64,
) -> Result<(), Refusal>
    requires reader { IsReader max_readers reader }
    requires shaped { point ≤ max_number }
    ensures takes { OnOk result (TakesEach (reached union.old) (point_facts epoch reader (point ∷ [])) (reached union.new)) }
    ensures refused { IfErr result (λ e. (e ≡ MemoryOf) ⊎ RefusesOne (reached union.old) (point_facts epoch reader (point ∷ [])) e) }
    ensures began { began union.new ≡ began union.old }
{
    match Advance::of_reader(reader, epoch, point) {
        Ok(advance) => take_one(union, Fact::Advance(advance)),
        Err(_) => Ok(()),
    }
}

fn take_waits(union: &mut MergeTransaction<'_>, waits: &[Advance]) -> Result<(), Refusal>
    ensures takes { OnOk result (TakesEach (reached union.old) (map OfAdvance waits.now) (reached union.new)) }
    ensures refused { IfErr result (λ e. (e ≡ MemoryOf) ⊎ RefusesOne (reached union.old) (map OfAdvance waits.now) e) }
    ensures began { began union.new ≡ began union.old }
{
    for wait in waits {
        if let Err(why) = take_one(union, Fact::Advance(*wait)) {
            return Err(why);
        }
    }
    Ok(())
}

fn take_records(union: &mut MergeTransaction<'_>, records: &[&Record]) -> Result<(), Refusal>
    ensures takes { OnOk result (TakesEach (reached union.old) (map (λ r. OfRecord r.now) records.now) (reached union.new)) }
    ensures refused { IfErr result (λ e. (e ≡ MemoryOf) ⊎ RefusesOne (reached union.old) (map (λ r. OfRecord r.now) records.now) e) }
    ensures began { began union.new ≡ began union.old }
{
    for redo in records {
        let copy = redo.copy()?;
        if let Err(why) = take_one(union, Fact::Record(copy)) {
            return Err(why);
        }
    }
    Ok(())
}
