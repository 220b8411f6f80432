ghost use Rattle.std.specs.Prelude.{◌≡◌, ◌≢◌, ◌⊎◌, map, OnOk, OnErr, IfErr};
ghost use Rattle.redo_core.specs.Order.{Lists, RecordBefore};
ghost use Rattle.redo_core.specs.Book.{roster_of};
ghost use Rattle.hot_log.specs.Missing.{IsMissing};
ghost use Rattle.segment_core.specs.Savepoint.{IsSavepointOf};
ghost use Rattle.segment_core.specs.Transaction.{began, reached};
ghost use Rattle.segment_core.specs.declared.answers.Refusal.TheVariants.{OtherRoster as OtherRosterOf, Memory as MemoryOf};
ghost use Rattle.segment_join.specs.Joining.{MeansUnion, AreOfOneLog, JoinsInto, TakesTold, RefusesJoin};
ghost use Rattle.segment_join.specs.Knowing.{TakesAll, RefusesAll, IsJoined};

use crate::holding::{hold_rest, newer_images};
use crate::missing::kept_among;
use redo_core::Record;
use segment_core::{MergeTransaction, Refusal, Savepoint, Segment, book_ref, import_facts};

/// Merges what another segment means into a segment, whatever each has folded and dropped.
///
/// Errors: `OtherRoster` where the two rosters differ; else as of the first fact that `take` would refuse, of the other's truncations, each
/// reader's point in the other's complete epoch, its waiting advances and its kept records; `Memory`. The segment is then as it was.
pub fn join(segment: &mut Segment, other: &Segment) -> Result<(), Refusal>
    // Inside one sound log.
    ensures means { OnOk result (MeansUnion segment.old other.now segment.new) }
    ensures sound { IfErr result (λ e. AreOfOneLog segment.old other.now → e ≡ MemoryOf) }
    // For arbitrary facts.
    ensures joins { OnOk result (JoinsInto segment.old other.now segment.new) }
    ensures takes { OnOk result (TakesTold segment.old other.now) }
    ensures refused { IfErr result (λ e. (e ≡ MemoryOf) ⊎ RefusesJoin segment.old other.now e) }
    ensures roster { IfErr result (λ e. roster_of segment.old.book ≢ roster_of other.now.book → e ≡ OtherRosterOf (roster_of segment.old.book) (roster_of other.now.book)) }
    ensures unchanged { OnErr result (segment.new ≡ segment.old) }
{
    let (own, shown) = (segment.readers(), other.readers());
    if own != shown {
        return Err(Refusal::OtherRoster { own, shown });
    }
    bring_in(segment, other)
}

/// Takes what another segment of the same roster exports, inserts the rest of what it stores, and takes its newer images. A refusal leaves
/// the segment as it was: it drops the transaction, which rolls it back.
fn bring_in(segment: &mut Segment, other: &Segment) -> Result<(), Refusal>
    requires { roster_of segment.old.book ≡ roster_of other.now.book }
    ensures joins { OnOk result (JoinsInto segment.old other.now segment.new) }
    ensures takes { OnOk result (TakesTold segment.old other.now) }
    ensures refused { IfErr result (λ e. (e ≡ MemoryOf) ⊎ RefusesAll segment.old other.now e) }
    ensures unchanged { OnErr result (segment.new ≡ segment.old) }
{
    let mut saved = segment.savepoint()?;
    join_saved(segment, &mut saved, other)
}

/// The same, with a savepoint of the segment as it is.
fn join_saved(segment: &mut Segment, saved: &mut Savepoint, other: &Segment) -> Result<(), Refusal>
    requires roster { roster_of segment.old.book ≡ roster_of other.now.book }
    requires saved { IsSavepointOf segment.old saved.old }
    ensures joins { OnOk result (JoinsInto segment.old other.now segment.new) }
    ensures takes { OnOk result (TakesTold segment.old other.now) }
    ensures refused { IfErr result (λ e. (e ≡ MemoryOf) ⊎ RefusesAll segment.old other.now e) }
    ensures unchanged { OnErr result (segment.new ≡ segment.old) }
{
    segment.opens_form();
    let images = newer_images(segment, other)?;
    let mut union = MergeTransaction::begin(segment, saved);
    if let Err(why) = know_and_hold(&mut union, other) {
        return Err(why);
    }
    union.unite(other.base_point(), other.floor(), images)?;
    Ok(())
}

/// Takes what another segment exports, and inserts the rest of what it stores.
fn know_and_hold(union: &mut MergeTransaction<'_>, other: &Segment) -> Result<(), Refusal>
    ensures joined { OnOk result (IsJoined (reached union.old) other.now (reached union.new)) }
    ensures refused { IfErr result (λ e. (e ≡ MemoryOf) ⊎ RefusesAll (reached union.old) other.now e) }
    ensures began { began union.new ≡ began union.old }
{
    union.segment().opens_form();
    let missing = union.segment().missing(other)?;
    if let Err(why) = take_all(union, other, &missing) {
        return Err(why);
    }
    hold_rest(union, other, &missing)?;
    Ok(())
}

/// Takes each fact that another segment exports, but skips the records that the segment stores already: they would change nothing.
fn take_all(
    union: &mut MergeTransaction<'_>,
    other: &Segment,
    missing: &[&Record],
) -> Result<(), Refusal>
    requires { Lists RecordBefore (IsMissing (reached union.old).held other.now.held) (map (λ x. x.now) missing.now) }
    ensures takes { OnOk result (TakesAll (reached union.old) other.now (reached union.new)) }
    ensures refused { IfErr result (λ e. (e ≡ MemoryOf) ⊎ RefusesAll (reached union.old) other.now e) }
    ensures began { began union.new ≡ began union.old }
{
    union.segment().opens_form();
    other.opens_form();
    let kept = kept_among(other, missing)?;
    // Called only for its postcondition: the kept records are those above the anchor.
    let _anchor = other.anchor();
    import_facts(union, &book_ref(other), &kept)
}
