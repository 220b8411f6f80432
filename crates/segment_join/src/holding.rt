ghost use Rattle.std.specs.Prelude.{◌≡◌, ◌↔◌, ◌⊎◌, ◌≤◌, map, IfOk, OnOk, IsTrue};
ghost use Rattle.std.specs.List.{Contains};
ghost use Rattle.redo_core.specs.Data.{RecordData};
ghost use Rattle.redo_core.specs.Keys.{key_of};
ghost use Rattle.segment_theorems.specs.State.{version_of};
ghost use Rattle.segment_core.specs.Transaction.{began, reached};
ghost use Rattle.segment_join.specs.Holding.{IsNeedless, HoldsRest};
ghost use Rattle.segment_join.specs.Knowing.{HoldsAt, KnowsKept};
ghost use Rattle.segment_join.specs.Newer.{AreNewer};

use crate::missing::keeps;
use redo_core::Record;
use segment_core::{BaseImage, MergeTransaction, Segment, Standing};
use std::alloc::AllocError;

/// Inserts into a segment what another one stores, but for what is dead in the segment's view or folded in one of the two. `missing` is
/// what the segment did not store of it; what the other one keeps of that was taken before.
pub(crate) fn hold_rest(
    union: &mut MergeTransaction<'_>,
    other: &Segment,
    missing: &[&Record],
) -> Result<(), AllocError>
    requires known { (r : RecordData) → Contains other.now.held r → Contains (reached union.old).held r ⊎ Contains (map (λ x. x.now) missing.now) r }
    requires held { (r : RecordData) → Contains (map (λ x. x.now) missing.now) r → Contains other.now.held r }
    requires taken { KnowsKept (reached union.old) other.now }
    ensures holds { OnOk result (HoldsRest (reached union.old) other.now (reached union.new)) }
    ensures began { began union.new ≡ began union.old }
{
    // A key has at most one record.
    other.opens_form();
    for redo in missing {
        hold_one(union, other, redo)?;
    }
    Ok(())
}

/// Inserts the other segment's record, where the segment stores none under its key.
fn hold_one(
    union: &mut MergeTransaction<'_>,
    other: &Segment,
    redo: &Record,
) -> Result<(), AllocError>
    requires held { Contains other.now.held redo.now }
    requires taken { KnowsKept (reached union.old) other.now }
    ensures holds { OnOk result (HoldsAt (reached union.old) other.now (key_of redo.now) (reached union.new)) }
    ensures began { began union.new ≡ began union.old }
{
    // A key has at most one record.
    other.opens_form();
    // Much of what is missing has just been taken, or was folded in the segment: both tests are cheaper than a look-up.
    if is_taken(union.segment(), other, redo) {
        return Ok(());
    }
    if is_needless(union.segment(), other, redo) {
        return Ok(());
    }
    if union.segment().holds_key(redo.key()) {
        return Ok(());
    }
    union.hold(redo.copy()?)
}

/// Whether both segments keep a record that the other one stores. The segment has taken all that the other one keeps, so it then stores
/// the record too. The test needs no look-up.
fn is_taken(segment: &Segment, other: &Segment, redo: &Record) -> bool
    requires held { Contains other.now.held redo.now }
    requires taken { KnowsKept segment.now other.now }
    ensures { IsTrue result → Contains segment.now.held redo.now }
{
    segment.keeps(redo.key(), segment.anchor()) && keeps(other, other.anchor(), redo)
}

/// Whether a segment needs no copy of another one's record: it is dead in the segment's view, or does not wait in it and is folded in
/// one of the two.
fn is_needless(segment: &Segment, other: &Segment, redo: &Record) -> bool
    ensures { IsTrue result ↔ IsNeedless segment.now other.now redo.now }
{
    match segment.stands(redo.epoch(), redo.number()) {
        Standing::Dead => true,
        Standing::Waiting => false,
        Standing::Alive => is_folded(segment, redo) || is_folded(other, redo),
    }
}

/// Whether a record is at or below a segment's base point and the version of its page there.
fn is_folded(segment: &Segment, redo: &Record) -> bool
    ensures { IsTrue result ↔ ((redo.now.number ≤ segment.now.base) × (redo.now.number ≤ version_of segment.now.store redo.now.page)) }
{
    redo.number() <= segment.base_point() && redo.number() <= segment.version(redo.page())
}

/// Copies of the other segment's images that are newer than the segment's own.
pub(crate) fn newer_images(segment: &Segment, other: &Segment) -> Result<Vec<BaseImage>, AllocError>
    ensures { IfOk result (λ v. AreNewer segment.now.store other.now.store v.items) }
{
    let mut newer = Vec::new(segment.allocator());
    for image in other.pages() {
        if segment.version(image.page()) < image.version() {
            newer.push(image.copy()?)?;
        }
    }
    Ok(newer)
}
