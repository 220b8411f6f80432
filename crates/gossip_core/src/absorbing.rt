ghost use Rattle.std.specs.Prelude.{◌≡◌, ◌⊎◌, map, IfOk, OnOk, IfErr, OnErr};
ghost use Rattle.redo_core.specs.Book.{roster_of};
ghost use Rattle.segment_core.specs.Savepoint.{IsSavepointOf};
ghost use Rattle.segment_core.specs.Transaction.{began, reached};
ghost use Rattle.segment_core.specs.declared.answers.Refusal.TheVariants.{Memory as MemoryOf};
ghost use Rattle.segment_core.specs.Exported.{exported_facts};
ghost use Rattle.segment_core.specs.InOrder.{TakesEach, RefusesOne};
ghost use Rattle.gossip_core.specs.declared.absorbing.AbsorbRefusal.TheVariants.{Refused as RefusedFor, Uncovered as UncoveredBy};
ghost use Rattle.gossip_core.specs.declared.answering.Shown.{Shown as AnyShown};
ghost use Rattle.gossip_core.specs.Absorbing.{based_image, MeansBoth, IsOfOneLog, Answers, AbsorbsInto, RefusesAbsorb, ReportsRoster};

use crate::answering::{Shown, uncovered};
use messages::{Delta, PageImage, Summary};
use page_base::BaseImage;
use redo_core::Record;
use segment_core::{MergeTransaction, Refusal, Savepoint, Segment, import_facts};
use std::alloc::{AllocError, Global};
use thiserror::Error;

/// Why a delta is not absorbed.
#[derive(Clone, Copy, Debug, PartialEq, Eq, Error)]
pub enum AbsorbRefusal {
    /// The segment does not answer for the summary that the delta was made for: `shown` is uncovered.
    #[error("the segment does not cover the summary")]
    Uncovered { shown: Shown },
    /// A fact that the delta exports is refused.
    #[error("a fact of the delta is refused")]
    Refused(Refusal),
}

/// Merges into a segment what a delta has beyond the summary that it was made for.
///
/// Errors: `OtherRoster` exactly where the two rosters differ; else `Uncovered` exactly where the segment does not answer for the
/// summary; else as of the first fact that `take` would refuse, of the delta's truncations, each reader's point in its complete epoch,
/// its waiting advances and its records (over a sound log lack of memory alone). The segment is then as it was.
pub fn absorb(segment: &mut Segment, summary: &Summary, delta: &Delta) -> Result<(), AbsorbRefusal>
    // Inside one sound log.
    ensures means { OnOk result (MeansBoth segment.old summary.now delta.now segment.new) }
    ensures sound { IfErr result (λ e. IsOfOneLog segment.old summary.now delta.now → (e ≡ RefusedFor MemoryOf) ⊎ ((shown : AnyShown) × (e ≡ UncoveredBy shown))) }
    // For arbitrary facts.
    ensures absorbs { OnOk result (AbsorbsInto segment.old delta.now segment.new) }
    ensures answers { OnOk result (Answers segment.old summary.now) }
    ensures refused { IfErr result (RefusesAbsorb segment.old summary.now delta.now) }
    ensures roster { ReportsRoster segment.old delta.now result }
    ensures unchanged { OnErr result (segment.new ≡ segment.old) }
{
    delta.opens_form();
    // Called only for its postcondition: a segment has an anchor.
    let _anchor = segment.anchor();
    let own = segment.readers();
    let shown = delta.book().readers();
    if own != shown {
        return Err(AbsorbRefusal::Refused(Refusal::OtherRoster { own, shown }));
    }
    if let Some(shown) = uncovered(segment, summary) {
        return Err(AbsorbRefusal::Uncovered { shown });
    }
    match take_delta(segment, delta) {
        Ok(()) => Ok(()),
        Err(why) => Err(AbsorbRefusal::Refused(why)),
    }
}

/// Takes what a delta of the same roster exports and its pages, whatever summary it was made for. A refusal leaves the segment as it was:
/// it drops the transaction, which rolls it back.
fn take_delta(segment: &mut Segment, delta: &Delta) -> Result<(), Refusal>
    requires { roster_of segment.old.book ≡ roster_of delta.now.book }
    ensures absorbs { OnOk result (AbsorbsInto segment.old delta.now segment.new) }
    ensures refused { IfErr result (λ e. (e ≡ MemoryOf) ⊎ RefusesOne segment.old (exported_facts delta.now.book delta.now.records) e) }
    ensures unchanged { OnErr result (segment.new ≡ segment.old) }
{
    let mut saved = segment.savepoint()?;
    take_saved(segment, &mut saved, delta)
}

/// The same, with a savepoint of the segment as it is.
fn take_saved(segment: &mut Segment, saved: &mut Savepoint, delta: &Delta) -> Result<(), Refusal>
    requires roster { roster_of segment.old.book ≡ roster_of delta.now.book }
    requires saved { IsSavepointOf segment.old saved.old }
    ensures absorbs { OnOk result (AbsorbsInto segment.old delta.now segment.new) }
    ensures refused { IfErr result (λ e. (e ≡ MemoryOf) ⊎ RefusesOne segment.old (exported_facts delta.now.book delta.now.records) e) }
    ensures unchanged { OnErr result (segment.new ≡ segment.old) }
{
    segment.opens_form();
    let base = delta.base();
    let images = images_at(segment.allocator(), base, delta.pages())?;
    let mut union = MergeTransaction::begin(segment, saved);
    if let Err(why) = take_facts(&mut union, delta) {
        return Err(why);
    }
    union.unite(base, base, images)?;
    Ok(())
}

/// Takes each fact that a delta exports.
fn take_facts(union: &mut MergeTransaction<'_>, delta: &Delta) -> Result<(), Refusal>
    ensures takes { OnOk result (TakesEach (reached union.old) (exported_facts delta.now.book delta.now.records) (reached union.new)) }
    ensures refused { IfErr result (λ e. (e ≡ MemoryOf) ⊎ RefusesOne (reached union.old) (exported_facts delta.now.book delta.now.records) e) }
    ensures began { began union.new ≡ began union.old }
{
    let records = each_of(union.segment().allocator(), delta.records())?;
    import_facts(union, &delta.book().lend(), &records)
}

/// References to each of the records.
fn each_of(alloc: Global, records: &[Record]) -> Result<Vec<&Record>, AllocError>
    ensures { IfOk result (λ v. map (λ r. r.now) v.items ≡ records.now) }
{
    let mut each = Vec::with_capacity(alloc, records.len())?;
    for redo in records {
        each.push(redo)?;
    }
    Ok(each)
}

/// A delta's pages as images at its base.
fn images_at(alloc: Global, base: u64, pages: &[PageImage]) -> Result<Vec<BaseImage>, AllocError>
    ensures { IfOk result (λ v. v.items ≡ map (based_image base) pages.now) }
{
    let mut images = Vec::new(alloc);
    for image in pages {
        images.push(BaseImage::new(image.number(), base, image.shared_page().share()?))?;
    }
    Ok(images)
}
