//! What a stored state of a segment means, and the theorems about its changes, from the definitions alone.
//!
//! A segment keeps no set of the facts that it took: `Means` relates its book, stored records, base point and images to the facts
//! that they represent. A segment's contracts say how a step changes what it stores (`StoresCut`, `PutsRecord`, `RemovesFolded`
//! and others), and a theorem of this crate derives the promise of its call (`TakesFact`, `KeepsMeaning`). Its results are those of
//! the facts by the theorems of links, positions, pages and meanings. Each theorem is a function with an empty body.
#![tactic(auto)]

ghost use Rattle.segment_theorems.specs.Laws.{EmptyMeansNone, SameLinks, SamePosition, SameAnchor, TruePages, WholeBlockChains, SameMeaning, SameKept};
ghost use Rattle.segment_theorems.specs.Laws.{UnchangedExactly, TakesKnown, NoConflict, TakesRecord, TakesCut, TakesAdvance};
ghost use Rattle.segment_theorems.specs.Laws.{FinalPages, AnchorPageIsFinal, CommitKeeps, FoldKeeps, DiscardKeeps, RemovalKeeps};
ghost use Rattle.segment_theorems.specs.AnswersAs.{StatesAnswer};
ghost use Rattle.segment_theorems.specs.FromInit.{InitBeginsAnew};
ghost use Rattle.segment_theorems.specs.Gossip.{AbsorbMeansUnion, ReplyFills};
ghost use Rattle.segment_theorems.specs.Joining.{JoinMeansUnion};
ghost use Rattle.segment_theorems.specs.Restoring.{RestoreKeeps};
ghost use Rattle.segment_theorems.specs.Stored.{PutCommits};

/// A segment that stores nothing means no facts.
pub fn empty_means_none()
    ensures { EmptyMeansNone }
{}

/// From the base point on, the LSNs that the stored records link are those that the facts link.
pub fn same_links()
    ensures { SameLinks }
{}

/// The complete epoch, complete point, minimum read point and anchor that a segment computes are those of its facts.
pub fn same_position()
    ensures { SamePosition }
{}

/// The same for the complete epoch and the anchor alone, for a segment that needs no complete point.
pub fn same_anchor()
    ensures { SameAnchor }
{}

/// From the anchor to the complete point, an image with the stored records above its version is the page of the facts.
pub fn true_pages()
    ensures { TruePages }
{}

/// Each block backlink leads into the image or to the record applied before it, so no read of a sound log finds a gap.
pub fn whole_block_chains()
    ensures { WholeBlockChains }
{}

/// The meaning computed from what a segment stores is the meaning of its facts.
pub fn same_meaning()
    ensures { SameMeaning }
{}

/// The records that a segment must keep are those that its facts keep.
pub fn same_kept()
    ensures { SameKept }
{}

/// A fact leaves the meaning unchanged exactly where the segment knows it.
pub fn unchanged_exactly()
    ensures { UnchangedExactly }
{}

/// A segment that knows a fact has taken it.
pub fn takes_known()
    ensures { TakesKnown }
{}

/// In a sound log, no fact conflicts with what a segment stores.
pub fn no_conflict()
    ensures { NoConflict }
{}

/// With one more stored record, a segment means the facts with the record.
pub fn takes_record()
    ensures { TakesRecord }
{}

/// With one more truncation, and the waiting advances that then take effect, a segment means the facts with the truncation.
pub fn takes_cut()
    ensures { TakesCut }
{}

/// With one more advance, effective or waiting, a segment means the facts with the advance.
pub fn takes_advance()
    ensures { TakesAdvance }
{}

/// A page at a version that is stable in some part of the log is the page of every segment of the log where it is stable.
pub fn final_pages()
    ensures { FinalPages }
{}

/// The page of a segment at its anchor is final.
pub fn anchor_page_is_final()
    ensures { AnchorPageIsFinal }
{}

/// A commit of a final page at a version up to the anchor keeps the meaning.
pub fn commit_keeps()
    ensures { CommitKeeps }
{}

/// A fold of a page to the segment's own anchor keeps the meaning.
pub fn fold_keeps()
    ensures { FoldKeeps }
{}

/// A discard up to the anchor of records that their pages' images contain keeps the meaning.
pub fn discard_keeps()
    ensures { DiscardKeeps }
{}

/// A removal of dead records keeps the meaning.
pub fn removal_keeps()
    ensures { RemovalKeeps }
{}

/// A segment rebuilt from another one's book, its pages at the anchor and its kept records means what that one means.
pub fn restore_keeps()
    ensures { RestoreKeeps }
{}

/// An image that replaces its page's is committed, and no other page changes.
pub fn put_commits()
    ensures { PutCommits }
{}

/// What two segments know together means the union of what they mean.
pub fn join_means_union()
    ensures { JoinMeansUnion }
{}

/// A reply fills what its summary lacks.
pub fn reply_fills()
    ensures { ReplyFills }
{}

/// A segment that answers for a summary means the union after it absorbs the delta that was made for it.
pub fn absorb_means_union()
    ensures { AbsorbMeansUnion }
{}

/// A record with `init` and those after it give the segment's page, so a walk down its block chain may stop there.
pub fn init_begins_anew()
    ensures { InitBeginsAnew }
{}

/// A segment that means facts of a sound log gives their results: it has their position, their page at each admissible point, and
/// their meaning.
pub fn states_answer()
    ensures { StatesAnswer }
{
    same_position();
    true_pages();
    same_meaning();
}
