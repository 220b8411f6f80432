//! Theorems about what sets of facts mean, from the definitions alone: each is a function with an empty body, and its contract is
//! the theorem.
//!
//! A part of a sound log knows its own prefix of the log (prefix), what it knows up to its anchor is final (finality), its front and
//! its pages up to its complete point are the whole log's (front of part, page of part), and a meaning represents its part in every
//! union, order and read (congruence, order by parts, least upper bound, answers). A quorum's position is kept by every union that
//! meets it (overlap). The other theorems state that the definitions are well formed.
#![tactic(auto)]

ghost use Rattle.log_theorems.specs.OrderOfMeanings.{Congruence, OrderByParts, LeastUpperBound, Associativity, Commutativity, Idempotence};
ghost use Rattle.log_theorems.specs.OneReader.{OneReader, OneReaderKeeps};
ghost use Rattle.log_theorems.specs.Overlap.{Overlap};
ghost use Rattle.log_theorems.specs.Parts.{Prefix, Finality, FrontOfPart, PageOfPart};
ghost use Rattle.log_theorems.specs.Passing.{PastByPoints, NonePassed};
ghost use Rattle.log_theorems.specs.Sample.{SampleIsSound};
ghost use Rattle.log_theorems.specs.Stored.{StoredImages};
ghost use Rattle.log_theorems.specs.WellFormed.{OnePosition, OnePage, OneMeaning, OnlyMembersCount, OneAnswer, OneFault, NoFault};

/// Up to a linked LSN, a part of a sound log has every record of the log that is alive in the part's view.
pub fn prefix()
    ensures { Prefix }
{}

/// What is linked up to the anchor stays so in every larger part of the log, and the anchor never falls.
pub fn finality()
    ensures { Finality }
{}

/// The complete epoch and the complete point of a part of a sound log are a front of the log.
pub fn front_of_part()
    ensures { FrontOfPart }
{}

/// Up to the complete point, a page of a part is the log's own in the view of the part's complete epoch.
pub fn page_of_part()
    ensures { PageOfPart }
{}

/// Two parts of one meaning still have one meaning after a union with the same facts.
pub fn congruence()
    ensures { Congruence }
{}

/// One meaning covers another exactly where it means a part of the log that contains a part of the other meaning.
pub fn order_by_parts()
    ensures { OrderByParts }
{}

/// The meaning of a union is the least upper bound of both meanings.
pub fn least_upper_bound()
    ensures { LeastUpperBound }
{}

/// The meaning of a union does not depend on how its parts are grouped.
pub fn associativity()
    ensures { Associativity }
{}

/// The meaning of a union does not depend on the order of its parts.
pub fn commutativity()
    ensures { Commutativity }
{}

/// A union of a set of facts with itself means what the set means.
pub fn idempotence()
    ensures { Idempotence }
{}

/// A meaning determines the position and every page of each part that has it.
pub fn answers()
    ensures { OneAnswer }
{}

/// Each part of a sound log has one meaning.
pub fn one_meaning()
    ensures { OneMeaning }
{}

/// Each part of a sound log has one complete epoch, complete point, minimum read point and anchor.
pub fn one_position()
    ensures { OnePosition }
{}

/// In a view whose truncations are known, each page has one image at each point.
pub fn one_page()
    ensures { OnePage }
{}

/// Order and repetition of facts do not matter: lists of the same facts have the same positions, pages and meanings.
pub fn only_members_count()
    ensures { OnlyMembersCount }
{}

/// A log has at most one first fault, the least index that breaks a law with the least law that it breaks; a sound log has none.
pub fn one_fault()
    ensures one { OneFault }
    ensures none { NoFault }
{}

/// Where a quorum of parts has reached a position, so has the union of every choice of parts that is sure to meet the quorum.
pub fn overlap()
    ensures { Overlap }
{}

/// With one reader, the minimum read point is the greatest effective point.
pub fn one_reader()
    ensures { OneReader }
{}

/// With one reader, an advance is kept where no later truncation cuts below its point.
pub fn one_reader_keeps()
    ensures { OneReaderKeeps }
{}

/// All readers are past a truncation where its `lo` is below the least of their points by the advances of earlier epochs.
pub fn past_by_points()
    ensures { PastByPoints }
{}

/// The advances of a log are kept from later truncations where no truncation has all readers past it.
pub fn none_passed()
    ensures { NonePassed }
{}

/// Among images that rise by page, a page's version and image are those of its stored image, or the default version and zeros.
pub fn stored_images()
    ensures { StoredImages }
{}

/// A log with a fact of each kind is sound, so the theorems are not vacuous.
pub fn sample_is_sound()
    ensures { SampleIsSound }
{}
