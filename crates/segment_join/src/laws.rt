//! The theorems of merging, for the parts of every sound log, whatever each segment has folded and dropped.
//!
//! `order_by_parts`: one meaning covers another exactly where it means a part of the log that contains a part of the other meaning.
//! `antisymmetry`: two meanings of one log that cover each other are one. `least_upper_bound`: the meaning of a union covers both, and
//! each meaning that covers both covers it; it depends neither on how the parts are grouped (`associativity`), nor on their order
//! (`commutativity`), nor on how often each arrives (`idempotence`). `congruence`: two parts of one meaning stay so after each takes
//! the same facts. `answers`: parts of one meaning have one front, and one page at each read point. `overlap`: a position of the log that a
//! write quorum has reached is reached by the union of each read quorum that is sure to meet it; of six segments, write four, read
//! three (`write_four_read_three`).
//!
//! `same_meaning`: the meaning that a segment has by itself is the meaning of its facts. `join_means_union`: a segment that knows what
//! two know together means the union of what they mean. So of segments that are joined: the joined one is the least above both
//! (`joins_are_least`), and which is joined into which, in what order and how often does not matter (`joins_commute`,
//! `joins_associate`, `join_with_itself`, `joins_agree`).
ghost use Rattle.segment_join.specs.Laws.{Antisymmetry, JoinsAreLeast, JoinsCommute, JoinsAssociate, JoinWithItself, JoinsAgree, WriteFourReadThree};

pub use log_theorems::{
    answers, associativity, commutativity, congruence, idempotence, least_upper_bound,
    order_by_parts, overlap,
};
pub use segment_theorems::{join_means_union, same_meaning};

/// Two meanings of one log that cover each other are one.
pub fn antisymmetry()
    ensures { Antisymmetry }
{}

/// A joined segment covers both, and each segment that covers both covers it.
pub fn joins_are_least()
    ensures { JoinsAreLeast }
{
    same_meaning();
    order_by_parts();
    least_upper_bound();
}

/// Two segments joined into each other mean the same.
pub fn joins_commute()
    ensures { JoinsCommute }
{
    same_meaning();
    commutativity();
}

/// Three segments mean the same together, in whichever order they are joined.
pub fn joins_associate()
    ensures { JoinsAssociate }
{
    same_meaning();
    associativity();
}

/// A segment that is joined with a copy of itself means what it meant.
pub fn join_with_itself()
    ensures { JoinWithItself }
{
    same_meaning();
    idempotence();
}

/// Two segments that mean the same still do after a third is joined into each.
pub fn joins_agree()
    ensures { JoinsAgree }
{
    same_meaning();
    congruence();
}

/// Of six segments, what four have reached every three together have.
pub fn write_four_read_three()
    ensures { WriteFourReadThree }
{
    overlap();
}
