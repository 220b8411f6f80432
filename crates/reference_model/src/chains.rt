/// The two chains in which a record has a backlink.
#[derive(Clone, Copy)]
pub(crate) enum Chain {
    /// All records of the segment.
    Segment,
    /// The records of one page.
    Block,
}
