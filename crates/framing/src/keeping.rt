//! What is kept of a request that has not ended.

/// What is known of a line or a frame of which a part has arrived.
#[derive(Clone, Copy)]
pub enum Keeping {
    /// Its bytes are kept.
    Whole,
    /// It is longer than the limit.
    Long,
    /// There was no memory for its bytes.
    Lost,
}
