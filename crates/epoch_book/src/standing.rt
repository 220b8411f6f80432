/// The standing of a record in a book's view.
#[derive(Clone, Copy, Debug, PartialEq, Eq)]
pub enum Standing {
    /// Its epoch is known, its LSN is above the epoch's `hi`, and no truncation annuls it.
    Alive,
    /// Its epoch is known, and it is not alive.
    Dead,
    /// Its epoch is above the complete epoch.
    Waiting,
}
