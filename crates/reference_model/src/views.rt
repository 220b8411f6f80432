/// The standing of a record in the view of an epoch.
#[derive(Clone, Copy, Debug, PartialEq, Eq)]
pub enum ModelStanding {
    /// Its epoch is above the view.
    Waiting,
    /// Its LSN is above the `hi` of its own epoch, and no truncation up to the view annuls it.
    Alive,
    /// It is annulled, or its LSN is not above the `hi` of its own epoch.
    Dead,
}

/// The position of a set of facts.
#[derive(Drop)]
pub struct Position {
    /// The complete epoch.
    pub epoch: u16,
    /// The complete point: the greatest linked LSN.
    pub complete: u64,
    /// Each reader's point, by reader.
    pub points: Vec<u64>,
    /// The minimum read point: the least of the points.
    pub min: u64,
    /// The greatest linked LSN that is not above the minimum read point.
    pub anchor: u64,
}
