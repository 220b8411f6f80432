use volume::Event;

/// What the bytes of a frame say.
#[derive(Drop)]
pub enum Heard {
    Event(Event),
    /// An answer of a node to which no engine listens: it changes nothing.
    Nothing,
    /// No event.
    Unknown,
}
