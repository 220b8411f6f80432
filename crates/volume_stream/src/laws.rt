//! That engines and nodes understand each other. Each law is the contract of a function that does nothing.

ghost use Rattle.volume_stream.specs.Carried.{RequestsAreRead, RepliesAreRead};
ghost use Rattle.volume_stream.specs.Calling.{EventsAreHeard};

/// A node reads in the frame of an engine's request that request.
pub fn requests_are_read()
    ensures { RequestsAreRead }
{}

/// An engine reads in the frame of a node's reply that reply, where it listens to it.
pub fn replies_are_read()
    ensures { RepliesAreRead }
{}

/// The machine hears in the frame of an event that event; a node has answered with the frame of its reply.
pub fn events_are_heard()
    ensures { EventsAreHeard }
{}
