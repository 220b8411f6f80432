ghost use Rattle.std.specs.Prelude.{◌≡◌, ◌↔◌, IsTrue, IfOk};

use crate::advances::Advance;
use crate::cuts::Cut;
use crate::records::Record;
use std::alloc::AllocError;

/// What a database sends to its segments: a redo record, a truncation, or an advance of a reader's point.
#[derive(Drop)]
pub enum Fact {
    Record(Record),
    Cut(Cut),
    Advance(Advance),
}

impl Fact {
    /// An equal fact; a record's is one more owner of it. It allocates nothing; the error means that the owner count would overflow.
    pub fn copy(&self) -> Result<Self, AllocError>
        ensures { IfOk result (λ f. f ≡ self.now) }
    {
        self.clone()
    }

    /// Whether the other fact equals this one.
    pub fn is_same(&self, other: &Fact) -> bool
        ensures same { IsTrue result ↔ (self.now ≡ other.now) }
    {
        match (self, other) {
            (Fact::Record(one), Fact::Record(two)) => one.is_same(two),
            (Fact::Cut(one), Fact::Cut(two)) => *one == *two,
            (Fact::Advance(one), Fact::Advance(two)) => *one == *two,
            _ => false,
        }
    }
}

impl Clone for Fact {
    ghost is_clone = { λ f copied. copied ≡ f };

    fn clone(&self) -> Result<Self, AllocError> {
        match self {
            Fact::Record(redo) => Ok(Fact::Record(redo.clone()?)),
            Fact::Cut(cut) => Ok(Fact::Cut(*cut)),
            Fact::Advance(advance) => Ok(Fact::Advance(*advance)),
        }
    }
}
