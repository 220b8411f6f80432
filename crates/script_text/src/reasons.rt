//! Why a line is bad, and the words for it.

ghost use Rattle.std.specs.Prelude.{◌≡◌};
ghost use Rattle.script_text.specs.declared.reasons.FactError.TheVariants.{Memory, Bad};

use redo_core::ShapeFault;
use std::alloc::{AllocError, AllocFailed};
use std::fmt;
use thiserror::Error;

/// Why a word is no number.
#[derive(Clone, Copy, Debug, PartialEq, Eq, Error)]
pub enum NumberFault {
    Empty,
    NotDigits,
    LeadingZero,
    Above(u64),
}

impl fmt::Display for NumberFault {
    fn fmt<W: fmt::Write>(&self, f: &mut fmt::Formatter<W>) -> fmt::Result {
        f.write_str(match self {
            NumberFault::Above(limit) => return write!(f, "is above {limit}"),
            NumberFault::Empty =>
                "is empty: exactly one space separates two fields, and a line neither starts nor ends with a space",
            NumberFault::NotDigits => "has a byte that is not a decimal digit",
            NumberFault::LeadingZero => "has a leading zero",
        })
    }
}

/// Why a word is no patch, OFF:HEX or OFF*LEN:HH.
#[derive(Clone, Copy, Debug, PartialEq, Eq, Error)]
pub enum PatchFault {
    Colon,
    Place,
    Digits,
    NoBytes,
    FillBytes,
}

impl fmt::Display for PatchFault {
    fn fmt<W: fmt::Write>(&self, f: &mut fmt::Formatter<W>) -> fmt::Result {
        f.write_str(match self {
            PatchFault::Colon => "must have exactly one colon",
            PatchFault::Place =>
                "must start with OFF, at most 65535, or with OFF*LEN, where LEN is at most 4096",
            PatchFault::Digits => "must have an even number of digits, all hexadecimal",
            PatchFault::NoBytes => "has no bytes",
            PatchFault::FillBytes => "is a fill and must have exactly one byte",
        })
    }
}

/// Why a line is bad. Fields are numbered from 1, the word that begins the line first, and patches from 1.
#[derive(Clone, Copy, Debug, PartialEq, Eq, Error)]
pub enum LineReason {
    CarriageReturn,
    UnknownWord,
    FieldCount { wanted: usize },
    AdvanceFieldCount,
    Field { at: usize, fault: NumberFault },
    Zero { at: usize },
    PastPage,
    ManyPatches,
    Patch { at: usize, fault: PatchFault },
    Shape(ShapeFault),
}

impl fmt::Display for LineReason {
    fn fmt<W: fmt::Write>(&self, f: &mut fmt::Formatter<W>) -> fmt::Result {
        f.write_str(match self {
            LineReason::FieldCount { wanted } => return write!(
                f,
                "it must have {wanted} fields after its first word"
            ),
            LineReason::Field { at, fault } => return write!(f, "field {at} {fault}"),
            LineReason::Zero { at } => return write!(f, "field {at} is 0"),
            LineReason::Patch { at, fault } => return write!(f, "patch {at} of field 7 {fault}"),
            LineReason::Shape(fault) => return fmt::Display::fmt(fault, f),
            LineReason::CarriageReturn => "it ends with CR, but lines end with LF alone",
            LineReason::UnknownWord => "its first word is unknown or not allowed here",
            LineReason::AdvanceFieldCount => "it must have 2 or 3 fields after `min`",
            LineReason::PastPage => "the bytes to read end past the page, which has 4096",
            LineReason::ManyPatches => "field 7 has more than 64 patches",
        })
    }
}

/// Why no fact was read of a line.
#[derive(Clone, Copy, Debug, PartialEq, Eq)]
pub enum FactError {
    Memory,
    /// The line encodes none.
    Bad(LineReason),
}

impl From<AllocError> for FactError {
    ghost from_gives = { λ _ e. e ≡ Memory };

    fn from(_e: AllocError) -> FactError {
        FactError::Memory
    }
}

impl<T: Drop> From<AllocFailed<T>> for FactError {
    ghost from_gives = { λ _ e. e ≡ Memory };

    fn from(_e: AllocFailed<T>) -> FactError {
        FactError::Memory
    }
}

impl From<LineReason> for FactError {
    ghost from_gives = { λ r e. e ≡ Bad r };

    fn from(reason: LineReason) -> FactError {
        FactError::Bad(reason)
    }
}

/// Why a line of a whole text is bad.
#[derive(Clone, Copy, Debug, PartialEq, Eq, Error)]
pub enum TextReason {
    NoGo,
    NoNodes,
    NoLineEnd,
    ManyFacts,
    ManySteps,
    Line(LineReason),
}

impl fmt::Display for TextReason {
    fn fmt<W: fmt::Write>(&self, f: &mut fmt::Formatter<W>) -> fmt::Result {
        f.write_str(match self {
            TextReason::Line(reason) => return fmt::Display::fmt(reason, f),
            TextReason::NoGo => "the text ends before the line `go`",
            TextReason::NoNodes => "the text ends before the line `nodes K`",
            TextReason::NoLineEnd => "it does not end with LF",
            TextReason::ManyFacts => "there are more than 1,000,000 fact lines",
            TextReason::ManySteps => "there are more than 1,000,000 step lines",
        })
    }
}
