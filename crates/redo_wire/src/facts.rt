//! Reading and writing facts.

ghost use Rattle.std.specs.Prelude.{◌≡◌, ◌++◌, IfOk, OnOk, OnErr, Ok};
ghost use Rattle.redo_core.specs.declared.facts.Fact.{Fact};
ghost use Rattle.redo_wire.specs.Outcomes.{Gives, GivesRead};
ghost use Rattle.redo_wire.specs.Facts.{IsWireFact, fact_bytes, EncodesFact};
ghost use Rattle.redo_wire.specs.FactReading.{fact_at, decoded_fact};

use crate::advances::{put_tagged_advance, read_tagged_advance};
use crate::cuts::{put_cut, read_cut};
use crate::faults::{WireError, WireFault};
use crate::fields::read_byte;
use crate::records::{put_record, read_record};
use crate::tags;
use bytes::{BufMut, BytesMut};
use redo_core::Fact;
use std::alloc::{AllocError, Global};

/// The fact that the bytes encode, all of them.
///
/// Errors: the first fault from front to back (never `TooLong`), or `Memory`.
pub fn decode_fact(alloc: Global, bytes: &[u8]) -> Result<Fact, WireError>
    // What is read is what the bytes encode.
    ensures found { IfOk result (λ f. EncodesFact f bytes.now) }

    // What the bytes encode is read, unless memory runs out.
    ensures encoded { (f : Fact) → EncodesFact f bytes.now → GivesRead result (Ok f) }

    // Which fault is returned where they encode nothing.
    ensures fault { GivesRead result (decoded_fact bytes.now) }
{
    whole_fact(alloc, bytes)
}

/// Appends the one encoding of the fact. It fails only if memory runs out, and then nothing has changed.
pub fn encode_fact(out: &mut BytesMut, fact: &Fact) -> Result<(), AllocError>
    ensures ok { OnOk result (out.new.items ≡ out.old.items ++ fact_bytes fact.now) }
    ensures encoded { OnOk result (EncodesFact fact.now (fact_bytes fact.now)) }
    ensures err { OnErr result (out.new.items ≡ out.old.items) }
{
    let mut text = BytesMut::new(*out.allocator());
    put_fact(&mut text, fact)?;
    out.extend_from_slice(text.as_slice())
}

// ---- reading

#[tactic(auto, unfolding(crate::specs::FactReading::fact_at))]
fn read_fact(alloc: Global, bytes: &[u8]) -> Result<(Fact, &[u8]), WireError>
    ensures { Gives (λ x. (x.0, x.1.now)) result (fact_at bytes.now) }
{
    let (tag, rest) = read_byte(bytes)?;
    match tag {
        tags::RECORD | tags::FULL_RECORD => {
            let (record, rest) = read_record(alloc, bytes)?;
            Ok((Fact::Record(record), rest))
        }
        tags::CUT => match read_cut(rest) {
            Ok((cut, rest)) => Ok((Fact::Cut(cut), rest)),
            Err(e) => Err(e),
        },
        _ => match read_tagged_advance(bytes) {
            Ok((advance, rest)) => Ok((Fact::Advance(advance), rest)),
            Err(e) => Err(e),
        },
    }
}

fn whole_fact(alloc: Global, bytes: &[u8]) -> Result<Fact, WireError>
    ensures { GivesRead result (decoded_fact bytes.now) }
{
    let (fact, rest) = read_fact(alloc, bytes)?;
    if !rest.is_empty() {
        return Err(WireError::Fault(WireFault::Rest));
    }
    Ok(fact)
}

// ---- writing

fn put_fact(out: &mut BytesMut, fact: &Fact) -> Result<(), AllocError>
    ensures ok { OnOk result (out.new.items ≡ out.old.items ++ fact_bytes fact.now) }
    ensures wire { OnOk result (IsWireFact fact.now) }
{
    match fact {
        Fact::Record(redo) => put_record(out, redo),
        Fact::Cut(cut) => {
            out.put_u8(tags::CUT)?;
            put_cut(out, cut)
        }
        Fact::Advance(advance) => put_tagged_advance(out, advance),
    }
}
