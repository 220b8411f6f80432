//! What the contracts determine, so that no other body meets them: what is written is read again. Each function states its law; no code
//! calls it.

ghost use Rattle.std.specs.Prelude.{◌≡◌, ◌⊎◌, IfOk, IfErr};
ghost use Rattle.redo_wire.specs.declared.faults.WireError.{WireError};
ghost use Rattle.redo_wire.specs.declared.faults.WireFault.TheVariants.{TooLong};

use crate::deltas::{decode_delta, encode_delta};
use crate::facts::{decode_fact, encode_fact};
use crate::faults::WireError;
use crate::pieces::{decode_piece, encode_piece};
use crate::summaries::{decode_summary, encode_summary};
use bytes::BytesMut;
use messages::{Delta, Piece, Summary};
use redo_core::Fact;
use std::alloc::Global;

fn fact_is_read_again(alloc: Global, fact: &Fact) -> Result<Fact, WireError>
    ensures read { IfOk result (λ made. made ≡ fact.now) }
    ensures memory { IfErr result (λ e. e ≡ WireError.Memory) }
{
    let mut text = BytesMut::new(alloc);
    encode_fact(&mut text, fact)?;
    decode_fact(alloc, text.as_slice())
}

fn summary_is_read_again(alloc: Global, summary: &Summary) -> Result<Summary, WireError>
    ensures read { IfOk result (λ made. made ≡ summary.now) }
    ensures only { IfErr result (λ e. (e ≡ WireError.Fault TooLong) ⊎ (e ≡ WireError.Memory)) }
{
    let mut text = BytesMut::new(alloc);
    encode_summary(&mut text, summary)?;
    decode_summary(alloc, text.as_slice())
}

fn delta_is_read_again(alloc: Global, delta: &Delta) -> Result<Delta, WireError>
    ensures read { IfOk result (λ made. made ≡ delta.now) }
    ensures only { IfErr result (λ e. (e ≡ WireError.Fault TooLong) ⊎ (e ≡ WireError.Memory)) }
{
    let mut text = BytesMut::new(alloc);
    encode_delta(&mut text, delta)?;
    decode_delta(alloc, text.as_slice())
}

fn piece_is_read_again(alloc: Global, piece: &Piece) -> Result<Piece, WireError>
    ensures read { IfOk result (λ made. made ≡ piece.now) }
    ensures only { IfErr result (λ e. (e ≡ WireError.Fault TooLong) ⊎ (e ≡ WireError.Memory)) }
{
    let mut text = BytesMut::new(alloc);
    encode_piece(&mut text, piece)?;
    decode_piece(alloc, text.as_slice())
}
