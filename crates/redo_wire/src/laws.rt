//! What the encodings guarantee. Each law is the contract of a function that does nothing.

ghost use Rattle.redo_core.specs.Data.{CutData};
ghost use Rattle.redo_core.specs.Order.{IsRising, CutBefore};
ghost use Rattle.redo_core.specs.CompleteEpoch.{IsCompleteEpoch};
ghost use Rattle.std.specs.Prelude.{List, ◌<◌};
ghost use Rattle.std.specs.List.{AllByRecursion};
ghost use Rattle.redo_wire.specs.Facts.{EncodesFact};
ghost use Rattle.redo_wire.specs.FactReading.{decoded_fact};
ghost use Rattle.redo_wire.specs.Summaries.{EncodesSummary};
ghost use Rattle.redo_wire.specs.SummaryReading.{decoded_summary};
ghost use Rattle.redo_wire.specs.Deltas.{EncodesDelta};
ghost use Rattle.redo_wire.specs.DeltaReading.{decoded_delta};
ghost use Rattle.redo_wire.specs.Pieces.{EncodesPiece};
ghost use Rattle.redo_wire.specs.PieceReading.{decoded_piece};
ghost use Rattle.redo_wire.specs.Values.{EncodesValue, decoded_value};
ghost use Rattle.redo_wire.specs.BookReading.{complete};
ghost use Rattle.redo_wire.specs.Laws.{HasOneEncoding, HasOneValue, BeginsNoOther, ReadsEncodings, NeverTooLong, FaultsStay, BeginningsAreShort, RestIsBehind};

/// A fact has one encoding and an encoding one fact, none begins another, reading finds just what is encoded, and
/// never a list that is too long. A fault other than short or rest stays whatever follows, a proper beginning of an encoding
/// is short, and bytes after an encoding are a rest.
pub fn fact_encodings()
    ensures one_encoding { HasOneEncoding EncodesFact }
    ensures one_value { HasOneValue EncodesFact }
    ensures none_begins { BeginsNoOther EncodesFact }
    ensures reads { ReadsEncodings EncodesFact decoded_fact }
    ensures never_too_long { NeverTooLong decoded_fact }
    ensures stays { FaultsStay decoded_fact }
    ensures short { BeginningsAreShort decoded_fact }
    ensures rest { RestIsBehind decoded_fact }
{}

/// The same of summaries.
pub fn summary_encodings()
    ensures one_encoding { HasOneEncoding EncodesSummary }
    ensures one_value { HasOneValue EncodesSummary }
    ensures none_begins { BeginsNoOther EncodesSummary }
    ensures reads { ReadsEncodings EncodesSummary decoded_summary }
    ensures never_too_long { NeverTooLong decoded_summary }
    ensures stays { FaultsStay decoded_summary }
    ensures short { BeginningsAreShort decoded_summary }
    ensures rest { RestIsBehind decoded_summary }
{}

/// The same of deltas.
pub fn delta_encodings()
    ensures one_encoding { HasOneEncoding EncodesDelta }
    ensures one_value { HasOneValue EncodesDelta }
    ensures none_begins { BeginsNoOther EncodesDelta }
    ensures reads { ReadsEncodings EncodesDelta decoded_delta }
    ensures never_too_long { NeverTooLong decoded_delta }
    ensures stays { FaultsStay decoded_delta }
    ensures short { BeginningsAreShort decoded_delta }
    ensures rest { RestIsBehind decoded_delta }
{}

/// The same of pieces.
pub fn piece_encodings()
    ensures one_encoding { HasOneEncoding EncodesPiece }
    ensures one_value { HasOneValue EncodesPiece }
    ensures none_begins { BeginsNoOther EncodesPiece }
    ensures reads { ReadsEncodings EncodesPiece decoded_piece }
    ensures never_too_long { NeverTooLong decoded_piece }
    ensures stays { FaultsStay decoded_piece }
    ensures short { BeginningsAreShort decoded_piece }
    ensures rest { RestIsBehind decoded_piece }
{}

/// The same of values of any kind.
pub fn value_encodings()
    ensures one_encoding { HasOneEncoding EncodesValue }
    ensures one_value { HasOneValue EncodesValue }
    ensures none_begins { BeginsNoOther EncodesValue }
    ensures reads { ReadsEncodings EncodesValue decoded_value }
    ensures never_too_long { NeverTooLong decoded_value }
    ensures stays { FaultsStay decoded_value }
    ensures short { BeginningsAreShort decoded_value }
    ensures rest { RestIsBehind decoded_value }
{}

/// The epoch by which reading judges waiting advances is the complete epoch of the truncations.
pub fn judged_epoch()
    ensures { (cs : List CutData) → IsRising CutBefore cs → AllByRecursion (λ c. 0 < c.epoch) cs → IsCompleteEpoch cs (complete cs) }
{}
