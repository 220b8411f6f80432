//! The line of a fact.

ghost use Rattle.std.specs.Prelude.{◌≡◌, ◌++◌, map, Ok, IfOk, OnOk, string_bytes};
ghost use Rattle.std.specs.List.{AllByRecursion};
ghost use Rattle.hex.specs.Hex.{encode_lower, decode_of};
ghost use Rattle.redo_core.specs.Data.{plain};
ghost use Rattle.redo_core.specs.Body.{patches_of};
ghost use Rattle.redo_core.specs.declared.patches.Patch.TheVariants.{Bytes, Fill};
ghost use Rattle.script_text.specs.FactText.{patch_text, behind_init, between_commas, record_text, cut_text, advance_text, fact_text, IsReadBack};
ghost use Rattle.script_text.specs.Encoded.{EncodesRecord, EncodesCut, EncodesAdvance, EncodesFact};

use redo_core::{Advance, Body, Cut, Fact, Patch, Record, Write};
use std::alloc::{AllocError, Global};
use text::worded;

/// The digits of the bytes, in lower case.
fn digits(alloc: Global, bytes: &[u8]) -> Result<String, AllocError>
    ensures text { IfOk result (λ s. string_bytes s ≡ encode_lower bytes.now) }
    ensures read { decode_of (encode_lower bytes.now) ≡ Ok bytes.now }
{
    hex::encode(alloc, bytes)
}

fn write_text(alloc: Global, write: &Write) -> Result<String, AllocError>
    ensures text { IfOk result (λ s. string_bytes s ≡ patch_text (Bytes write.now)) }
    ensures read { IsReadBack (Bytes write.now) }
{
    let offset = write.offset();
    let digits = digits(alloc, write.bytes())?;
    format!(in alloc; "{offset}:{digits}")
}

fn fill_text(alloc: Global, offset: u16, len: u16, byte: u8) -> Result<String, AllocError>
    ensures text { IfOk result (λ s. string_bytes s ≡ patch_text (Fill offset len byte)) }
    ensures read { IsReadBack (Fill offset len byte) }
{
    let digits = digits(alloc, &[byte])?;
    format!(in alloc; "{offset}*{len}:{digits}")
}

fn patch_text(alloc: Global, patch: &Patch) -> Result<String, AllocError>
    ensures text { IfOk result (λ s. string_bytes s ≡ patch_text patch.now) }
    ensures read { IsReadBack patch.now }
{
    match patch {
        Patch::Bytes(write) => write_text(alloc, write),
        Patch::Fill { offset, len, byte } => fill_text(alloc, *offset, *len, *byte),
    }
}

/// Appends the texts of writes.
fn put_writes(alloc: Global, texts: &mut Vec<String>, writes: &[Write]) -> Result<(), AllocError>
    ensures text { OnOk result (map string_bytes texts.new.items ≡ map string_bytes texts.old.items ++ map patch_text (plain writes.now)) }
    ensures read { OnOk result (AllByRecursion IsReadBack (plain writes.now)) }
{
    for write in writes {
        texts.push(write_text(alloc, write)?)?;
    }
    Ok(())
}

/// Appends the texts of patches.
fn put_patches(alloc: Global, texts: &mut Vec<String>, patches: &[Patch]) -> Result<(), AllocError>
    ensures text { OnOk result (map string_bytes texts.new.items ≡ map string_bytes texts.old.items ++ map patch_text patches.now) }
    ensures read { OnOk result (AllByRecursion IsReadBack patches.now) }
{
    for patch in patches {
        texts.push(patch_text(alloc, patch)?)?;
    }
    Ok(())
}

/// What a record does to its page: the word `init`, where the page begins anew, and the texts of the patches.
fn texts(alloc: Global, init: bool, body: &Body) -> Result<Vec<String>, AllocError>
    ensures text { IfOk result (λ v. map string_bytes v.items ≡ behind_init init (map patch_text (patches_of body.now))) }
    ensures read { OnOk result (AllByRecursion IsReadBack (patches_of body.now)) }
{
    let mut texts = Vec::new(alloc);
    if init {
        texts.push(String::from_str(alloc, "init")?)?;
    }
    match body {
        Body::Writes(writes) => put_writes(alloc, &mut texts, writes)?,
        Body::Patches(patches) => put_patches(alloc, &mut texts, patches)?,
    }
    Ok(texts)
}

/// The texts between commas, or a dash for none.
#[tactic(auto, using(crate::proofs::FactTexts::joined_between, crate::proofs::FactTexts::none_between))]
fn between_commas(alloc: Global, texts: &[String]) -> Result<String, AllocError>
    ensures { IfOk result (λ s. string_bytes s ≡ between_commas (map string_bytes texts.now)) }
{
    if texts.is_empty() {
        return String::from_str(alloc, "-");
    }
    texts.join(alloc, ",")
}

fn record_text(alloc: Global, redo: &Record) -> Result<String, AllocError>
    ensures text { IfOk result (λ s. string_bytes s ≡ record_text redo.now) }
    ensures encoded { OnOk result (EncodesRecord (record_text redo.now) redo.now) }
{
    let epoch = redo.epoch();
    let number = redo.number();
    let back = redo.back();
    let page = redo.page();
    let block_back = redo.block_back();
    let texts = texts(alloc, redo.init(), &redo.body())?;
    let contents = between_commas(alloc, &texts)?;
    format!(in alloc; "rec {epoch} {number} {back} {page} {block_back} {contents}")
}

fn cut_text(alloc: Global, cut: &Cut) -> Result<String, AllocError>
    ensures text { IfOk result (λ s. string_bytes s ≡ cut_text cut.now) }
    ensures encoded { OnOk result (EncodesCut (cut_text cut.now) cut.now) }
{
    worded(alloc, "cut", &[u64::from(cut.epoch()), cut.lo(), cut.hi()])
}

fn advance_text(alloc: Global, advance: &Advance) -> Result<String, AllocError>
    ensures text { IfOk result (λ s. string_bytes s ≡ advance_text advance.now) }
    ensures encoded { OnOk result (EncodesAdvance (advance_text advance.now) advance.now) }
{
    let epoch = u64::from(advance.epoch());
    let point = advance.point();
    let reader = advance.reader();
    if reader == 1 {
        worded(alloc, "min", &[epoch, point])
    } else {
        worded(alloc, "min", &[epoch, point, u64::from(reader)])
    }
}

/// The line of the fact, without its line end: numbers in decimal, digits of bytes in lower case, reader 1 without its number.
/// It fails only if memory runs out.
pub fn fact_text(alloc: Global, fact: &Fact) -> Result<String, AllocError>
    ensures text { IfOk result (λ s. string_bytes s ≡ fact_text fact.now) }

    // The line encodes the fact, so that it is read as that fact.
    ensures encoded { OnOk result (EncodesFact (fact_text fact.now) fact.now) }
{
    match fact {
        Fact::Record(redo) => record_text(alloc, redo),
        Fact::Cut(cut) => cut_text(alloc, cut),
        Fact::Advance(advance) => advance_text(alloc, advance),
    }
}
