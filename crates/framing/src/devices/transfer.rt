//! All of a reader, and all of a text into a writer.

ghost use Rattle.std.specs.Prelude.{◌≡◌, ◌⊎◌, ℕ, true, take, IsErrOf, IfOk, IfErr, OnOk, OnErr, IfSome, is_err, ◌≤◌, length};
ghost use Rattle.std.specs.Io.KnownBytes.{Appends, IsAtEnd};
ghost use Rattle.framing.specs.Watching.{device_of, has_failed};

use crate::devices::fault::RunFault;
use crate::devices::watched::Watched;
use std::alloc::Global;
use std::io::{Read, Write};

/// Reads the rest of the input. `Input`: the reader failed; `Memory`: no room for what it has.
#[tactic(auto, using(crate::proofs::DeviceBytes::reads))]
pub fn read_all<R: Read>(alloc: Global, reader: &mut Watched<R>) -> Result<Vec<u8>, RunFault>
    ensures ok { IfOk result (λ v. IfSome (R.remaining (device_of reader.old)) (λ input. v.items ≡ input)) }
    ensures end { OnOk result (IsAtEnd (R.remaining (device_of reader.new))) }
    ensures input { IsErrOf result RunFault.Input → has_failed reader.new ≡ true }
    ensures errors { IfErr result (λ e. (e ≡ RunFault.Input) ⊎ (e ≡ RunFault.Memory)) }
{
    let mut text = Vec::new(alloc);
    let mut chunk = [0u8; 4096];
    for _ in 0..u64::MAX {
        match reader.read(&mut chunk) {
            Ok(0) => return Ok(text),
            Ok(n) => text.extend_from_slice(&chunk[..n])?,
            Err(_) => return Err(RunFault::Input),
        }
    }
    Err(RunFault::Memory)
}

/// Writes the text and flushes it. `Output`: the writer failed and has a beginning of the text, perhaps all of it.
#[tactic(auto, using(crate::proofs::DeviceBytes::writes))]
pub fn write_all<W: Write>(writer: &mut Watched<W>, text: &[u8]) -> Result<(), RunFault>
    ensures ok { OnOk result (Appends (W.contents (device_of writer.old)) (W.contents (device_of writer.new)) text.now) }
    ensures part { OnErr result ((n : ℕ) × Appends (W.contents (device_of writer.old)) (W.contents (device_of writer.new)) (take n text.now)) }
    ensures errors { IfErr result (λ e. e ≡ RunFault.Output) }
    ensures failed { is_err result ≡ true → has_failed writer.new ≡ true }
{
    let mut at = 0;
    while at < text.len() {
        let (_, rest) = text.split_at(at);
        let Some(n) = writer.write(rest) else {
            return Err(RunFault::Output);
        };
        at += n;
    }
    if writer.flush() {
        Ok(())
    } else {
        Err(RunFault::Output)
    }
}
