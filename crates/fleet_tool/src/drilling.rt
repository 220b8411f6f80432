//! From a drill to a writer.

ghost use Rattle.std.specs.Prelude.{◌≡◌, ◌<◌, ◌≤◌, ℕ, List, true, false, take, IsErrOf, OnOk};
ghost use Rattle.std.specs.Io.KnownBytes.{Appends};
ghost use Rattle.framing.specs.Watching.{device_of, has_failed};

use fleet_drill::{MAX_NODES, MAX_WORKERS, Size, drill};
use framing::devices::{RunFault, Watched, write_all};
use std::alloc::Global;
use std::io::Write;
use std::sync::Wait;
use std::thread::Threads;

/// Runs a drill and writes its results: the number of facts, the front of each node, the beginning of each page, and whether
/// all nodes mean the same.
///
/// Errors: `Output` only where the writer failed, which then has a prefix of the text; `Memory`, also where a worker could not
/// be started, and then the writer is unchanged.
pub fn drill_text<R: Threads + Wait + Sync, W: Write>(
    rt: &R,
    alloc: Global,
    nodes: usize,
    workers: usize,
    size: Size,
    writer: &mut Watched<W>,
) -> Result<(), RunFault>
    requires nodes { (0 < nodes) × (nodes ≤ MAX_NODES) }
    requires workers { (0 < workers) × (workers ≤ MAX_WORKERS) }
    requires writer { has_failed writer.old ≡ false }
    ensures ok { OnOk result ((text : List ℕ) × Appends (W.contents (device_of writer.old)) (W.contents (device_of writer.new)) text) }
    ensures input { IsErrOf result RunFault.Input → ⊥ }
    ensures output { IsErrOf result RunFault.Output → has_failed writer.new ≡ true }
    ensures beginning { IsErrOf result RunFault.Output → (text : List ℕ) × (n : ℕ) × Appends (W.contents (device_of writer.old)) (W.contents (device_of writer.new)) (take n text) }
    ensures memory { IsErrOf result RunFault.Memory → writer.new ≡ writer.old }
{
    let text = drill(rt, alloc, nodes, workers, size)?;
    write_all(writer, text.as_bytes())
}
