//! The program, over any runtime.

ghost use Rattle.std.specs.Prelude.{◌≡◌, IfSome, IfNone, map};
ghost use Rattle.volume.specs.Settings.{IsSettings, settings_of};
ghost use Rattle.volume_stream.specs.CommandLine.{sizes_in, NamesVolume, NamesNoVolume};

use crate::machine::Engine;
use crate::stream::serve;
use framing::Named;
use framing::devices::{RunFault, Watched};
use framing::statuses::{BAD, MEMORY};
use node_stream::{status_of, wide_number};
use redo_core::Roster;
use std::alloc::{AllocError, Global};
use std::convert::AsStr;
use std::process::ExitCode;
use std::rt::Env;
use std::{env, io};
use volume::Settings;

/// The program's name, whatever path it was called by.
const NAME: &[u8] = b"volume-node";

/// The most bytes of a frame.
pub const LIMIT: usize = 4_294_967_295;

/// The readers of a volume's log.
const READERS: u8 = 1;

/// Says why on standard error, and gives the status.
fn failed(rt: &impl Eprint, why: &str, status: u8) -> ExitCode {
    let _ = rt.eprintln(format_args!("volume-node: {why}"));
    ExitCode::from(status)
}

/// The settings of a volume of so many nodes with this write quorum; None where there are none.
pub fn settings_for(nodes: u8, quorum: u8) -> Option<Settings>
    ensures some { IfSome result (λ s. (s ≡ settings_of 1 nodes quorum) × IsSettings nodes quorum) }
    ensures none { IfNone result (IsSettings nodes quorum → ⊥) }
{
    let roster = Roster::new(READERS).ok()?;
    Settings::new(roster, nodes, quorum).ok()
}

/// The number of nodes and the write quorum, as the words of the command line have them; the first word is the program's.
fn sizes_in<S: AsStr>(words: &[S]) -> Option<(u8, u8)>
    ensures { result ≡ sizes_in (map S.text words.now) }
{
    match words {
        [_, nodes, quorum] => {
            let nodes = wide_number(nodes.as_str().as_bytes(), 255)?;
            let quorum = wide_number(quorum.as_str().as_bytes(), 255)?;
            Some((nodes as u8, quorum as u8))
        }
        _ => None,
    }
}

/// The settings of the volume that the words of the command line name; None where they name none.
pub fn settings_in<S: AsStr>(words: &[S]) -> Option<Settings>
    ensures some { IfSome result (NamesVolume (map S.text words.now)) }
    ensures none { IfNone result (NamesNoVolume (map S.text words.now)) }
{
    let (nodes, quorum) = sizes_in(words)?;
    settings_for(nodes, quorum)
}

/// Serves standard input and output until the input ends.
fn serve_input(
    rt: &(impl Input + Print + Eprint + AllocGlobal),
    settings: Settings,
) -> Result<(), RunFault> {
    let mut engine = Engine::new(rt.alloc(), settings);
    let mut reader = Watched::new(rt.reader());
    let mut writer = Watched::new(io::writer(rt));
    serve(LIMIT, &mut engine, &mut reader, &mut writer)
}

/// What the program `volume-node` does, by its command line, which is the number of nodes and the write quorum: answers to the event frames
/// of standard input.
///
/// Statuses: 0 the input has ended, 2 a bad command line, 4 a device that failed, 5 no memory.
pub fn run_program<R: Env + Input + Print + Eprint + AllocGlobal>(rt: &R) -> ExitCode {
    let named = Named {
        env: rt,
        name: NAME,
    };
    let args = match env::args(&(named, rt.alloc())) {
        Ok(args) => args,
        Err(error) if error.kind() == io::ErrorKind::OutOfMemory => {
            return failed(rt, "out of memory", MEMORY);
        }
        Err(_) => return failed(rt, "bad command line", BAD),
    };
    let collected: Result<Vec<String>, AllocError> = args.collect(rt.alloc());
    let Ok(words) = collected else {
        return failed(rt, "out of memory", MEMORY);
    };
    match settings_in(words.as_slice()) {
        Some(settings) => ExitCode::from(status_of(serve_input(rt, settings))),
        None => failed(rt, "bad command line", BAD),
    }
}
