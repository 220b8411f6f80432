//! The machine of a volume on two open descriptors, for engines that are written in Rust or in C.
//!
//! A static library with one function, which answers frames (`volume_stream::serve`) over the descriptors. What bytes a descriptor gives or
//! takes, no clause says: a descriptor reveals nothing of them.
#![tactic(auto)]

ghost use Rattle.volume_c.specs.Ending.{IsEnding};

use descriptors::Descriptor;
use framing::devices::Watched;
use node_stream::status_of;
use std::alloc::Global;
use volume_stream::{Engine, LIMIT, serve, settings_for};

/// There is no volume of so many nodes with this write quorum.
const BAD: u8 = 2;

/// Answers the event frames that a descriptor gives, each by a frame on another one, or on the same, until the input ends. At first nothing
/// has happened to the machine. Both descriptors block, and stay open.
///
/// Statuses: 0 the input has ended or cannot be read, 2 no such volume (1 to 15 nodes, and a write quorum of more than half of them), 4 the
/// output failed, 5 more frames than are counted.
#[unsafe(no_mangle)]
pub extern "C" fn yieldcleat_decide(
    alloc: Global,
    input: i32,
    output: i32,
    nodes: u8,
    quorum: u8,
) -> u8
    ensures { IsEnding nodes quorum result }
{
    let Some(settings) = settings_for(nodes, quorum) else {
        return BAD;
    };
    let mut engine = Engine::new(alloc, settings);
    let mut reader = Watched::new(Descriptor::new(input));
    let mut writer = Watched::new(Descriptor::new(output));
    status_of(serve(LIMIT, &mut engine, &mut reader, &mut writer))
}
