//! One guarded replica on two open descriptors, for servers that are written in Rust or in C.
//!
//! A static library with two functions, which `embedding/include/yieldcleat.h` declares. They answer frames (`node_stream::serve_frames`)
//! over the descriptors. What bytes a descriptor gives or takes, no clause says: a descriptor reveals nothing of them.
#![tactic(auto)]

ghost use Rattle.node_c.specs.Ending.{IsStatus};

use descriptors::Descriptor;
use framing::devices::Watched;
use framing::statuses::MEMORY;
use node_stream::{LIMIT, Node, PAGES, serve_frames, status_of};
use redo_core::Roster;
use std::alloc::Global;

/// Answers the request frames that a descriptor gives, each by a frame on another one, or on the same, until the input ends. At first
/// a fresh node of birth 0 answers, with an empty segment of one reader. Both descriptors block, and stay open.
///
/// Statuses: 0 the input has ended or cannot be read, 4 the output failed, 5 no memory for the first segment.
#[unsafe(no_mangle)]
pub extern "C" fn yieldcleat_serve(alloc: Global, input: i32, output: i32) -> u8
    ensures { IsStatus result }
{
    serve_as(alloc, input, output, 0)
}

/// The same for a node of another birth: a number that no earlier life of the node had, drawn at random by whoever starts it.
#[unsafe(no_mangle)]
pub extern "C" fn yieldcleat_serve_as(alloc: Global, input: i32, output: i32, birth: u64) -> u8
    ensures { IsStatus result }
{
    serve_as(alloc, input, output, birth)
}

fn serve_as(alloc: Global, input: i32, output: i32, birth: u64) -> u8
    ensures { IsStatus result }
{
    let Ok(roster) = Roster::new(1) else {
        return MEMORY;
    };
    let Ok(mut node) = Node::new(alloc, roster, PAGES, birth) else {
        return MEMORY;
    };
    let mut reader = Watched::new(Descriptor::new(input));
    let mut writer = Watched::new(Descriptor::new(output));
    status_of(serve_frames(LIMIT, &mut node, &mut reader, &mut writer))
}
