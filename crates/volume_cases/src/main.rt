//! Test cases of volumes: engines, guarded nodes and what was sent between them, in one process. A line of the input is a step, and is
//! printed with what follows from it.
//!
//! Nodes have the numbers from 1, engines those from 0. What an engine asks of a node stays in the mail until a line delivers or drops it.
//! A line that begins with '#' is printed as it is.
#![tactic(auto)]

mod readers;
mod world;

use crate::world::{World, new_world};
use case_io::{Row, byte};
use redo_core::{Patch, Write};
use std::io;
use volume::Event;

/// The node of a word; one that there is not where the word is missing.
fn node_at(row: &Row, place: usize) -> u8 {
    match row.number(place) {
        0 => 255,
        number => byte(number - 1),
    }
}

/// The patches of a write: a byte at the start of the page.
fn one_byte(row: &Row, byte: u8) -> io::Result<Vec<Patch>> {
    let mut patches = Vec::new(row.alloc);
    patches.push(Patch::Bytes(Write::of_slice(row.alloc, 0, &[byte])?))?;
    Ok(patches)
}

/// The event of a line, where the line is a call of an engine or a broken connection.
fn event_of(row: &Row) -> io::Result<Option<Event>> {
    Ok(Some(match row.name {
        "create" => Event::Create,
        "open" => Event::Open {
            generation: row.number(1),
        },
        "write" => Event::Write {
            page: row.short(1),
            init: false,
            patches: one_byte(row, row.byte(2))?,
        },
        "commit" => Event::Commit {
            header: Vec::from_slice(row.alloc, row.word(1).as_bytes())?,
        },
        "advance" => Event::Advance {
            reader: 1,
            point: row.number(1),
        },
        "fail" => Event::Failed {
            node: node_at(row, 1),
        },
        _ => return Ok(None),
    }))
}

fn print_row(world: &mut World, row: &Row) -> io::Result<()> {
    let engine = row.index(0);
    if let Some(event) = event_of(row)? {
        return row.said(world.happen(engine, event)?.as_str());
    }
    let text = match row.name {
        "engine" => world.add_engine()?,
        "run" => world.run(engine, [node_at(row, 1), node_at(row, 2), node_at(row, 3)])?,
        "rounds" => world.rounds(engine, row.number(1), [node_at(row, 2), node_at(row, 3)])?,
        "new" => String::from_str(row.alloc, "Done")?,
        "deliver" => world.deliver(engine, node_at(row, 1))?,
        "lose" => world.lose(engine, node_at(row, 1))?,
        "fresh" => world.restart(node_at(row, 0), row.number(1))?,
        "gossip" => world.gossip(node_at(row, 0), node_at(row, 1))?,
        "admit" => world.admit_again(node_at(row, 0), row.number(1), row.number(2))?,
        "propose" => world.propose_again(node_at(row, 0), row.number(1), row.number(2))?,
        "read" => world.read(node_at(row, 0), row.short(1), row.number(2))?,
        "reader" => world.reader(node_at(row, 0))?,
        _ => return row.unknown(),
    };
    row.said(text.as_str())
}

fn print_line(world: &mut World, rt: &HostRuntime, line: &str) -> io::Result<()> {
    if line.starts_with('#') {
        return println!(rt; "{line}");
    }
    if line == "new" {
        *world = new_world(rt.alloc())?;
    }
    print_row(world, &Row::of(rt, line))
}

fn main(rt: HostRuntime) -> io::Result<()> {
    let mut world = new_world(rt.alloc())?;
    for line in rt.lines(rt.alloc()) {
        print_line(&mut world, &rt, line?.as_str())?;
    }
    Ok(())
}
