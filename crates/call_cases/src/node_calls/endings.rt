//! The answers of a closed node.
use crate::Log;
use case_io::Row;
use node_cell::{Closed, Receipt, settle};
use std::io;

/// Prints the number of entries of the trail, the complete point, the base point, and the number of stored keys.
pub fn print_closed(row: &Row, ended: &Closed<Log>) -> io::Result<()> {
    let segment = ended.segment();
    let (entries, held) = (ended.trail().len(), segment.stored()?.len());
    let complete = segment.front().complete;
    row.parts("Closed", &(entries, complete, segment.base_point(), held))
}

/// Prints an entry of the trail: the pass that delivered it, and its log index.
pub fn print_entry(row: &Row, ended: &Closed<Log>) -> io::Result<()> {
    match ended.trail().get(row.index(0)) {
        Some(entry) => row.parts("Entry", entry),
        None => row.unknown(),
    }
}

/// Settles the receipts from one to another.
pub fn print_settling(row: &Row, ended: &Closed<Log>, receipts: &[Receipt<Log>]) -> io::Result<()> {
    let Some(receipts) = receipts.get(row.index(0)..row.index(1)) else {
        return row.unknown();
    };
    match settle(ended, receipts) {
        Ok(()) => row.said("Settled"),
        Err(stranger) => row.one("NotSettled", &stranger),
    }
}
