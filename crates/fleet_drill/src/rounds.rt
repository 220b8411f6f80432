ghost use Rattle.std.specs.Prelude.{◌<◌};

use named_log::LogName;
use node_threads::{Feed, Plan};
use std::alloc::{AllocError, Global};

/// How many pages the log of a drill has.
pub(crate) const PAGES: u16 = 8;

/// One round: a node and a page, or two nodes.
type Round = (u16, u16);

/// Each drainer takes all that is fed to it. The folds of each page at each node and the exchanges of each ordered pair of two nodes are
/// spread over so many lists each.
pub fn make_plan<L: LogName>(
    alloc: Global,
    feeds: &[Feed<L>],
    nodes: u16,
    workers: usize,
) -> Result<Plan, AllocError>
    requires { 0 < workers }
{
    let mut parcels = Vec::with_capacity(alloc, feeds.len())?;
    for feed in feeds {
        parcels.push(feed.facts.len() as u64)?;
    }
    Ok(Plan {
        parcels,
        folds: spread(alloc, fold_rounds(alloc, nodes)?, workers)?,
        gossip: spread(alloc, gossip_rounds(alloc, nodes)?, workers)?,
    })
}

fn fold_rounds(alloc: Global, nodes: u16) -> Result<Vec<Round>, AllocError> {
    let mut rounds = Vec::new(alloc);
    for node in 1..=nodes {
        for page in 0..PAGES {
            rounds.push((node, page))?;
        }
    }
    Ok(rounds)
}

fn gossip_rounds(alloc: Global, nodes: u16) -> Result<Vec<Round>, AllocError> {
    let mut rounds = Vec::new(alloc);
    for asker in 1..=nodes {
        for answerer in 1..=nodes {
            if asker != answerer {
                rounds.push((asker, answerer))?;
            }
        }
    }
    Ok(rounds)
}

// The rounds in so many lists: the first goes to the first list, the next to the next, and so on in turn.
fn spread(alloc: Global, rounds: Vec<Round>, workers: usize) -> Result<Vec<Vec<Round>>, AllocError>
    requires { 0 < workers }
{
    let mut lists = Vec::with_capacity(alloc, workers)?;
    for first in 0..workers {
        let mut list = Vec::new(alloc);
        for (turn, round) in rounds.as_slice().iter().enumerate() {
            if turn % workers == first {
                list.push(*round)?;
            }
        }
        lists.push(list)?;
    }
    Ok(lists)
}
