ghost use Rattle.std.specs.Prelude.{◌≡◌, ◌↔◌, IsTrue, IfOk, IfSome, [], slice_set};
ghost use Rattle.volume.specs.Asking.{queries_from};
ghost use Rattle.volume.specs.Sets.{marks_of};
ghost use Rattle.volume.specs.Fencing.{HearsFencing, HearsFenced, HearsStale, BeginsOpening, GoesOn, RetriesFencing};
ghost use Rattle.volume.specs.Fencing.{IsGreatestPair, IsLaterPair, new_fencing, with_fresh};
ghost use Rattle.volume.specs.declared.errands.Query.TheVariants.{Fence as AsksFence};
ghost use Rattle.volume.specs.declared.phases.Phase.TheVariants.{Fencing as IsFencing};

use crate::actions::{Action, Fault};
use crate::errands::{Errand, Query, ask_one, query_each, query_one};
use crate::phases::{Opening, Phase, Session, Stage};
use crate::sets::{count, entry_of, mark, nodes_with_entry, put_entry, unmark};
use crate::settings::Settings;
use crate::turns::{Transition, end, nothing};
use gossip_core::summary;
use guard::{AcceptedCut, Reply};
use segment_core::Segment;
use std::alloc::{AllocError, Global};

/// An opening before a quorum is fenced.
#[derive(Clone, Copy)]
pub struct Fencing {
    pub generation: u64,
    /// The birth of each node that is fenced.
    pub births: [Option<u64>; 15],
    /// The truncation that each fenced node has accepted.
    pub pairs: [Option<AcceptedCut>; 15],
    /// The birth of each node that is fresh.
    pub fresh: [Option<u64>; 15],
    /// The nodes that are not fenced and have answered otherwise, or failed.
    pub lost: [bool; 15],
}

/// Begins an opening.
pub(crate) fn fence(
    alloc: Global,
    settings: &Settings,
    generation: u64,
) -> Result<(Phase, Vec<Action>), AllocError>
    ensures phase { IfOk result (λ p. p.0 ≡ IsFencing (new_fencing generation)) }
    ensures actions { IfOk result (λ p. p.1.items ≡ queries_from (AsksFence generation) 0 settings.now.nodes) }
{
    let actions = query_each(alloc, settings.nodes(), Query::Fence { generation })?;
    let fencing = Fencing {
        generation,
        births: [None; 15],
        pairs: [None; 15],
        fresh: [None; 15],
        lost: [false; 15],
    };
    Ok((Phase::Fencing(fencing), actions))
}

/// Hears a reply of a node.
pub(crate) fn hear_fencing(
    alloc: Global,
    settings: &Settings,
    fencing: &Fencing,
    node: u8,
    reply: &Reply,
) -> Result<Transition, AllocError>
    ensures { IfOk result (HearsFencing settings.now fencing.now node reply.now) }
{
    match reply {
        Reply::Fenced {
            generation,
            birth,
            accepted,
        } => {
            if *generation == fencing.generation {
                hear_fenced(alloc, settings, fencing, node, *birth, *accepted)
            } else {
                Ok(nothing(alloc))
            }
        }
        Reply::Fresh(birth) => hear_fresh(alloc, settings, fencing, node, *birth),
        Reply::Stale(generation) => hear_stale(alloc, settings, fencing, node, *generation),
        _ => Ok(nothing(alloc)),
    }
}

/// Hears that a node is fenced. The opening goes on with the first quorum.
fn hear_fenced(
    alloc: Global,
    settings: &Settings,
    fencing: &Fencing,
    node: u8,
    birth: u64,
    accepted: Option<AcceptedCut>,
) -> Result<Transition, AllocError>
    ensures { IfOk result (HearsFenced settings.now fencing.now node birth accepted) }
{
    let mut next = *fencing;
    put_entry(&mut next.births, node, Some(birth));
    put_pair(&mut next.pairs, node, accepted);
    put_entry(&mut next.fresh, node, None);
    unmark(&mut next.lost, node);
    let quorum = nodes_with_entry(&next.births);
    if count(&quorum) < settings.quorum() {
        return Ok(Transition::Enter(Phase::Fencing(next), Vec::new(alloc)));
    }
    let opening = gather(alloc, settings, &next, quorum)?;
    let errand = Errand::Pull(opening.summary.copy()?);
    let actions = ask_one(alloc, next.generation, node, Some(birth), &errand)?;
    Ok(Transition::Enter(Phase::Opening(opening), actions))
}

/// The opening with these nodes as its quorum. None of them has answered what it has.
fn gather(
    alloc: Global,
    settings: &Settings,
    fencing: &Fencing,
    quorum: [bool; 15],
) -> Result<Opening, AllocError>
    requires { quorum ≡ marks_of fencing.now.births }
    ensures { IfOk result (BeginsOpening settings.now fencing.now) }
{
    let union = Segment::new(alloc, settings.roster())?;
    let summary = summary(&union)?;
    let session = Session {
        generation: fencing.generation,
        births: fencing.births,
        quorum,
    };
    Ok(Opening {
        session,
        pair: greatest(&fencing.pairs),
        fresh: fencing.fresh,
        union,
        summary,
        asked: None,
        stage: Stage::Pulling { left: quorum },
    })
}

/// Hears that a node is fresh: it is in no quorum, and this opening may admit it.
fn hear_fresh(
    alloc: Global,
    settings: &Settings,
    fencing: &Fencing,
    node: u8,
    birth: u64,
) -> Result<Transition, AllocError>
    ensures { IfOk result (λ t. GoesOn settings.now (with_fresh fencing.now node birth) t []) }
{
    let mut next = *fencing;
    put_entry(&mut next.births, node, None);
    put_pair(&mut next.pairs, node, None);
    put_entry(&mut next.fresh, node, Some(birth));
    mark(&mut next.lost, node);
    go_on(alloc, settings, next, Vec::new(alloc))
}

/// Hears that a node is not fenced: because it has a later generation, or because it has this one already.
fn hear_stale(
    alloc: Global,
    settings: &Settings,
    fencing: &Fencing,
    node: u8,
    generation: u64,
) -> Result<Transition, AllocError>
    ensures { IfOk result (HearsStale settings.now fencing.now node generation) }
{
    if generation > fencing.generation {
        return end(alloc, Fault::Fenced { generation });
    }
    if generation < fencing.generation || entry_of(&fencing.births, node).is_some() {
        return Ok(nothing(alloc));
    }
    let mut next = *fencing;
    mark(&mut next.lost, node);
    go_on(alloc, settings, next, Vec::new(alloc))
}

/// Asks a node again that is not fenced.
pub(crate) fn retry_fencing(
    alloc: Global,
    settings: &Settings,
    fencing: &Fencing,
    node: u8,
) -> Result<Transition, AllocError>
    ensures { IfOk result (RetriesFencing settings.now fencing.now node) }
{
    if entry_of(&fencing.births, node).is_some() {
        return Ok(nothing(alloc));
    }
    let generation = fencing.generation;
    let actions = query_one(alloc, node, Query::Fence { generation })?;
    let mut next = *fencing;
    mark(&mut next.lost, node);
    go_on(alloc, settings, next, actions)
}

/// Goes on while the nodes that are not lost can make a quorum.
fn go_on(
    alloc: Global,
    settings: &Settings,
    next: Fencing,
    actions: Vec<Action>,
) -> Result<Transition, AllocError>
    ensures { IfOk result (λ t. GoesOn settings.now next t actions.items) }
{
    let have = settings.nodes().saturating_sub(count(&next.lost));
    let need = settings.quorum();
    if have < need {
        return end(alloc, Fault::NoQuorum { have, need });
    }
    Ok(Transition::Enter(Phase::Fencing(next), actions))
}

/// Puts the accepted truncation of a node.
fn put_pair(pairs: &mut [Option<AcceptedCut>; 15], node: u8, pair: Option<AcceptedCut>)
    ensures { pairs.new ≡ slice_set pairs.old node pair }
{
    let place = usize::from(node);
    if place < pairs.len() {
        pairs[place] = pair;
    }
}

/// The greatest of the accepted truncations, by generation and then by epoch.
fn greatest(pairs: &[Option<AcceptedCut>; 15]) -> Option<AcceptedCut>
    ensures { IsGreatestPair pairs.now result }
{
    let mut best: Option<AcceptedCut> = None;
    for pair in pairs {
        if is_later(pair, &best) {
            best = *pair;
        }
    }
    best
}

/// Whether the first is later than the second, by generation and then by epoch.
fn is_later(one: &Option<AcceptedCut>, other: &Option<AcceptedCut>) -> bool
    ensures { IsTrue result ↔ IsLaterPair one.now other.now }
{
    match (one, other) {
        (None, _) => false,
        (Some(_), None) => true,
        (Some(one), Some(other)) => {
            other.generation < one.generation
                || (other.generation == one.generation && other.cut.epoch() < one.cut.epoch())
        }
    }
}
