ghost use Rattle.std.specs.Prelude.{◌≡◌, IfOk};
ghost use Rattle.volume.specs.Asking.{queries_from};
ghost use Rattle.volume.specs.Creating.{HearsCreating, HearsFirst, HearsSecond, HearsFounded, HearsAdmitted, new_creation, retries_creating};
ghost use Rattle.volume.specs.declared.errands.Query.TheVariants.{Status as AsksStatus};
ghost use Rattle.volume.specs.declared.phases.Phase.TheVariants.{Creating as IsCreating};

use crate::actions::{Action, Fault};
use crate::errands::{Errand, Query, ask_each, ask_one, query_each, query_one};
use crate::phases::Phase;
use crate::sets::{count, entry_of, has, mark, put_entry};
use crate::settings::Settings;
use crate::turns::{Transition, end, nothing};
use guard::Reply;
use segment_core::Front;
use std::alloc::{AllocError, Global};

/// The creation of a volume.
#[derive(Clone, Copy)]
pub struct Creating {
    pub round: Round,
    /// The birth that each node has reported in the first round.
    pub births: [Option<u64>; 15],
    /// The nodes that have answered in this round.
    pub answered: [bool; 15],
}

/// How far a creation has come.
#[derive(Clone, Copy, Debug, PartialEq, Eq)]
pub enum Round {
    /// Each node is asked for its status.
    First,
    /// When all have answered that they are fresh, each is asked again: all were fresh at one time if they answer so with the same birth.
    /// It is a fence of generation 0, which fences nobody; so no late reply of the first round counts in the second.
    Second,
    /// Each node is admitted. When all are members, the volume is created.
    Founding,
}

/// The generation of the nodes of a new volume.
pub(crate) const FIRST_GENERATION: u64 = 1;

/// Begins a creation.
pub(crate) fn create(alloc: Global, settings: &Settings) -> Result<(Phase, Vec<Action>), AllocError>
    ensures phase { IfOk result (λ p. p.0 ≡ IsCreating new_creation) }
    ensures actions { IfOk result (λ p. p.1.items ≡ queries_from AsksStatus 0 settings.now.nodes) }
{
    let actions = query_each(alloc, settings.nodes(), Query::Status)?;
    let creating = Creating {
        round: Round::First,
        births: [None; 15],
        answered: [false; 15],
    };
    Ok((Phase::Creating(creating), actions))
}

/// Hears a reply of a node.
pub(crate) fn hear_creating(
    alloc: Global,
    settings: &Settings,
    creating: &Creating,
    node: u8,
    reply: &Reply,
) -> Result<Transition, AllocError>
    ensures { IfOk result (HearsCreating settings.now creating.now node reply.now) }
{
    match (creating.round, reply) {
        (
            Round::First,
            Reply::Status {
                birth,
                is_member: false,
                front: Front {
                    epoch: 0,
                    complete: 0,
                    ..
                },
                ..
            },
        ) => hear_first(alloc, settings, creating, node, *birth),
        (Round::Second, Reply::Fresh(birth)) => {
            hear_second(alloc, settings, creating, node, *birth)
        }
        (Round::Founding, Reply::Admitted { birth, .. }) => {
            hear_admitted(alloc, settings, creating, node, *birth)
        }
        (Round::Founding, Reply::Member) => hear_founded(alloc, settings, creating, node),
        (Round::First, Reply::Status { .. }) | (Round::Second, Reply::Stale(_)) => {
            end(alloc, Fault::NotFresh)
        }
        _ => Ok(nothing(alloc)),
    }
}

/// Hears that a node is fresh, for the first time.
fn hear_first(
    alloc: Global,
    settings: &Settings,
    creating: &Creating,
    node: u8,
    birth: u64,
) -> Result<Transition, AllocError>
    ensures { IfOk result (HearsFirst settings.now creating.now node birth) }
{
    let mut next = *creating;
    put_entry(&mut next.births, node, Some(birth));
    mark(&mut next.answered, node);
    if count(&next.answered) < settings.nodes() {
        return Ok(Transition::Enter(Phase::Creating(next), Vec::new(alloc)));
    }
    let actions = query_each(alloc, settings.nodes(), Query::Fence { generation: 0 })?;
    next.round = Round::Second;
    next.answered = [false; 15];
    Ok(Transition::Enter(Phase::Creating(next), actions))
}

/// Hears that a node is still fresh.
fn hear_second(
    alloc: Global,
    settings: &Settings,
    creating: &Creating,
    node: u8,
    birth: u64,
) -> Result<Transition, AllocError>
    ensures { IfOk result (HearsSecond settings.now creating.now node birth) }
{
    if entry_of(&creating.births, node) != Some(birth) {
        return end(alloc, Fault::NotFresh);
    }
    let mut next = *creating;
    mark(&mut next.answered, node);
    if count(&next.answered) < settings.nodes() {
        return Ok(Transition::Enter(Phase::Creating(next), Vec::new(alloc)));
    }
    let actions = ask_each(alloc, FIRST_GENERATION, &next.births, &Errand::Found)?;
    next.round = Round::Founding;
    next.answered = [false; 15];
    Ok(Transition::Enter(Phase::Creating(next), actions))
}

/// Hears that a node has been admitted.
fn hear_admitted(
    alloc: Global,
    settings: &Settings,
    creating: &Creating,
    node: u8,
    birth: u64,
) -> Result<Transition, AllocError>
    ensures { IfOk result (HearsAdmitted settings.now creating.now node birth) }
{
    if entry_of(&creating.births, node) != Some(birth) {
        return Ok(nothing(alloc));
    }
    hear_founded(alloc, settings, creating, node)
}

/// Hears that a node is a member.
fn hear_founded(
    alloc: Global,
    settings: &Settings,
    creating: &Creating,
    node: u8,
) -> Result<Transition, AllocError>
    ensures { IfOk result (HearsFounded settings.now creating.now node) }
{
    if has(&creating.answered, node) {
        return Ok(nothing(alloc));
    }
    let mut next = *creating;
    mark(&mut next.answered, node);
    let mut actions = Vec::new(alloc);
    if count(&next.answered) >= settings.nodes() {
        actions.push(Action::Created)?;
    }
    Ok(Transition::Enter(Phase::Creating(next), actions))
}

/// Asks a node again.
pub(crate) fn retry_creating(
    alloc: Global,
    creating: &Creating,
    node: u8,
) -> Result<Vec<Action>, AllocError>
    ensures { IfOk result (λ v. v.items ≡ retries_creating creating.now creating.now.round node) }
{
    match creating.round {
        Round::First => query_one(alloc, node, Query::Status),
        Round::Second => query_one(alloc, node, Query::Fence { generation: 0 }),
        Round::Founding => {
            let birth = entry_of(&creating.births, node);
            ask_one(alloc, FIRST_GENERATION, node, birth, &Errand::Found)
        }
    }
}
