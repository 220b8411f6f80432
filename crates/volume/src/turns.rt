ghost use Rattle.std.specs.Prelude.{◌≡◌, ◌∷◌, [], IfOk};
ghost use Rattle.volume.specs.Turning.{Stays, StopsWith};
ghost use Rattle.volume.specs.declared.actions.Action.TheVariants.{Refused as IsRefused};

use crate::actions::{Action, Fault};
use crate::phases::Phase;
use std::alloc::{AllocError, Global};

/// What a reply does to a phase.
#[derive(Drop)]
pub enum Transition {
    /// The phase goes on, as the call has left it.
    Stay(Vec<Action>),
    /// This phase comes next.
    Enter(Phase, Vec<Action>),
    /// The opening or the creation ends without success, or the volume is no longer open.
    End(Vec<Action>),
}

/// A turn without actions.
pub(crate) fn nothing(alloc: Global) -> Transition
    ensures { Stays result [] }
{
    Transition::Stay(Vec::new(alloc))
}

/// A turn that ends in a refusal. It fails only if memory runs out.
pub(crate) fn end(alloc: Global, fault: Fault) -> Result<Transition, AllocError>
    ensures { IfOk result (λ t. StopsWith t fault) }
{
    Ok(Transition::End(refuse(alloc, fault)?))
}

/// The one action of a refusal. It fails only if memory runs out.
pub(crate) fn refuse(alloc: Global, fault: Fault) -> Result<Vec<Action>, AllocError>
    ensures { IfOk result (λ v. v.items ≡ IsRefused fault ∷ []) }
{
    let mut actions = Vec::new(alloc);
    actions.push(Action::Refused { fault })?;
    Ok(actions)
}
