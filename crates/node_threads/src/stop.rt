ghost use Rattle.std.specs.Prelude.{◌≡◌, ◌≢◌, IfSome};

use std::sync::{OnceLock, OnceToken};

/// Whether a worker could not be started: set once, to its number, or to 0 where all were started.
pub(crate) type StopSignal = OnceLock<u64>;

/// Evidence that a worker could not be started.
pub(crate) type StopToken<'s> = OnceToken<'s, u64>;

/// Whether the other workers have to stop.
pub(crate) fn told<'s>(stop: &'s StopSignal) -> Option<StopToken<'s>>
    ensures { IfSome result (λ t. (t.of ≡ stop.now.id) × (t.value ≢ 0)) }
{
    let token = stop.witness()?;
    if *stop.value(&token) == 0 {
        return None;
    }
    Some(token)
}
