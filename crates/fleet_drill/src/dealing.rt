ghost use Rattle.std.specs.Prelude.{◌<◌};

use named_log::{LogFact, LogName};
use std::alloc::{AllocError, Global};

/// The facts at the places that fall to the node of this number, where the first `facts` places are dealt to so many nodes in turn.
pub(crate) fn deal<L: LogName>(
    alloc: Global,
    number: usize,
    nodes: usize,
    facts: usize,
) -> Result<Vec<LogFact<L>>, AllocError>
    requires { 0 < nodes }
{
    let mut dealt = Vec::new(alloc);
    for before in 0..facts {
        if before % nodes + 1 == number {
            if let Some(fact) = LogFact::<L>::at(alloc, before as u64 + 1)? {
                dealt.push(fact)?;
            }
        }
    }
    Ok(dealt)
}
