ghost use Rattle.std.specs.Prelude.{◌≡◌, ◌<◌, length, IfOk};

use named_log::{LogFact, LogName};
use std::alloc::{AllocError, Global};

/// The first `facts` facts of the log, dealt to so many threads in turn.
pub fn deal<L: LogName>(
    alloc: Global,
    threads: usize,
    facts: usize,
) -> Result<Vec<Vec<LogFact<L>>>, AllocError>
    requires { 0 < threads }
    ensures { IfOk result (λ dealt. length dealt.items ≡ threads) }
{
    let mut dealt = Vec::new(alloc);
    for first in 0..threads {
        dealt.push(every_nth(alloc, first, threads, facts)?)?;
    }
    Ok(dealt)
}

fn every_nth<L: LogName>(
    alloc: Global,
    first: usize,
    threads: usize,
    facts: usize,
) -> Result<Vec<LogFact<L>>, AllocError>
    requires { 0 < threads }
{
    let mut share = Vec::new(alloc);
    for before in (first..facts).step_by(threads) {
        if let Some(fact) = LogFact::<L>::at(alloc, before as u64 + 1)? {
            share.push(fact)?;
        }
    }
    Ok(share)
}
