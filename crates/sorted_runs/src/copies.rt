ghost use Rattle.std.specs.Prelude.{◌≡◌, IfOk};
ghost use Rattle.std.specs.Global.{Vec};
ghost use Rattle.std.specs.List.{AllZip};
ghost use Rattle.sorted_runs.specs.Copies.{IsEntryCopy, IsRunCopy};

use std::alloc::{AllocError, Global};

// The first keys of the runs, with memory of their own.
pub(crate) fn copy_keys<K: Copy + Drop>(alloc: Global, keys: &[K]) -> Result<Vec<K>, AllocError>
    ensures { IfOk result (λ v. v.items ≡ keys.now) }
{
    keys.iter().copied().collect(alloc)
}

// The runs, with memory of their own.
pub(crate) fn copy_runs<K: Copy + Drop, V: Clone + Drop>(
    alloc: Global,
    runs: &[Vec<(K, V)>],
) -> Result<Vec<Vec<(K, V)>>, AllocError>
    ensures { IfOk result (λ v. AllZip (IsRunCopy V.is_clone) runs.now v.items) }
{
    let mut copies = Vec::with_capacity(alloc, runs.len())?;
    for run in runs {
        copies.push(copy_run(alloc, run)?)?;
    }
    Ok(copies)
}

fn copy_run<K: Copy + Drop, V: Clone + Drop>(
    alloc: Global,
    run: &[(K, V)],
) -> Result<Vec<(K, V)>, AllocError>
    ensures { IfOk result (λ v. AllZip (IsEntryCopy V.is_clone) run.now v.items) }
{
    let mut copies = Vec::with_capacity(alloc, run.len())?;
    for entry in run {
        let value = entry.1.clone()?;
        copies.push((entry.0, value))?;
    }
    Ok(copies)
}
