ghost use Rattle.std.specs.Prelude.{◌≡◌, IfOk};
ghost use Rattle.node_cell.specs.Folding.{IsFoldOfLog};

use named_log::LogName;
use redo_core::Page;
use std::alloc::AllocError;
use std::marker::{Model, PhantomData};

/// All that a fold of one page needs. Contracts see it as the page folded: that of a part of the log at the part's anchor.
#[derive(Drop)]
pub struct FoldPlan<L: LogName> {
    plan: segment_core::FoldPlan,
    of: PhantomData<L>,
}

impl<L: LogName> Model for FoldPlan<L> {
    ghost use Rattle.segment_core.specs.declared.fold_plan.Folded.{Folded};
    ghost use Rattle.node_cell.specs.Folding.{IsFoldOfLog};

    ghost Value = { Folded };

    ghost view = { λ p. p.plan };

    ghost invariant = { λ p. IsFoldOfLog L.roster L.log p.plan };
}

impl<L: LogName> FoldPlan<L> {
    pub(crate) fn new(plan: segment_core::FoldPlan) -> Self
        requires { IsFoldOfLog L.roster L.log plan }
        ensures { result ≡ plan }
    {
        FoldPlan {
            plan,
            of: PhantomData,
        }
    }

    /// The page folded. It takes no memory.
    pub fn fold(self) -> Folded<L>
        ensures { result ≡ self }
    {
        Folded::new(self.plan.fold())
    }
}

/// The page of a part of the log at the part's anchor. It is the same for every larger part, so it fits each node of the log.
#[derive(Drop)]
pub struct Folded<L: LogName> {
    folded: segment_core::Folded,
    of: PhantomData<L>,
}

impl<L: LogName> Model for Folded<L> {
    ghost use Rattle.segment_core.specs.declared.fold_plan.Folded.{Folded};
    ghost use Rattle.node_cell.specs.Folding.{IsFoldOfLog};

    ghost Value = { Folded };

    ghost view = { λ f. f.folded };

    ghost invariant = { λ f. IsFoldOfLog L.roster L.log f.folded };
}

impl<L: LogName> Folded<L> {
    pub(crate) fn new(folded: segment_core::Folded) -> Self
        requires { IsFoldOfLog L.roster L.log folded }
        ensures { result ≡ folded }
    {
        Folded {
            folded,
            of: PhantomData,
        }
    }

    pub(crate) fn into_segment_fold(self) -> segment_core::Folded
        ensures value { result ≡ self }
        ensures own { IsFoldOfLog L.roster L.log result }
    {
        self.folded
    }

    /// An equal fold with memory of its own. It fails only if memory runs out.
    pub fn copy(&self) -> Result<Folded<L>, AllocError>
        ensures { IfOk result (λ folded. folded ≡ self.now) }
    {
        Ok(Folded {
            folded: self.folded.copy()?,
            of: PhantomData,
        })
    }

    pub fn page(&self) -> u16
        ensures { result ≡ self.now.page }
    {
        self.folded.page
    }

    /// The log sequence number up to which the image has the page.
    pub fn version(&self) -> u64
        ensures { result ≡ self.now.version }
    {
        self.folded.version
    }

    pub fn image(&self) -> &Page
        ensures value { result.now ≡ self.now.image }
        ensures own { IsFoldOfLog L.roster L.log self.now }
    {
        &self.folded.image
    }
}
