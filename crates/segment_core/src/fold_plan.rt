ghost use Rattle.std.specs.Prelude.{◌≡◌, IfOk};
ghost use Rattle.redo_core.specs.Writing.{after_records};

use redo_core::{Page, Record, apply};
use std::alloc::AllocError;
use std::marker::Model;
use thiserror::Error;

/// A page put together up to a version, which is an LSN.
#[derive(Drop)]
pub struct Folded {
    pub page: u16,
    pub version: u64,
    pub image: Page,
}

impl Folded {
    /// An equal fold with memory of its own. It fails only if memory runs out.
    pub fn copy(&self) -> Result<Self, AllocError>
        ensures { IfOk result (λ folded. folded ≡ self.now) }
    {
        Ok(Folded {
            page: self.page,
            version: self.version,
            image: self.image.copy()?,
        })
    }
}

/// Why a fold is not committed.
#[derive(Clone, Copy, Debug, PartialEq, Eq, Error)]
pub enum CommitFault {
    /// The version is above the segment's anchor.
    #[error("the version {version} is above the anchor {anchor}")]
    Ahead { version: u64, anchor: u64 },
    #[error("out of memory")]
    Memory,
}

/// All that a fold of one page needs: its image and the redo records to apply to it. Contracts see it as the page folded.
#[derive(Drop)]
pub struct FoldPlan {
    pub(crate) page: u16,
    pub(crate) version: u64,
    pub(crate) image: Page,
    pub(crate) records: Vec<Record>,
}

impl Model for FoldPlan {
    ghost use Rattle.redo_core.specs.Writing.{after_records};
    ghost use Rattle.segment_core.specs.declared.fold_plan.Folded.{Folded};

    ghost Value = { Folded };

    ghost view = { λ p. record { page = p.page; version = p.version; image = after_records p.image p.records.items } };
}

impl FoldPlan {
    /// The page at the anchor that the segment had when it made the plan. It takes no memory.
    pub fn fold(self) -> Folded
        ensures { result ≡ self }
    {
        let FoldPlan {
            page,
            version,
            mut image,
            records,
        } = self;
        apply_owned(&records, &mut image);
        Folded {
            page,
            version,
            image,
        }
    }
}

/// Applies records to a page, in order.
fn apply_owned(records: &[Record], page: &mut Page)
    ensures { page.new ≡ after_records page.old records.now }
{
    for redo in records {
        apply(redo, page);
    }
}
