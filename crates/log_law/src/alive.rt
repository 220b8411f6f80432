ghost use Rattle.std.specs.Prelude.{◌≡◌, ◌<◌, ◌≤◌, List, [], ◌∷◌, length, OnOk, OnErr, ◌+◌};
ghost use Rattle.redo_core.specs.declared.facts.Fact.{Fact};
ghost use Rattle.log_law.specs.declared.links.Item.{Item};
ghost use Rattle.log_law.specs.Counted.{Describes};
ghost use Rattle.log_law.specs.Alive.{stack_of, top_number, page_top, without_above, without_top, IsStack, HoldsAlive};

use crate::counted::CountedCuts;
use std::alloc::{AllocError, Global};

/// A record on the stack of alive ones.
#[derive(Clone, Copy)]
pub(crate) struct Entry {
    number: u64,
    page: u16,
    /// The greatest LSN of the page beneath, or 0.
    beneath: u64,
}

/// The records of some epochs that are alive in a view, by rising LSN, with the greatest LSN of each page.
#[derive(Drop)]
pub(crate) struct AliveRecords {
    view: u16,
    entries: Vec<Entry>,
    /// As long as the records required: a page past its end has none.
    page_tops: Vec<u64>,
}

impl AliveRecords {
    /// No record, in the view of epoch 0.
    pub(crate) fn new(alloc: Global) -> Self
        ensures stack { IsStack result }
        ensures none { stack_of result ≡ [] }
        ensures view { result.view ≡ 0 }
    {
        AliveRecords {
            view: 0,
            entries: Vec::new(alloc),
            page_tops: Vec::new(alloc),
        }
    }

    /// The greatest LSN, or 0.
    pub(crate) fn top(&self) -> u64
        ensures { result ≡ top_number (stack_of self.now) }
    {
        match self.entries.last() {
            Some(entry) => entry.number,
            None => 0,
        }
    }

    /// The greatest LSN of a page, or 0.
    pub(crate) fn top_of(&self, page: u16) -> u64
        requires { IsStack self.now }
        ensures { result ≡ page_top page (stack_of self.now) }
    {
        self.page_tops.get(usize::from(page)).copied().unwrap_or(0)
    }

    /// Pushes a record.
    pub(crate) fn push(&mut self, number: u64, page: u16) -> Result<(), AllocError>
        requires { IsStack self.old }
        ensures stack { OnOk result (IsStack self.new) }
        ensures top { OnOk result (stack_of self.new
            ≡ record { number = number; page = page; beneath = page_top page (stack_of self.old) } ∷ stack_of self.old) }
        ensures view { self.new.view ≡ self.old.view }
        ensures err { OnErr result ((stack_of self.new ≡ stack_of self.old) × IsStack self.new) }
    {
        let beneath = self.top_of(page);
        self.reach(page)?;
        self.entries.push(Entry {
            number,
            page,
            beneath,
        })?;
        self.page_tops[usize::from(page)] = number;
        Ok(())
    }

    // Lengthens the table until it has the page.
    fn reach(&mut self, page: u16) -> Result<(), AllocError>
        requires { IsStack self.old }
        ensures stack { IsStack self.new }
        ensures reached { OnOk result (page < length self.new.page_tops.items) }
        ensures entries { self.new.entries ≡ self.old.entries }
        ensures view { self.new.view ≡ self.old.view }
    {
        let len = usize::from(page) + 1;
        if self.page_tops.len() < len {
            self.page_tops.resize(len, 0)?;
        }
        Ok(())
    }

    fn pop(&mut self)
        requires { IsStack self.old }
        ensures stack { IsStack self.new }
        ensures rest { stack_of self.new ≡ without_top (stack_of self.old) }
        ensures view { self.new.view ≡ self.old.view }
    {
        if let Some(entry) = self.entries.pop() {
            self.page_tops[usize::from(entry.page)] = entry.beneath;
        }
    }

    fn pop_above(&mut self, lo: u64)
        requires { IsStack self.old }
        ensures stack { IsStack self.new }
        ensures rest { stack_of self.new ≡ without_above lo (stack_of self.old) }
        ensures view { self.new.view ≡ self.old.view }
    {
        while self.top() > lo {
            self.pop();
        }
    }

    /// The epoch of the view.
    pub(crate) fn view(&self) -> u16
        ensures { result ≡ self.now.view }
    {
        self.view
    }

    /// Advances to the view of the next epoch, whose truncation is at `lo`.
    pub(crate) fn begin(&mut self, lo: u64)
        requires stack { IsStack self.old }
        requires epoch { self.old.view < 65535 }
        ensures stack { IsStack self.new }
        ensures rest { stack_of self.new ≡ without_above lo (stack_of self.old) }
        ensures view { self.new.view ≡ self.old.view + 1 }
    {
        self.view += 1;
        self.pop_above(lo);
    }

    /// Advances to the view of a later epoch.
    pub(crate) fn enter(&mut self, epoch: u16, cuts: &CountedCuts)
        requires { IsStack self.old }
        ensures stack { IsStack self.new }
        ensures view { self.old.view ≤ epoch → self.new.view ≡ epoch }
        ensures holds { (log : List Fact) (past : List Item) → Describes log cuts.now → HoldsAlive log past self.old → HoldsAlive log past self.new }
    {
        while self.view < epoch {
            self.view += 1;
            if let Some(cut) = cuts.at(self.view) {
                self.pop_above(cut.lo());
            }
        }
    }
}
