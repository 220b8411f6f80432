ghost use Rattle.std.specs.Prelude.{◌≡◌, ℕ, ◌<◌, ◌≤◌, ◌↔◌, List, [], ◌∷◌, ◌++◌, length, slice_index_or, IfOk, OnOk, IsTrue, Some, Contains};
ghost use Rattle.redo_core.specs.declared.facts.Fact.{Fact};
ghost use Rattle.log_law.specs.Counted.{Describes};
ghost use Rattle.log_law.specs.Alive.{stack_of, IsStack, HoldsAlive, CanPush};
ghost use Rattle.log_law.specs.Links.{AreItems, IsInKeyOrder, KeyAtMost, SameItemKey, law_broken, JudgesItem, IsLeastBroken, IsFirstBrokenLink};

use crate::alive::AliveRecords;
use crate::counted::CountedCuts;
use redo_core::{Fact, Law, Record};
use std::alloc::{AllocError, Global};

/// A record's key, page and backlinks, and its index in the log (from 0).
#[derive(Clone, Copy, Drop)]
struct Item {
    // By falling size, so that little is padded: a log has many.
    place: usize,
    number: u64,
    back: u64,
    block_back: u64,
    epoch: u16,
    page: u16,
}

/// An index (from 0) whose record keeps law 2 and breaks law 3 or 4.
#[derive(Clone, Copy)]
pub(crate) struct BrokenLink {
    pub(crate) place: usize,
    pub(crate) law: Law,
}

/// The least index whose record keeps law 2 and breaks law 3 or 4. The only error is an allocation failure.
pub(crate) fn first_broken_link(
    alloc: Global,
    facts: &[Fact],
    cuts: &CountedCuts,
) -> Result<Option<BrokenLink>, AllocError>
    requires { Describes facts.now cuts.now }
    ensures { IfOk result (IsFirstBrokenLink facts.now) }
{
    let mut items = begun_items(alloc, facts, cuts)?;
    sort_by_key(&mut items)?;
    let least = least_broken(alloc, &items, cuts)?;
    Ok(least)
}

fn sort_by_key(items: &mut Vec<Item>) -> Result<(), AllocError>
    ensures order { OnOk result (IsInKeyOrder items.new.items) }
    ensures same { (log : List Fact) → AreItems log items.old.items → AreItems log items.new.items }
{
    if is_in_key_order(items) {
        return Ok(());
    }
    items.sort_by_key(|item| (item.epoch, item.number))?;
    Ok(())
}

/// Whether the items are already sorted, as those of most logs are.
fn is_in_key_order(items: &[Item]) -> bool
    ensures { IsTrue result ↔ IsInKeyOrder items.now }
{
    for place in 1..items.len() {
        if !is_key_at_most(&items[place - 1], &items[place]) {
            return false;
        }
    }
    true
}

/// Whether an item may be before another in key order.
fn is_key_at_most(item: &Item, other: &Item) -> bool
    ensures { IsTrue result ↔ KeyAtMost item.now other.now }
{
    item.epoch < other.epoch || (item.epoch == other.epoch && item.number <= other.number)
}

fn item_of(place: usize, redo: &Record) -> Item
    ensures { result ≡ record {
      place = place;
      epoch = redo.now.epoch;
      number = redo.now.number;
      page = redo.now.page;
      back = redo.now.back;
      block_back = redo.now.block_back;
    } }
{
    Item {
        place,
        epoch: redo.epoch(),
        number: redo.number(),
        page: redo.page(),
        back: redo.back(),
        block_back: redo.block_back(),
    }
}

fn begun_items(alloc: Global, facts: &[Fact], cuts: &CountedCuts) -> Result<Vec<Item>, AllocError>
    requires { Describes facts.now cuts.now }
    ensures { IfOk result (λ v. AreItems facts.now v.items) }
{
    let mut items = Vec::with_capacity(alloc, facts.len())?;
    for (place, fact) in facts.iter().enumerate() {
        if let Fact::Record(redo) = fact {
            if cuts.admits(redo.epoch(), redo.number()) {
                items.push(item_of(place, redo))?;
            }
        }
    }
    Ok(items)
}

fn least_broken(
    alloc: Global,
    items: &[Item],
    cuts: &CountedCuts,
) -> Result<Option<BrokenLink>, AllocError>
    ensures { (log : List Fact) → Describes log cuts.now → AreItems log items.now → IsInKeyOrder items.now → IfOk result (IsLeastBroken log items.now) }
{
    let mut alive = AliveRecords::new(alloc);
    let mut least = None;
    let mut start = 0;
    while start < items.len() {
        let end = group_end(items, start);
        let group = &items[start..end];
        alive.enter(items[start].epoch, cuts);
        least = least_in(group, &alive, least);
        push_all(&mut alive, group)?;
        start = end;
    }
    Ok(least)
}

fn group_end(items: &[Item], start: usize) -> usize
    requires { start < length items.now }
    ensures after { start < result }
    ensures within { result ≤ length items.now }
    ensures same { (k : ℕ) (d : Item) → start ≤ k → k < result → SameItemKey (slice_index_or items.now k d) (slice_index_or items.now start d) }
    ensures apart { (d : Item) → result < length items.now → SameItemKey (slice_index_or items.now result d) (slice_index_or items.now start d) → ⊥ }
{
    let first = items[start];
    let mut end = start + 1;
    while end < items.len()
        && items[end].epoch == first.epoch
        && items[end].number == first.number
    {
        end += 1;
    }
    end
}

fn broken_law(item: &Item, alive: &AliveRecords) -> Option<Law>
    requires { IsStack alive.now }
    ensures { result ≡ law_broken item.now (stack_of alive.now) }
{
    if item.back != alive.top() {
        return Some(Law::SegmentBacklink);
    }
    if item.block_back != alive.top_of(item.page) {
        return Some(Law::BlockBacklink);
    }
    None
}

fn earlier(least: Option<BrokenLink>, place: usize, law: Law) -> Option<BrokenLink>
    ensures { (log : List Fact) (past : List Item) (t : Item) → t.place ≡ place → IsLeastBroken log past least → JudgesItem log t (Some law)
        → IsLeastBroken log (past ++ t ∷ []) result }
{
    match least {
        Some(known) if known.place <= place => least,
        _ => Some(BrokenLink { place, law }),
    }
}

fn least_in(
    group: &[Item],
    alive: &AliveRecords,
    mut least: Option<BrokenLink>,
) -> Option<BrokenLink>
    requires { IsStack alive.now }
    ensures { (log : List Fact) (past : List Item) → IsLeastBroken log past least
        → ((t : Item) → Contains group.now t → JudgesItem log t (law_broken t (stack_of alive.now))) → IsLeastBroken log (past ++ group.now) result }
{
    for item in group {
        if let Some(law) = broken_law(item, alive) {
            least = earlier(least, item.place, law);
        }
    }
    least
}

fn push_all(alive: &mut AliveRecords, group: &[Item]) -> Result<(), AllocError>
    requires { IsStack alive.old }
    ensures view { alive.new.view ≡ alive.old.view }
    ensures stack { OnOk result (IsStack alive.new) }
    ensures holds { (log : List Fact) (past : List Item) → HoldsAlive log past alive.old → CanPush log group.now alive.old
        → OnOk result (HoldsAlive log (past ++ group.now) alive.new) }
{
    for item in group {
        alive.push(item.number, item.page)?;
    }
    Ok(())
}
