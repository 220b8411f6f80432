ghost use Rattle.std.specs.Prelude.{◌≡◌, ◌<◌, ◌≤◌, ◌++◌, ◌∷◌, [], length, IfOk, IfErr, OnErr, MatchResult};
ghost use Rattle.node_lock.specs.Passes.{AreIdle, AreNew, AreTrue, receipt_count};
ghost use Rattle.front_board.specs.FrontWord.{word_of};
ghost use Rattle.front_board.specs.Seat.{IsNode, Publishes, seen_of};
ghost use Rattle.node_cell.specs.Node.{IsPassOf};
ghost use Rattle.node_cell.specs.Retaining.{RunsSection};
ghost use Rattle.node_cell.specs.Reading.{ReportsRead, ReportsReadAfter};
ghost use Rattle.node_cell.specs.Folding.{IsFoldOfLog, RefusesFold, CommitsInto, DiscardsInto};
ghost use Rattle.node_cell.specs.Gossiping.{IsSummaryOfLog, IsMail, IsFrontWithMail, RefusesMail, AbsorbsMail};
ghost use Rattle.node_cell.specs.Delivering.{IsFrontWith, RefusesEntry, TakesPlace};

use crate::answers::{AbsorbFault, DeliverFault, ReadAfterFault};
use crate::closed::Closed;
use crate::folds::{FoldPlan, Folded};
use crate::kept::Kept;
use crate::mail::Mail;
use crate::receipts::{Ack, Receipt};
use crate::views::View;
use front_board::{Board, LogFront, Seat};
use messages::Summary;
use named_log::{LogFact, LogName};
use node_lock::{Lock, MAX_PASSES};
use redo_core::Refused;
use segment_core::{CommitFault, ReadFault};
use std::alloc::{AllocError, Global};
use std::marker::Model;
use std::sync::Wait;

/// The right to deliver to a node, under the pass's number. Contracts see the list of its receipts: of each the place in the trail and
/// the place in the log.
pub type Pass<L> = node_lock::Pass<Kept<L>>;

/// One critical section of a node: its state before and after. Only the node's lock makes one, so what a clause says of a section is
/// true of the node.
pub type Section<L> = node_lock::Section<Kept<L>>;

/// A node of a log: a segment and its trail under a lock. Contracts see its number on boards, how many entries its trail may have,
/// which lock it has and with how many passes it was opened.
#[derive(Drop)]
pub struct Node<L: LogName> {
    number: usize,
    capacity: u64,
    lock: Lock<Kept<L>>,
}

impl<L: LogName> Model for Node<L> {
    ghost use Rattle.node_cell.specs.Node.{NodeData};

    ghost Value = { NodeData };

    ghost view = { λ n. record { number = n.number; capacity = n.capacity; lock = n.lock.id; passes = n.lock.passes } };
}

impl<L: LogName> Node<L> {
    /// A node that no fact has reached, with its number on boards (from 1), its passes, 1 to 64, and how many entries its trail may
    /// have. It fails only if memory runs out.
    pub fn open(
        alloc: Global,
        number: usize,
        passes: u64,
        trail_capacity: u64,
    ) -> Result<(Node<L>, Vec<Pass<L>>), AllocError>
        requires { (0 < passes) × (passes ≤ MAX_PASSES) }
        ensures node { IfOk result (λ t. (t.0.number ≡ number) × (t.0.capacity ≡ trail_capacity) × (t.0.passes ≡ passes)) }
        ensures count { IfOk result (λ t. length t.1.items ≡ passes) }
        ensures passes { IfOk result (λ t. AreIdle t.0.lock t.1.items × AreNew 0 t.1.items) }
    {
        let kept = Kept::new(alloc)?;
        match Lock::open(alloc, kept, passes) {
            Ok((lock, dealt)) => {
                let node = Node {
                    number,
                    capacity: trail_capacity,
                    lock,
                };
                Ok((node, dealt))
            }
            Err(refused) => Err(refused.fault),
        }
    }

    /// Takes a fact and appends it to the trail in one critical section, and then publishes the front that the node has with it.
    /// A fact that was delivered before is acknowledged with a new place.
    ///
    /// Errors: `TrailFull` only where the trail is full; `Memory` only where it is not. The fact comes back, and the node is as it was.
    pub fn deliver<R: Wait>(
        &self,
        rt: &R,
        pass: &mut Pass<L>,
        board: &Board<L>,
        seat: &mut Seat<L>,
        fact: LogFact<L>,
    ) -> (
        Result<Ack<L>, Refused<LogFact<L>, DeliverFault>>,
        Section<L>,
    )
        requires pass { IsPassOf self.now pass.old }
        requires seat { seat.old.board ≡ board.now }
        requires number { IsNode board.now.words self.now.number }
        // The receipt is for the fact's place in the log, and joins the pass's list.
        ensures place { IfOk result.0 (λ a. (a.receipt.log_place ≡ fact.place) × (a.receipt.place ≡ length result.1.after.trail)) }
        ensures list { IfOk result.0 (λ a. pass.new ≡ record pass.old { list = pass.old.list ++ (a.receipt.place, a.receipt.log_place) ∷ [] }) }
        ensures section { MatchResult result.0
            (λ a. RunsSection L.roster L.log self.now.lock ((pass.old.number, fact.place) ∷ []) (λ old new. TakesPlace L.log old fact.place new) result.1)
            (λ e. RunsSection L.roster L.log self.now.lock [] (λ old new. new ≡ old) result.1) }
        // The front is that of one part of the log, which has the fact and those of the pass's earlier receipts.
        ensures front { IfOk result.0 (λ a. IsFrontWith L.roster L.log pass.old.list fact.place a.front) }
        ensures publishes { IfOk result.0 (λ a. Publishes L.log seat.old.seen seat.new.seen self.now.number (word_of a.front)) }
        ensures reached { IfOk result.0 (λ a. word_of a.front ≤ seen_of seat.new.seen self.now.number) }
        ensures board { seat.new.board ≡ seat.old.board }
        ensures refused { IfErr result.0 (λ e. RefusesEntry self.now.capacity (length result.1.before.trail) e.fault) }
        ensures back { IfErr result.0 (λ e. e.value ≡ fact) }
        ensures unchanged { OnErr result.0 ((pass.new ≡ pass.old) × (seat.new ≡ seat.old)) }
    {
        let log_place = fact.place();
        let number = pass.number();
        let mut turn = self.lock.take(rt, pass);
        let mut kept = turn.state;
        let answer = kept.put(number, self.capacity, fact);
        turn.state = kept;
        match answer {
            Ok((place, front)) => {
                let section = turn.post(log_place);
                board.publish(seat, self.number, front);
                let receipt = Receipt::new(place, log_place);
                (Ok(Ack { receipt, front }), section)
            }
            Err(refused) => {
                let section = turn.give();
                (Err(refused), section)
            }
        }
    }

    /// The page at a read point, from a state that has the facts of all receipts of the pass.
    ///
    /// Errors: `Below` with the minimum read point where the point is below it, else `Above` with the complete point where the point
    /// is above it; `Memory`.
    pub fn read<R: Wait>(
        &self,
        rt: &R,
        pass: &mut Pass<L>,
        page: u16,
        point: u64,
    ) -> Result<View<L>, ReadFault>
        requires { IsPassOf self.now pass.old }
        ensures pass { pass.new ≡ pass.old }
        ensures answer { ReportsRead L.roster L.log pass.old.list page point result }
    {
        let mut turn = self.lock.take(rt, pass);
        let mut kept = turn.state;
        let answer = kept.read(page, point);
        turn.state = kept;
        turn.give();
        answer
    }

    /// The page at a read point, from a state that has the fact of a receipt.
    ///
    /// Errors: `Stranger` where the receipt's fact is not at its place in the trail; then those of a read.
    pub fn read_after<R: Wait>(
        &self,
        rt: &R,
        receipt: &Receipt<L>,
        page: u16,
        point: u64,
    ) -> Result<View<L>, ReadAfterFault>
        ensures { ReportsReadAfter L.roster L.log receipt.now page point result }
    {
        let mut visit = self.lock.visit(rt);
        let answer = visit.state.read_after(receipt, page, point);
        visit.leave();
        answer
    }

    /// The node's summary, for another node to answer. It fails only if memory runs out.
    pub fn summary<R: Wait>(&self, rt: &R) -> Result<Summary, AllocError>
        ensures { IfOk result (IsSummaryOfLog L.roster L.log) }
    {
        let visit = self.lock.visit(rt);
        let answer = visit.state.summary();
        visit.leave();
        answer
    }

    /// What the node has beyond a summary, of whichever node and time. It fails only if memory runs out: the summary comes back.
    pub fn reply<R: Wait>(
        &self,
        rt: &R,
        summary: Summary,
    ) -> Result<Mail<L>, Refused<Summary, AllocError>>
        ensures summary { IfOk result (λ mail. mail.summary ≡ summary) }
        ensures mail { IfOk result (IsMail L.roster L.log) }
        ensures back { IfErr result (λ e. e.value ≡ summary) }
    {
        let visit = self.lock.visit(rt);
        let answer = visit.state.reply(summary);
        visit.leave();
        answer
    }

    /// Brings in what mail has beyond the summary that it was made for. The answer is the front that the node has with it.
    ///
    /// Errors: `Uncovered` where the node does not answer for that summary: its anchor where that is above the node's own, else the
    /// least key listed that the node cannot account for; `Memory`. The mail comes back.
    pub fn absorb<R: Wait>(
        &self,
        rt: &R,
        mail: Mail<L>,
    ) -> (
        Result<LogFront<L>, Refused<Mail<L>, AbsorbFault>>,
        Section<L>,
    )
        ensures section { RunsSection L.roster L.log self.now.lock [] (λ old new. AbsorbsMail mail result.0 old new) result.1 }
        ensures front { IfOk result.0 (IsFrontWithMail L.roster L.log mail) }
        ensures refused { IfErr result.0 (λ e. RefusesMail L.roster L.log result.1.before.segment mail e.fault) }
        ensures back { IfErr result.0 (λ e. e.value ≡ mail) }
    {
        let mut visit = self.lock.visit(rt);
        let answer = visit.state.absorb(mail);
        let section = visit.leave();
        (answer, section)
    }

    /// A plan to fold a page to the anchor, to be carried out apart from the node. It fails only if memory runs out.
    pub fn fold_plan<R: Wait>(&self, rt: &R, page: u16) -> Result<FoldPlan<L>, AllocError>
        ensures page { IfOk result (λ plan. plan.page ≡ page) }
        ensures fold { IfOk result (λ plan. IsFoldOfLog L.roster L.log plan) }
    {
        let visit = self.lock.visit(rt);
        let plan = visit.state.fold_plan(page);
        visit.leave();
        plan
    }

    /// Takes a fold of the log, of this node or another, as its page's base image. What the node means stays as it is, and a version
    /// not above the page's own changes nothing.
    ///
    /// Errors: `Ahead` where the version is above the anchor; `Memory`. The fold comes back.
    pub fn fold_commit<R: Wait>(
        &self,
        rt: &R,
        folded: Folded<L>,
    ) -> (Result<(), Refused<Folded<L>, CommitFault>>, Section<L>)
        ensures section { RunsSection L.roster L.log self.now.lock [] (λ old new. CommitsInto L.roster L.log folded result.0 old new) result.1 }
        ensures refused { IfErr result.0 (λ e. RefusesFold L.roster L.log result.1.before.segment folded e.fault) }
        ensures back { IfErr result.0 (λ e. e.value ≡ folded) }
    {
        let mut visit = self.lock.visit(rt);
        let answer = visit.state.commit(folded);
        let section = visit.leave();
        (answer, section)
    }

    /// Drops each record at or below the anchor that its page's base image has. What the node means stays as it is. It takes no memory.
    pub fn discard<R: Wait>(&self, rt: &R) -> Section<L>
        ensures { RunsSection L.roster L.log self.now.lock [] (λ old new. DiscardsInto L.roster L.log old new) result }
    {
        let mut visit = self.lock.visit(rt);
        visit.state.discard();
        visit.leave()
    }

    /// Closes the node. Each pass that is handed in has its entries of the trail, in order, and with all passes their receipts are the
    /// whole trail.
    pub fn close<R: Wait>(self, rt: &R, passes: Vec<Pass<L>>) -> Closed<L>
        requires { AreIdle self.lock passes.items }
        ensures lock { result.lock ≡ self.lock }
        ensures lists { AreTrue result.trail passes.items }
        ensures all { length passes.items ≡ self.passes → receipt_count passes.items ≡ length result.trail }
    {
        Closed::new(self.lock.close(rt, passes))
    }
}
