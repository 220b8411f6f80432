ghost use Rattle.std.specs.Prelude.{◌≡◌, ℕ, unwrap_or};
ghost use Rattle.std.specs.Option.{option_copied};
ghost use Rattle.segment_join.specs.Sameness.{ReportsSame};
ghost use Rattle.script_steps.specs.declared.steps.Step.TheVariants.{Join as JoinOf, Same as SameOf, Covers as CoversOf};
ghost use Rattle.fleet_core.specs.AtNode.{OwnFollows};
ghost use Rattle.fleet_core.specs.Calls.{JoinsBeside, RepliesAnswer, ReportsCovers};
ghost use Rattle.fleet_core.specs.Refused.{IsRefusal};
ghost use Rattle.fleet_core.specs.declared.replies.Reply.TheVariants.{NoNode, NoMessage};

use crate::replies::Reply;
use crate::replying::joined_reply;
use segment_core::Segment;
use segment_join::{covers, join, same};

/// Brings what the other node means into a node; a node that is joined with itself stays as it is.
pub(crate) fn join_beside(segment: &mut Segment, other: Option<&Segment>) -> Reply
    ensures follows { (readers node from : ℕ) → OwnFollows readers segment.old (option_copied other.entry) (JoinOf node from) result segment.new }
    ensures calls { JoinsBeside segment.old (option_copied other.entry) result segment.new }
    ensures found { (node : ℕ) → result ≡ NoNode node → ⊥ }
    ensures named { (number : ℕ) → result ≡ NoMessage number → ⊥ }
    ensures refused { IsRefusal result → segment.new ≡ segment.old }
{
    match other {
        Some(other) => joined_reply(join(segment, other)),
        None => Reply::Joined,
    }
}

/// Whether a node and the other one mean the same. A node means the same as itself.
pub(crate) fn same_beside(segment: &Segment, other: Option<&Segment>) -> Reply
    ensures follows { (readers node than : ℕ) → OwnFollows readers segment.now (option_copied other.entry) (SameOf node than) result segment.now }
    ensures calls { RepliesAnswer (ReportsSame segment.now (unwrap_or (option_copied other.entry) segment.now)) result }
    ensures found { (node : ℕ) → result ≡ NoNode node → ⊥ }
    ensures named { (number : ℕ) → result ≡ NoMessage number → ⊥ }
{
    match same(segment, other.unwrap_or(segment)) {
        Ok(answer) => Reply::Answer(answer),
        Err(_) => Reply::Memory,
    }
}

/// Whether what a node means covers what the other one means. A node covers itself.
pub(crate) fn covers_beside(segment: &Segment, other: Option<&Segment>) -> Reply
    ensures follows { (readers node than : ℕ) → OwnFollows readers segment.now (option_copied other.entry) (CoversOf node than) result segment.now }
    ensures calls { RepliesAnswer (ReportsCovers segment.now (unwrap_or (option_copied other.entry) segment.now)) result }
    ensures found { (node : ℕ) → result ≡ NoNode node → ⊥ }
    ensures named { (number : ℕ) → result ≡ NoMessage number → ⊥ }
{
    match covers(segment, other.unwrap_or(segment)) {
        Ok(answer) => Reply::Answer(answer),
        Err(_) => Reply::Memory,
    }
}
