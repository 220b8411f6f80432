//! The theorems of the volume protocol: engines that open, write and die at any moment, nodes that lose their files, and a network that
//! delays, repeats and loses what they send.
//!
//! A run (`specs/Runs`) has what each engine decides, and one move of one node a moment. A node may make a move that executes a request
//! (`specs/Protocol`) at any moment, once or many times, as long as the engine could have sent that request before; and what an engine has
//! sent depends only on answers that were given before, which it may have heard at any time (`specs/Opening`, `specs/Proposing`). So
//! requests and answers may be late, repeated or lost.
//!
//! `one_birth`, `no_return`: what a node never takes back. `quorums_stand`, `one_of_generation`, `votes_are_seen`, `epochs_are_seen`: what an engine may rely on
//! once its quorum has answered. `one_truncation`, `only_chosen`, `one_writer`: agreement on the truncation of each epoch.
//! `durable_lasts`, `opens_above`, `lo_rises`, `lo_is_point`: what was durable stays durable, and only whole commits are kept.
//! `parts_grow`, `fronts_reach`: what segments of a sound log have keeps to the rules. `some_run`, `some_admission`: the rules can be followed.
//! `stopped_follows` and its neighbours: the same of what was done by a moment of a run that follows the rules until then.
#![tactic(auto)]

ghost use Rattle.volume_theorems.specs.Lives.{OneBirth, NoReturn};
ghost use Rattle.volume_theorems.specs.Standing.{QuorumsStand, OneOfGeneration};
ghost use Rattle.volume_theorems.specs.Seeing.{VotesAreSeen, EpochsAreSeen};
ghost use Rattle.volume_theorems.specs.Choosing.{OneTruncation, OnlyChosen, OneWriter};
ghost use Rattle.volume_theorems.specs.Contents.{PartsGrow, FrontsReach};
ghost use Rattle.volume_theorems.specs.Sample.{SomeRun};
ghost use Rattle.volume_theorems.specs.Admitting.{SomeAdmission};
ghost use Rattle.volume_theorems.specs.Lasting.{DurableLasts, OpensAbove, LoRises, LoIsPoint};
ghost use Rattle.volume_theorems.specs.Stopping.{StoppedFollows, FollowsEach, FollowsOn, FollowsAll};
ghost use Rattle.volume_theorems.specs.ByMoment.{OneSentBy, LoRisesBy, LoIsHeld, OneWriterBy, DurableLastsBy, EpochsInOrder, NoneOvertakes};

/// In one birth a member stays one, its generation does not fall, and its accepted truncation and its facts only rise.
pub fn one_birth()
    ensures { OneBirth }
{}

/// A birth that has ended does not come back.
pub fn no_return()
    ensures { NoReturn }
{}

/// Once an engine has asked its whole quorum, no node of it is ever again a member of a lower generation.
pub fn quorums_stand()
    ensures { QuorumsStand }
{}

/// Of the engines with one generation at most one asks its whole quorum.
pub fn one_of_generation()
    ensures { OneOfGeneration }
{}

/// An engine finds a vote at or above what a quorum accepted under a lower generation.
pub fn votes_are_seen()
    ensures { VotesAreSeen }
{}

/// The union of an engine is of an epoch at or above what a quorum had under a lower generation.
pub fn epochs_are_seen()
    ensures { EpochsAreSeen }
{}

/// Two chosen truncations of one epoch are equal.
pub fn one_truncation()
    ensures { OneTruncation }
{}

/// No node takes a truncation that was not chosen.
pub fn only_chosen()
    ensures { OnlyChosen }
{}

/// At most one engine opens an epoch.
pub fn one_writer()
    ensures { OneWriter }
{}

/// No chosen truncation of a later epoch is below a commit point that was durable or that an epoch was opened at.
pub fn durable_lasts()
    ensures { DurableLasts }
{}

/// No later epoch is opened below such a commit point.
pub fn opens_above()
    ensures { OpensAbove }
{}

/// `lo` of the chosen truncations does not fall as epochs rise.
pub fn lo_rises()
    ensures { LoRises }
{}

/// `lo` of a chosen truncation is a commit point, or 0.
pub fn lo_is_point()
    ensures { LoIsPoint }
{}

/// What more facts of a sound log leave is later, as the rules about contents ask.
pub fn parts_grow()
    ensures { PartsGrow }
{}

/// A front at or above a commit point of its epoch has that commit point.
pub fn fronts_reach()
    ensures { FrontsReach }
{}

/// A run that follows the rules before a moment, and rests from then on, follows them throughout: so each theorem holds of what was done
/// before any moment, whatever comes later.
pub fn stopped_follows()
    ensures { StoppedFollows }
{}

/// A run that follows the rules follows them before each moment.
pub fn follows_each()
    ensures { FollowsEach }
{}

/// One more move by the rules. With this and `follows_all` a proof that a machine keeps the rules is an induction over time.
pub fn follows_on()
    ensures { FollowsOn }
{}

/// A run that follows the rules before each moment follows them.
pub fn follows_all()
    ensures { FollowsAll }
{}

/// By any moment at most one truncation of an epoch was sent, whatever comes later.
pub fn one_sent_by()
    ensures { OneSentBy }
{}

/// By any moment `lo` of the truncations that were sent rises with their epochs.
pub fn lo_rises_by()
    ensures { LoRisesBy }
{}

/// `lo` of a truncation that was sent was a commit point of a node, in the epoch before.
pub fn lo_is_held()
    ensures { LoIsHeld }
{}

/// By any moment at most one engine has opened an epoch.
pub fn one_writer_by()
    ensures { OneWriterBy }
{}

/// By any moment no truncation that was sent for a later epoch is below what was durable.
pub fn durable_lasts_by()
    ensures { DurableLastsBy }
{}

/// Truncations are sent for all epochs in order, where nodes have the truncations of the epochs that they have reached.
pub fn epochs_in_order()
    ensures { EpochsInOrder }
{}

/// An engine whose own truncation a quorum accepts from a moment on was not overtaken before: no other one of its epoch or a later one was sent.
pub fn none_overtakes()
    ensures { NoneOvertakes }
{}

/// There is a run that follows the rules, with a commit point that is durable.
pub fn some_run()
    ensures { SomeRun }
{}

/// There is one in which a node loses its files, is admitted, and then accepts the truncation of the next epoch.
pub fn some_admission()
    ensures { SomeAdmission }
{}
