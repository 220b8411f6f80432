//! The log of a volume: what its engines emit is one sound log, whatever engines die and whenever.
#![tactic(auto)]

ghost use Rattle.volume_logs.specs.LogSound.{LogIsSound, EpochsAreSound, LogGrows};
ghost use Rattle.volume_logs.specs.Commits.{CutsAtCommits, DurableIsCommit};
ghost use Rattle.volume_logs.specs.Readers.{CountedIsDurable, HeldLoIsKept};
ghost use Rattle.volume_logs.specs.Joining.{EmittedOn, EmittedFirst, PartsKeepRules, PartsUnite, FrontsMakeDurable};
ghost use Rattle.volume_logs.specs.Resuming.{ResumedGoesOn};
ghost use Rattle.volume_logs.specs.Sample.{SomeHistory};
ghost use Rattle.volume_logs.specs.TwoWriters.{TwoWriters};
ghost use Rattle.volume_logs.specs.Pages.{DurablePagesStay, PartsShowDurable, DurablePagesLast};

/// What was emitted before a moment, in the order of epochs, is a sound log: also where engines of earlier epochs still write.
pub fn log_is_sound()
    ensures { LogIsSound }
{}

/// So is what was emitted for the epochs up to one of them.
pub fn epochs_are_sound()
    ensures { EpochsAreSound }
{}

/// The log loses no fact.
pub fn log_grows()
    ensures { LogGrows }
{}

/// In each view from its epoch on, the pages up to a durable commit point are the same: a later engine reads what the commit wrote.
pub fn durable_pages_stay()
    ensures { DurablePagesStay }
{}

/// Whoever has facts of the log with a front at or above a durable commit point shows those pages: any node, replica or backup serves them.
pub fn parts_show_durable()
    ensures { PartsShowDurable }
{}

/// Nothing that is emitted later changes them: a page that was read at a durable commit point can be cached for ever.
pub fn durable_pages_last()
    ensures { DurablePagesLast }
{}

/// The log is cut at commit points alone: after a crash no view has a part of a mini-transaction.
pub fn cuts_at_commits()
    ensures { CutsAtCommits }
{}

/// What is durable is a commit point of the log: page 0 names it.
pub fn durable_is_commit()
    ensures { DurableIsCommit }
{}

/// A commit point that a quorum of counted nodes has reached is durable: a reader finds it without the engine.
pub fn counted_is_durable()
    ensures { CountedIsDurable }
{}

/// `lo` of a truncation that any node holds is kept for good: a reader may begin there, with one node alone.
pub fn held_lo_is_kept()
    ensures { HeldLoIsKept }
{}

/// A writer that begins with what a quorum has, and reads each page's last number from the page, goes on from the log of the epochs below.
pub fn resumed_goes_on()
    ensures { ResumedGoesOn }
{}

/// Nothing is emitted before the first moment, and the rules hold then.
pub fn emitted_first()
    ensures { EmittedFirst }
{}

/// They hold one moment more where what is new keeps them: so that engines keep them can be proved by induction over time.
pub fn emitted_on()
    ensures { EmittedOn }
{}

/// More facts of the log leave a content that the rules of the protocol allow: gossip of any kind does no harm.
pub fn parts_keep_rules()
    ensures { PartsKeepRules }
{}

/// Facts of the log that have what each node of a quorum has shown are a union, as an opening needs it.
pub fn parts_unite()
    ensures { PartsUnite }
{}

/// Fronts of a quorum make a commit durable, as the engine that writes hears them.
pub fn fronts_make_durable()
    ensures { FrontsMakeDurable }
{}

/// The rules can be kept, with a record, and an advance to a commit point that is durable.
pub fn some_history()
    ensures { SomeHistory }
{}

/// They can be kept while an engine of an earlier epoch still writes: its record comes after one of the later epoch.
pub fn two_writers()
    ensures { TwoWriters }
{}
