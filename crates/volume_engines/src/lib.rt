//! An engine that only steps its machine keeps the rules of the volume protocol.
#![tactic(auto)]

ghost use Rattle.volume_engines.specs.Engines.{LivesNameEngines, NamesHoldBefore};
ghost use Rattle.volume_engines.specs.Proposed.{PlansInOrder};
ghost use Rattle.volume_engines.specs.Admitted.{AdmissionsKeepRules, RequestsKeepRules};
ghost use Rattle.volume_engines.specs.Following.{LivesFollowOn};
ghost use Rattle.volume_engines.specs.Openings.{OneLifeOpens, OpeningsAreDurable, OpeningsLast, TakesKeepRules};
ghost use Rattle.volume_engines.specs.Running.{MachinesKeepRules};
ghost use Rattle.volume_engines.specs.Keeping.{ReportsLast};
ghost use Rattle.volume_engines.specs.Proposals.{ProposalsKeepRules};
ghost use Rattle.volume_engines.specs.Reporting.{ReportsAreDurable};
ghost use Rattle.volume_engines.specs.Writers.{EmissionsKeepRules};
ghost use Rattle.volume_engines.specs.Resuming.{OpeningsGoOn};

/// Of one epoch a life proposes one truncation, pending ones before the engine's own.
pub fn plans_in_order()
    ensures { PlansInOrder }
{}

/// Each life names an engine, so that to name one is no condition on lives.
pub fn lives_name_engines()
    ensures { LivesNameEngines }
{}

/// An engine that has the name of a life has it after each number of its steps.
pub fn names_hold_before()
    ensures { NamesHoldBefore }
{}

/// What a machine that only steps proposes, the rules of the protocol let its engine propose.
pub fn proposals_keep_rules()
    ensures { ProposalsKeepRules }
{}

/// What it reports as durable is durable in the run, where the run's history has what it emits.
pub fn reports_are_durable()
    ensures { ReportsAreDurable }
{}

/// What it emits, the rules let the writer of its epoch emit.
pub fn emissions_keep_rules()
    ensures { EmissionsKeepRules }
{}

/// The writer that it begins with, made of what the union stores, goes on from the epochs below.
pub fn openings_go_on()
    ensures { OpeningsGoOn }
{}

/// Which truncations such a machine has nodes take: those that a quorum has accepted.
pub fn takes_keep_rules()
    ensures { TakesKeepRules }
{}

/// Which nodes such a machine admits: those that the rules let its engine admit.
pub fn admissions_keep_rules()
    ensures { AdmissionsKeepRules }
{}

/// What such a machine asks of guards, the rules allow an engine to ask.
pub fn requests_keep_rules()
    ensures { RequestsKeepRules }
{}

/// A guard that executes what such a machine asks makes a move with which the run goes on by the rules.
pub fn lives_follow_on()
    ensures { LivesFollowOn }
{}

/// A run of such machines and of guards keeps the rules of the protocol and of the log, and its segments mean facts of the log.
pub fn machines_keep_rules()
    ensures { MachinesKeepRules }
{}

/// What such a machine reports as open is durable.
pub fn openings_are_durable()
    ensures { OpeningsAreDurable }
{}

/// One engine at most reports an epoch as open.
pub fn one_life_opens()
    ensures { OneLifeOpens }
{}

/// What one such machine reports as open, no later truncation of another one annuls.
pub fn openings_last()
    ensures { OpeningsLast }
{}

/// What a machine reports as durable in such a run, no later truncation annuls.
pub fn reports_last()
    ensures { ReportsLast }
{}
