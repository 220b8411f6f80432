//! The theorems about outputs and about drills.
ghost use Rattle.fleet_tool.specs.OneOutput.{OneOutput};
ghost use Rattle.fleet_tool.specs.PlainDrill.{PlainDrill};

/// An input has one output: what `run_text`, `check_text` and `inspect_text` write for it on Ok is always the same text.
pub fn one_output()
    ensures { OneOutput }
{}

/// The argument `drill` alone asks for 3 nodes, 4 workers of each kind and the small log.
pub fn plain_drill()
    ensures { PlainDrill }
{}
