//! Laws of the grammar.

ghost use Rattle.script_text.specs.Laws.{FactLinesAreEncoded, StepLinesAreEncoded, ScriptsAreEncoded, LogsAreEncoded, BadScriptLineIsLeast, BadFactLineIsLeast, FactReasonsAreOfBadLines, NodesReasonsAreOfBadLines, StepReasonsAreOfBadLines};

/// What is read of a line is encoded there, and what is encoded there is read.
pub fn lines_are_encoded()
    ensures fact { FactLinesAreEncoded }
    ensures step { StepLinesAreEncoded }
{}

/// What is read of a text is what its lines encode, and what they encode is read.
pub fn scripts_are_encoded()
    ensures script { ScriptsAreEncoded }
    ensures log { LogsAreEncoded }
{}

/// The lines before the bad line begin a good text, and with it they begin none.
pub fn bad_lines_are_least()
    ensures script { BadScriptLineIsLeast }
    ensures log { BadFactLineIsLeast }
{}

/// No reason is true of a line that is read at its place.
pub fn reasons_are_of_bad_lines()
    ensures fact { FactReasonsAreOfBadLines }
    ensures nodes { NodesReasonsAreOfBadLines }
    ensures step { StepReasonsAreOfBadLines }
{}
