//! The text of scripts: its grammar, and its reader.
//!
//! A text is lines, each ended by LF, of fields between single spaces. `read_script` returns the log and the steps of a whole script,
//! `read_facts` the log of fact lines alone; the first line of both may name the log's roster. Both return exactly what `specs/` says,
//! and else the least bad line with a reason that is true of it. `read_fact` reads one line, with a reason too.
//! `read_script_by` and `read_facts_by` return the same, and several threads read the fact lines of a long text, in blocks of whole lines.
//! The theorems of `laws` say it without the reader: which lines encode which fact or step, which lines are a script, that the lines
//! before the bad line begin a script, which they do no more with it, and that no reason is true of a line that is read.
#![tactic(auto)]

mod blocks;
mod contents;
mod encoding;
mod fact_line;
mod field_reasons;
mod forms;
mod laws;
mod opening;
mod patch_reasons;
mod reasons;
mod script;
mod step_line;

pub use blocks::{read_facts_by, read_script_by};
pub use encoding::fact_text;
pub use fact_line::fact as read_fact;
pub use laws::{
    bad_lines_are_least, lines_are_encoded, reasons_are_of_bad_lines, scripts_are_encoded,
};
pub use reasons::{FactError, LineReason, NumberFault, PatchFault, TextReason};
pub use script::{FactLog, Script, ScriptError, read_facts, read_script};
