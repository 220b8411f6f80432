//! How a text opens: with a roster, or without.

ghost use Rattle.std.specs.Prelude.{◌≡◌, ◌≤◌, drop};
ghost use Rattle.text.specs.Parts.{parts_at};
ghost use Rattle.text.specs.Fields.{made_by};
ghost use Rattle.script_text.specs.Script.{opening_with, opening_of, roster_form, roster_in_line};

use redo_core::{MAX_READERS, Roster};
use text::{first_part, is_word, last_field};

/// The roster of a text, how many lines name it, one or none, and the text after it.
#[derive(Drop)]
pub struct Preamble<'a> {
    pub roster: Roster,
    pub lines: usize,
    pub rest: &'a [u8],
}

/// The readers that the field behind `roster` names.
fn readers(field: &[u8]) -> Option<Roster>
    ensures { result ≡ made_by roster_form (parts_at 32 field.now) }
{
    let readers = last_field(field, u64::from(MAX_READERS))?;
    Roster::new(readers as u8).ok()
}

/// The roster that a line like `roster 2` names.
#[tactic(auto, unfolding(crate::specs::Script::roster_in_line))]
fn roster(line: &[u8]) -> Option<Roster>
    ensures { result ≡ roster_in_line line.now }
{
    let (word, field) = first_part(line, b' ')?;
    if is_word(word, b"roster") {
        readers(field)
    } else {
        None
    }
}

/// The roster that the first line names, or else the roster 1. A line that is not ended names none.
pub(crate) fn read_opening(text: &[u8]) -> Preamble<'_>
    ensures opens { opening_with result.roster result.lines ≡ opening_of (parts_at 10 text.now) }
    ensures some { result.lines ≤ 1 }
    ensures below { parts_at 10 result.rest.now ≡ drop result.lines (parts_at 10 text.now) }
{
    if let Some((first, rest)) = first_part(text, b'\n') {
        if let Some(roster) = roster(first) {
            return Preamble {
                roster,
                lines: 1,
                rest,
            };
        }
    }
    let roster = Roster::new(1).unwrap();
    Preamble {
        roster,
        lines: 0,
        rest: text,
    }
}
