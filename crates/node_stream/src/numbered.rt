//! Request lines of a word alone, and of a word and numbers.

ghost use Rattle.std.specs.Prelude.{◌≡◌, map, IfSome};
ghost use Rattle.text.specs.Fields.{made_by};
ghost use Rattle.node_stream.specs.Asking.{IsInside};
ghost use Rattle.node_stream.specs.Reading.{lone_word, open_form, read_form, fold_form, freeze_form};
ghost use Rattle.node_stream.specs.Reading.{piece_form, stage_form, next_form, numbers_line};

use crate::asked::{Asked, Window};
use redo_core::{Key, MAX_NUMBER, MAX_READERS, Roster};
use replica::Request;
use text::limits::{LONG, PAGE, SHORT};
use text::{is_word, read_numbers};

/// The request that is a word alone.
#[tactic(auto, unfolding(crate::specs::Reading::lone_word))]
pub fn word(word: &[u8]) -> Option<Asked>
    ensures asks { result ≡ lone_word word.now }
    ensures inside { IfSome result (λ a. IsInside a.window) }
{
    let request = if is_word(word, b"front".as_slice()) {
        Request::Front
    } else if is_word(word, b"gap".as_slice()) {
        Request::Gap
    } else if is_word(word, b"state".as_slice()) {
        Request::State
    } else if is_word(word, b"ask".as_slice()) {
        Request::Ask
    } else if is_word(word, b"discard".as_slice()) {
        Request::Discard
    } else if is_word(word, b"tidy".as_slice()) {
        Request::Tidy
    } else if is_word(word, b"finish".as_slice()) {
        Request::Finish
    } else if is_word(word, b"unite".as_slice()) {
        Request::Unite
    } else {
        return None;
    };
    Some(Asked::new(request))
}

fn open(fields: &[&[u8]]) -> Option<Asked>
    ensures asks { result ≡ made_by open_form (map (λ x. x.now) fields.now) }
    ensures inside { IfSome result (λ a. IsInside a.window) }
{
    let [readers] = read_numbers([u64::from(MAX_READERS)], fields)?;
    let roster = Roster::new(readers as u8).ok()?;
    Some(Asked::new(Request::Open { roster }))
}

fn read(fields: &[&[u8]]) -> Option<Asked>
    ensures asks { result ≡ made_by read_form (map (λ x. x.now) fields.now) }
    ensures inside { IfSome result (λ a. IsInside a.window) }
{
    let [page, point, offset, len] = read_numbers([SHORT, MAX_NUMBER, PAGE, PAGE], fields)?;
    if len == 0 {
        return None;
    }
    if offset + len > PAGE {
        return None;
    }
    let page = page as u16;
    let window = Window {
        offset: offset as u16,
        len: len as u16,
    };
    Some(Asked {
        request: Request::Read { page, point },
        window,
    })
}

fn fold(fields: &[&[u8]]) -> Option<Asked>
    ensures asks { result ≡ made_by fold_form (map (λ x. x.now) fields.now) }
    ensures inside { IfSome result (λ a. IsInside a.window) }
{
    let [page] = read_numbers([SHORT], fields)?;
    let page = page as u16;
    Some(Asked::new(Request::Fold { page }))
}

fn freeze(fields: &[&[u8]]) -> Option<Asked>
    ensures asks { result ≡ made_by freeze_form (map (λ x. x.now) fields.now) }
    ensures inside { IfSome result (λ a. IsInside a.window) }
{
    let [name] = read_numbers([MAX_NUMBER], fields)?;
    Some(Asked::new(Request::Freeze { name }))
}

fn piece(fields: &[&[u8]]) -> Option<Asked>
    ensures asks { result ≡ made_by piece_form (map (λ x. x.now) fields.now) }
    ensures inside { IfSome result (λ a. IsInside a.window) }
{
    let [index] = read_numbers([LONG], fields)?;
    let index = index as u32;
    Some(Asked::new(Request::Piece { index }))
}

fn stage(fields: &[&[u8]]) -> Option<Asked>
    ensures asks { result ≡ made_by stage_form (map (λ x. x.now) fields.now) }
    ensures inside { IfSome result (λ a. IsInside a.window) }
{
    let [name, total] = read_numbers([MAX_NUMBER, LONG], fields)?;
    let total = total as u32;
    Some(Asked::new(Request::Stage { name, total }))
}

fn next(fields: &[&[u8]]) -> Option<Asked>
    ensures asks { result ≡ made_by next_form (map (λ x. x.now) fields.now) }
    ensures inside { IfSome result (λ a. IsInside a.window) }
{
    let [epoch, number] = read_numbers([SHORT, MAX_NUMBER], fields)?;
    let epoch = epoch as u16;
    let after = Some(Key { epoch, number });
    Some(Asked::new(Request::Next { after }))
}

/// The request that is a word and numbers.
#[tactic(auto, unfolding(crate::specs::Reading::numbers_line))]
pub fn numbers(fields: &[&[u8]]) -> Option<Asked>
    ensures asks { result ≡ numbers_line (map (λ x. x.now) fields.now) }
    ensures inside { IfSome result (λ a. IsInside a.window) }
{
    let (word, rest) = fields.split_first()?;
    if is_word(word, b"open".as_slice()) {
        open(rest)
    } else if is_word(word, b"read".as_slice()) {
        read(rest)
    } else if is_word(word, b"fold".as_slice()) {
        fold(rest)
    } else if is_word(word, b"freeze".as_slice()) {
        freeze(rest)
    } else if is_word(word, b"piece".as_slice()) {
        piece(rest)
    } else if is_word(word, b"stage".as_slice()) {
        stage(rest)
    } else if is_word(word, b"next".as_slice()) {
        next(rest)
    } else {
        None
    }
}
