//! Test cases of a program: a line of its input, which names a call and its words and numbers, and the answer printed after it.
//!
//! No reading fails: a missing word, one that is no number, and a number too great for its type have a default.
#![tactic(auto)]

mod rows;

pub use rows::Row;

/// Whether a line ends a section of the input.
pub fn ends_section(line: &str) -> bool {
    line.starts_with("==")
}

/// A line's first word, and what follows the space after it.
pub fn first(line: &str) -> (&str, &str) {
    line.split_once(' ').unwrap_or((line, ""))
}

/// The word at an index of a list of words, counted from 0; an empty one where there is none.
pub fn word(words: &str, place: usize) -> &str {
    words.split(' ').nth(place).unwrap_or("")
}

/// The number at an index of a list of words, counted from 0; `otherwise` where that word is missing or no `u64`.
pub fn number_or(words: &str, place: usize, otherwise: u64) -> u64 {
    word(words, place).parse::<u64>().unwrap_or(otherwise)
}

/// The number at an index of a list of words, counted from 0; 0 where there is none.
pub fn number(words: &str, place: usize) -> u64 {
    number_or(words, place, 0)
}

/// The first four numbers of a list of words, 0 in place of each that is missing.
pub fn four(words: &str) -> [u64; 4] {
    [
        number(words, 0),
        number(words, 1),
        number(words, 2),
        number(words, 3),
    ]
}

/// The first eight numbers of a list of words, the greatest `u64` in place of each that is missing.
pub fn eight(words: &str) -> [u64; 8] {
    [
        number_or(words, 0, u64::MAX),
        number_or(words, 1, u64::MAX),
        number_or(words, 2, u64::MAX),
        number_or(words, 3, u64::MAX),
        number_or(words, 4, u64::MAX),
        number_or(words, 5, u64::MAX),
        number_or(words, 6, u64::MAX),
        number_or(words, 7, u64::MAX),
    ]
}

/// A reader or a byte; 255 for a greater number.
pub fn byte(number: u64) -> u8 {
    if number < 256 { number as u8 } else { u8::MAX }
}

/// A page, an epoch or a node; 65535 for a greater number.
pub fn short(number: u64) -> u16 {
    if number < 65_536 {
        number as u16
    } else {
        u16::MAX
    }
}

/// An index or a total of pieces; the greatest `u32` for a greater number.
pub fn long(number: u64) -> u32 {
    if number < 4_294_967_296 {
        number as u32
    } else {
        u32::MAX
    }
}

/// The number that the first eight bytes encode, the most significant first.
pub fn first_number(bytes: &[u8]) -> u64 {
    let mut number = 0u64;
    for byte in bytes.iter().take(8) {
        number = number.wrapping_mul(256).wrapping_add(u64::from(*byte));
    }
    number
}

/// An index in a list, or a count.
pub fn size(number: u64) -> usize {
    number as usize
}

/// The item with a number, counted from 1; None where there is none.
pub fn nth<T>(items: &[T], number: u64) -> Option<&T> {
    items.get(size(number).checked_sub(1)?)
}

/// The item with a number, counted from 1, to be changed; None where there is none.
pub fn nth_mut<T>(items: &mut [T], number: u64) -> Option<&mut T> {
    items.get_mut(size(number).checked_sub(1)?)
}
