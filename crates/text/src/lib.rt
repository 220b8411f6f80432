//! The parts of a text: fields, decimal numbers, hexadecimal digits, and words followed by numbers.
//!
//! Whatever the grammar above is, a field is a number in one way, `read_number`, and a text is cut at a separator in one way, `first_part`.
//! `split_after` cuts a text after a separator, so that each part keeps whole lines.
//! `field` and its like read a line's numbers one by one, without a list of its fields; `read_numbers` reads them from such a list.
//! `numbers_are_decimals`: the words that are read as numbers are those that `Display` writes.
#![tactic(auto)]

mod fields;
mod hexed;
mod laws;
pub mod limits;
mod number;
mod wording;

pub use fields::{first_part, first_parts, is_word, split_after};
pub use hexed::{decoded, put_bytes};
pub use laws::numbers_are_decimals;
pub use number::{
    field, last_field, number as read_number, number_before, numbers as read_numbers, three_fields,
    two_fields,
};
pub use wording::{labelled, worded, worded_line};
