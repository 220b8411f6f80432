//! Decimal numbers.

ghost use Rattle.std.specs.Prelude.{◌≡◌, ◌≤◌, ◌<◌, ◌^◌, ◌∷◌, [], ℕ, IfSome, map, option_map};
ghost use Rattle.std.specs.List.{All, AllZip};
ghost use Rattle.text.specs.Number.{digits_of, decimal_value, number_on, number_front};
ghost use Rattle.text.specs.Parts.{parts_at};
ghost use Rattle.text.specs.Fields.{numbers_of, first_of, field_of, fields_in};

/// The number that the word's digits stand for, if it is at most `limit`.
fn digits(word: &[u8], limit: u64) -> Option<u64>
    requires { limit < 2 ^ 60 }
    ensures value { result ≡ digits_of limit word.now }
    ensures bound { IfSome result (λ n. n ≤ limit) }
{
    let mut value = 0u64;
    for c in word {
        if !c.is_ascii_digit() {
            return None;
        }
        value = 10 * value + u64::from(*c - b'0');
        if value > limit {
            return None;
        }
    }
    Some(value)
}

/// The number that the word encodes, if it is at most `limit`.
pub fn number(word: &[u8], limit: u64) -> Option<u64>
    requires { limit < 2 ^ 60 }
    ensures value { result ≡ decimal_value limit word.now }
    ensures bound { IfSome result (λ n. n ≤ limit) }
{
    match word {
        [] | [b'0', _, ..] => None,
        _ => digits(word, limit),
    }
}

/// The numbers that the fields encode: as many as there are limits, each at most its limit. None where a field encodes none, or there
/// is another number of fields.
pub fn numbers<const N: usize>(limits: [u64; N], fields: &[&[u8]]) -> Option<[u64; N]>
    requires { All (λ limit. limit < 2 ^ 60) limits }
    ensures value { result ≡ numbers_of limits.entry (map (λ x. x.now) fields.now) }
    ensures bound { IfSome result (λ ns. AllZip (λ n limit. n ≤ limit) ns limits.entry) }
{
    if fields.len() != N {
        return None;
    }
    let mut numbers = limits;
    for i in 0..N {
        numbers[i] = number(fields[i], limits[i])?;
    }
    Some(numbers)
}

/// The number whose first digits are `first` and that goes on in the text, if it is at most `limit`; and the text after it.
#[inline]
fn more_digits(first: u64, text: &[u8], limit: u64) -> Option<(u64, &[u8])>
    requires limit { limit < 2 ^ 60 }
    requires first { first ≤ limit }
    ensures value { option_map (λ p. (p.0, p.1.now)) result ≡ number_on limit first text.now }
    ensures bound { IfSome result (λ p. p.0 ≤ limit) }
{
    let mut value = first;
    let mut left = text;
    while let [c, behind @ ..] = left {
        if !c.is_ascii_digit() {
            break;
        }
        value = 10 * value + u64::from(*c - b'0');
        if value > limit {
            return None;
        }
        left = behind;
    }
    Some((value, left))
}

/// The number that the text begins with, if it is at most `limit`, and the text after it. A 0 is a number alone, so that digits after it
/// are left, and no field ends there.
#[inline]
pub fn number_before(text: &[u8], limit: u64) -> Option<(u64, &[u8])>
    requires { limit < 2 ^ 60 }
    ensures value { option_map (λ p. (p.0, p.1.now)) result ≡ number_front limit text.now }
    ensures bound { IfSome result (λ p. p.0 ≤ limit) }
{
    match text {
        [b'0', rest @ ..] => Some((0, rest)),
        [first @ b'1'..=b'9', rest @ ..] => {
            let value = u64::from(*first - b'0');
            if value > limit {
                return None;
            }
            more_digits(value, rest, limit)
        }
        _ => None,
    }
}

/// The number of the field up to the first space, if it is at most `limit`; and the text after the space, where there is one.
#[inline]
#[tactic(auto, using(crate::proofs::Cursor::front_is_first))]
pub(crate) fn first_field(text: &[u8], limit: u64) -> Option<(u64, Option<&[u8]>)>
    requires { limit < 2 ^ 60 }
    ensures value { option_map (λ p. (p.0, fields_in p.1)) result ≡ first_of limit (parts_at 32 text.now) }
    ensures bound { IfSome result (λ p. p.0 ≤ limit) }
{
    let (number, rest) = number_before(text, limit)?;
    match rest {
        [] => Some((number, None)),
        [b' ', behind @ ..] => Some((number, Some(behind))),
        _ => None,
    }
}

/// The same where a space ends the field; None where the text ends it.
#[inline]
pub fn field(text: &[u8], limit: u64) -> Option<(u64, &[u8])>
    requires { limit < 2 ^ 60 }
    ensures value { option_map (λ p. (p.0, parts_at 32 p.1.now)) result ≡ field_of limit (parts_at 32 text.now) }
    ensures bound { IfSome result (λ p. p.0 ≤ limit) }
{
    let (number, rest) = first_field(text, limit)?;
    match rest {
        Some(behind) => Some((number, behind)),
        None => None,
    }
}

/// The number of the one field of the text, if it is at most `limit`.
#[inline]
pub fn last_field(text: &[u8], limit: u64) -> Option<u64>
    requires { limit < 2 ^ 60 }
    ensures value { option_map (λ n. n ∷ []) result ≡ numbers_of (limit ∷ []) (parts_at 32 text.now) }
    ensures bound { IfSome result (λ n. n ≤ limit) }
{
    let (number, rest) = first_field(text, limit)?;
    match rest {
        None => Some(number),
        Some(_) => None,
    }
}

/// The numbers of two fields, each at most its limit.
#[inline]
pub fn two_fields(text: &[u8], first: u64, second: u64) -> Option<[u64; 2]>
    requires first { first < 2 ^ 60 }
    requires second { second < 2 ^ 60 }
    ensures value { result ≡ numbers_of (first ∷ second ∷ []) (parts_at 32 text.now) }
    ensures bound { IfSome result (λ ns. AllZip (λ n limit. n ≤ limit) ns (first ∷ second ∷ [])) }
{
    let (number, rest) = field(text, first)?;
    let other = last_field(rest, second)?;
    Some([number, other])
}

/// The numbers of three fields, each at most its limit.
#[inline]
pub fn three_fields(text: &[u8], first: u64, second: u64, third: u64) -> Option<[u64; 3]>
    requires first { first < 2 ^ 60 }
    requires second { second < 2 ^ 60 }
    requires third { third < 2 ^ 60 }
    ensures value { result ≡ numbers_of (first ∷ second ∷ third ∷ []) (parts_at 32 text.now) }
    ensures bound { IfSome result (λ ns. AllZip (λ n limit. n ≤ limit) ns (first ∷ second ∷ third ∷ [])) }
{
    let (number, rest) = field(text, first)?;
    let [other, last] = two_fields(rest, second, third)?;
    Some([number, other, last])
}
