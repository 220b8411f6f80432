//! Numbers up to 2^64 - 1, as generations and births are.

ghost use Rattle.std.specs.Prelude.{◌≡◌, ◌≤◌, IfSome, map};
ghost use Rattle.std.specs.List.{AllZip};
ghost use Rattle.text.specs.Number.{digits_of, decimal_value};
ghost use Rattle.text.specs.Fields.{numbers_of};

/// The greatest generation, and the greatest birth.
pub const WIDE: u64 = 18446744073709551615;

/// The number that the word's digits stand for, if it is at most `limit`.
fn wide_digits(word: &[u8], limit: u64) -> Option<u64>
    ensures value { result ≡ digits_of limit word.now }
    ensures bound { IfSome result (λ n. n ≤ limit) }
{
    let mut value = 0u64;
    for c in word {
        if !c.is_ascii_digit() {
            return None;
        }
        let next = 10 * u128::from(value) + u128::from(*c - b'0');
        if next > u128::from(limit) {
            return None;
        }
        value = next as u64;
    }
    Some(value)
}

/// The number that the word encodes, if it is at most `limit`.
pub fn wide_number(word: &[u8], limit: u64) -> Option<u64>
    ensures value { result ≡ decimal_value limit word.now }
    ensures bound { IfSome result (λ n. n ≤ limit) }
{
    match word {
        [] | [b'0', _, ..] => None,
        _ => wide_digits(word, limit),
    }
}

/// The numbers that the fields encode: as many as there are limits, each at most its limit.
pub fn wide_numbers<const N: usize>(limits: [u64; N], fields: &[&[u8]]) -> Option<[u64; N]>
    ensures value { result ≡ numbers_of limits.entry (map (λ x. x.now) fields.now) }
    ensures bound { IfSome result (λ ns. AllZip (λ n limit. n ≤ limit) ns limits.entry) }
{
    if fields.len() != N {
        return None;
    }
    let mut numbers = limits;
    for i in 0..N {
        numbers[i] = wide_number(fields[i], limits[i])?;
    }
    Some(numbers)
}
