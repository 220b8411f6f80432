//! Short texts: words and numbers, which take no memory.

ghost use Rattle.std.specs.Prelude.{◌≡◌, ◌++◌, ◌+◌, ◌*◌, ◌≤◌, [], ◌∷◌, codes, length};
ghost use Rattle.std.specs.Fmt.{decimal};
ghost use Rattle.node_stream.specs.Telling.{numbers_behind, numbered};

use framing::Short;
use itoa::Buffer;

/// Appends bytes for which there is room.
pub fn put(text: &mut Short, bytes: &[u8])
    requires { length text.old.items + length bytes.now ≤ 256 }
    ensures items { text.new.items ≡ text.old.items ++ bytes.now }
    ensures len { length text.new.items ≡ length text.old.items + length bytes.now }
{
    text.try_extend_from_slice(bytes).unwrap();
}

/// A space and a number.
fn put_number(text: &mut Short, number: u64)
    requires { length text.old.items + 21 ≤ 256 }
    ensures items { text.new.items ≡ text.old.items ++ (codes " " ++ decimal number) }
    ensures len { length text.new.items ≤ length text.old.items + 21 }
{
    let mut buffer = Buffer::new();
    put(text, " ".as_bytes());
    put(text, buffer.format(number).as_bytes());
}

/// Numbers, each after a space.
pub fn put_numbers(text: &mut Short, numbers: &[u64])
    requires { length text.old.items + 21 * length numbers.now ≤ 256 }
    ensures items { text.new.items ≡ text.old.items ++ numbers_behind numbers.now }
    ensures len { length text.new.items ≤ length text.old.items + 21 * length numbers.now }
{
    for number in numbers {
        put_number(text, *number);
    }
}

/// Words, and numbers after them.
pub fn worded(words: &str, numbers: &[u64]) -> Short
    requires { length words.now + 21 * length numbers.now ≤ 256 }
    ensures text { result.items ≡ numbered words.now numbers.now }
    ensures few { length result.items ≤ length words.now + 21 * length numbers.now }
{
    let mut text = Short::new();
    put(&mut text, words.as_bytes());
    put_numbers(&mut text, numbers);
    text
}

/// Words, and a number of ten digits at most after them.
pub fn counted(words: &str, number: u32) -> Short
    requires { length words.now ≤ 100 }
    ensures text { result.items ≡ numbered words.now (number ∷ []) }
    ensures few { length result.items ≤ length words.now + 11 }
{
    let mut text = worded(words, &[]);
    let mut buffer = Buffer::new();
    put(&mut text, " ".as_bytes());
    put(&mut text, buffer.format(number).as_bytes());
    text
}
