//! Frames inside the bytes of another frame.

ghost use Rattle.std.specs.Prelude.{◌≡◌, ◌++◌, ◌*◌, ◌≤◌, List, ℕ, length, IfSome, IfNone};
ghost use Rattle.framing.specs.Frames.{IsBegun, IsShort, framed};
ghost use Rattle.framing.specs.Inside.{AreInside};

use crate::frames::reading::length_of;

/// The first frame of some bytes, and the bytes after it; None where they begin with no whole frame.
pub fn split_frame(bytes: &[u8]) -> Option<(&[u8], &[u8])>
    ensures bytes { IfSome result (λ p. bytes.now ≡ framed p.0.now ++ p.1.now) }
    ensures short { IfSome result (λ p. IsShort p.0.now) }
    ensures none { IfNone result (IsBegun bytes.now) }
{
    let (head, behind) = bytes.split_first_chunk::<4>()?;
    let length = length_of(head);
    if behind.len() < length {
        return None;
    }
    Some(behind.split_at(length))
}

/// The number of frames that the bytes are, one after another; None where they are not whole frames.
pub fn count_frames(bytes: &[u8]) -> Option<usize>
    ensures some { IfSome result (λ n. (frames : List (List ℕ)) × AreInside bytes.now frames × (length frames ≡ n)) }
    ensures few { IfSome result (λ n. 4 * n ≤ length bytes.now) }
    ensures none { IfNone result ((frames : List (List ℕ)) → AreInside bytes.now frames → ⊥) }
{
    let mut rest = bytes;
    let mut count = 0;
    while !rest.is_empty() {
        let Some((_, behind)) = split_frame(rest) else {
            return None;
        };
        rest = behind;
        count += 1;
    }
    Some(count)
}
