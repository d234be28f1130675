// The bytes held at the front of the keep and the piece behind them, read as one without being put together.
ghost use Rattle.std.specs.Prelude.{◌++◌, ◌≡◌, ◌<◌, ◌≤◌, length, MatchOption};
ghost use Rattle.frame.specs.Frames.{length_of, front};

use crate::{LENGTH_BYTES, LONGEST_LENGTH, SHORTEST_LENGTH};
use frame::Front;

// The length at their front, where both of its bytes are there.
fn length_of(held: &[u8], piece: &[u8]) -> Option<usize>
    ensures { MatchOption result (length (held.now ++ piece.now) < 2) (λ n. (2 ≤ length (held.now ++ piece.now)) × (n ≡ length_of (held.now ++ piece.now))) }
{
    let both = match held {
        [high, low, ..] => [*high, *low],
        [high] => [*high, *piece.first()?],
        [] => *piece.first_chunk()?,
    };
    Some(usize::from(u16::from_be_bytes(both)))
}

// What stands at the front of these bytes. The length is judged "as soon as both length bytes are there".
pub(crate) fn front_of(held: &[u8], piece: &[u8]) -> Front
    ensures { result ≡ front (held.now ++ piece.now) }
{
    let Some(length) = length_of(held, piece) else {
        return Front::Unfinished;
    };
    if !(SHORTEST_LENGTH..=LONGEST_LENGTH).contains(&length) {
        return Front::BadLength;
    }
    let size = LENGTH_BYTES + length;
    if held.len() + piece.len() < size {
        return Front::Unfinished;
    }
    Front::Whole(size)
}
