// What a run of stored calls writes for a call, before its records: refusal (1 byte, 0 for none), seat (1), length of the records (2).
ghost use Rattle.std.specs.Prelude.{◌∷◌};
ghost use Rattle.wire.specs.Numbers.{bytes_of};
ghost use Rattle.records.specs.Entry.{answer_of, WritesHead, WritesEntry};

use crate::{Accepted, Answer};
use seat::Seat;

pub const HEAD: usize = 4;

// The head before `size` bytes of records, where the output has room for both.
fn head(out: &mut [u8], refusal: u8, seat: Seat, size: usize) -> usize
    ensures { WritesHead (refusal ∷ seat.0 ∷ bytes_of 2 size) size out.old result out.new }
{
    if out.len() < HEAD || out.len() - HEAD < size {
        return 0;
    }
    out[0] = refusal;
    out[1] = seat.0;
    wire::write_number(size as u64, &mut out[2..HEAD]);
    HEAD + size
}

// The head for an answer. Answers how many bytes it and the records behind it are; where these do not fit, nothing changes and the answer is 0.
// It is a count in each case, which a run of calls adds up, and so no `Option`.
#[tactic(auto, unfolding(crate::specs::Entry::answer_of, crate::specs::Entry::entry_head, crate::specs::Entry::written))]
pub fn write(answer: Answer, out: &mut [u8]) -> usize
    ensures { WritesEntry (answer_of answer) out.old result out.new }
{
    match answer {
        Ok(Accepted { seat, bytes }) => head(out, 0, seat, bytes),
        Err(why) => head(out, why.number(), Seat(0), 0),
    }
}
