// Pongs: document 02, "A pong with the outstanding number clears it; other pongs do nothing."
ghost use Rattle.std.specs.Prelude.{◌≡◌, true};
ghost use Rattle.room_laws.specs.Whole.{room_whole};
ghost use Rattle.relay_laws.specs.Calls.{answer_of};
ghost use Rattle.relay.specs.Steps.{Pongs};

use records::{Accepted, Answer};
use room::{Sizes, change, lookup};
use seat::Seat;

// A client's pong.
pub(crate) fn step(memory: &mut [u8], sizes: Sizes, seat: Seat, number: u64) -> Answer
    requires { room_whole sizes.seats sizes.numbers memory.old ≡ true }
    ensures { Pongs sizes.seats sizes.numbers seat.0 number memory.old (answer_of result) memory.new }
{
    if lookup::outstanding(memory, sizes, seat) == number {
        change::clear_ping(memory, sizes, seat);
    }
    Ok(Accepted { seat, bytes: 0 })
}
