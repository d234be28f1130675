// Arrivals: "Arrive(key) takes the lowest empty seat and answers with it." Document 02: "an arrival of a seated key has the outcome of the two calls in that
// order, notices and all", of Leave and then Arrive.
ghost use Rattle.std.specs.Prelude.{◌≡◌, true};
ghost use Rattle.rules.specs.Call.{arrive};
ghost use Rattle.rules.specs.Outcome.{outcome};
ghost use Rattle.room_laws.specs.View.{view_room};
ghost use Rattle.room_laws.specs.Whole.{room_whole};
ghost use Rattle.relay_laws.specs.Calls.{answer_of, Leaves};
ghost use Rattle.relay_laws.specs.Steps.{Made, departure_of, TakesSeat};
ghost use Rattle.relay.specs.Steps.{Ready};

use crate::leave;
use key::Key;
use records::{Accepted, Answer};
use refusal::Refusal;
use room::{Sizes, change, lookup};

// The client with a key leaves a whole room, if it is seated: how many bytes that writes.
fn leave_if_seated(memory: &mut [u8], sizes: Sizes, key: Key, out: &mut [u8]) -> usize
    requires { Ready sizes memory.old out.old }
    ensures { Made sizes.seats sizes.numbers (departure_of sizes.seats sizes.numbers memory.old key.0) memory.old out.old 0 memory.new result out.new }
{
    match lookup::seat_of(memory, sizes, key) {
        Some(old) => leave::depart(memory, sizes, old, out, 0),
        None => 0,
    }
}

// A key that sits nowhere in a whole room takes the lowest empty seat: 1. The answer counts the bytes that the call has written.
fn take_seat(memory: &mut [u8], sizes: Sizes, key: Key, bytes: usize) -> Answer
    requires { room_whole sizes.seats sizes.numbers memory.old ≡ true }
    ensures { TakesSeat sizes.seats sizes.numbers key.0 memory.old bytes (answer_of result) memory.new }
{
    let seat = lookup::lowest_empty(memory, sizes).ok_or(Refusal::RoomFull)?;
    change::take_seat(memory, sizes, seat, key);
    Ok(Accepted { seat, bytes })
}

// A key arrives in a whole room. One that is seated leaves first, so it is never refused.
pub(crate) fn step(memory: &mut [u8], sizes: Sizes, key: Key, out: &mut [u8]) -> Answer
    requires { Ready sizes memory.old out.old }
    ensures { Leaves sizes.seats sizes.numbers (outcome (view_room sizes.seats sizes.numbers memory.old) (arrive key.0)) memory.old out.old (answer_of result) memory.new out.new }
{
    let written = leave_if_seated(memory, sizes, key, out);
    take_seat(memory, sizes, key, written)
}
