// The calls of the relay on a room in the host's memory. Document 01's section "The room", and document 02's
// "Notice dead laptops" and "One call when a laptop comes back".
//
// Every call tests the room in full before it uses it. A refused call leaves every byte of the room and of the output.
ghost use Rattle.std.specs.Prelude.{◌≡◌};
ghost use Rattle.relay_laws.specs.Calls.{answer_of, Arrives, Departs, Sends, Ticks};
ghost use Rattle.banavoge_laws.specs.Answers.{ToldAs};
ghost use Rattle.banavoge_laws.specs.RelayCalls.{count_code, CallCounted, told, arrival_told};

use crate::answer;
use key::Key;
use relay::{Answer, calls};
use seat::Seat;

// The byte count of an accepted call, or minus the refusal's number.
#[tactic(auto, unfolding(banavoge_laws::specs::RelayCalls::count_code, banavoge_laws::specs::RelayCalls::CallCounted, relay_laws::specs::Calls::answer_of))]
fn count_of(given: Answer) -> i32
    requires { CallCounted (answer_of given) }
    ensures { result ≡ count_code (answer_of given) }
{
    given.map_or_else(answer::refused, |accepted| answer::count(accepted.bytes))
}

// A key arrives; one that is seated leaves first: the byte count of what is sent, and its seat is set; or minus 10, 11 or 1, and the seat's place is left.
pub fn banavoge_arrive(room: &mut [u8], key: &[u8; 32], out: &mut [u8], seat: &mut u8) -> i32
    ensures { ToldAs (arrival_told seat.old) (Arrives 40 32 key.now room.old out.old room.new out.new) (told result seat.new) }
{
    let given = calls::arrive(room, Key(*key), out);
    if let Ok(accepted) = given {
        *seat = accepted.seat.0;
    }
    count_of(given)
}

// The client in a seat leaves: the byte count of what is sent, or minus 10, 11 or 3.
pub fn banavoge_leave(room: &mut [u8], seat: u8, out: &mut [u8]) -> i32
    ensures { ToldAs count_code (Departs 40 32 seat room.old out.old room.new out.new) result }
{
    count_of(calls::leave(room, Seat(seat), out))
}

// The client in a seat sends a packet: the byte count of what is sent, or minus 10, 11 or 3 to 9.
pub fn banavoge_packet(room: &mut [u8], seat: u8, packet: &[u8], out: &mut [u8]) -> i32
    ensures { ToldAs count_code (Sends 40 32 seat packet.now room.old out.old room.new out.new) result }
{
    count_of(calls::packet(room, Seat(seat), packet, out))
}

// The clock moves on to a time, in whole seconds, with the number for those who are pinged: the byte count of what is sent, or minus 10, 11, 7 or 19.
pub fn banavoge_tick(room: &mut [u8], time: u64, number: u64, out: &mut [u8]) -> i32
    ensures { ToldAs count_code (Ticks 40 32 time number room.old out.old room.new out.new) result }
{
    count_of(calls::tick(room, time, number, out))
}
