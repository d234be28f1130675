// Ticks: document 02, "Notice dead laptops". "First, in rising seat order, every seat whose ping has stood unanswered for 10 seconds or more leaves as if it had
// called. Then every remaining seat with none outstanding, last pinged 30 seconds ago or more, is pinged in that order." Ages go by the tick's time.
ghost use Rattle.std.specs.Prelude.{◌≡◌, true, ◌≤◌, ◌<◌, ◌+◌, length};
ghost use Rattle.rules.specs.Room.{seat_at};
ghost use Rattle.rules.specs.Call.{tick};
ghost use Rattle.rules.specs.Outcome.{outcome, is_overdue, is_due};
ghost use Rattle.room_laws.specs.View.{view_room};
ghost use Rattle.room_laws.specs.Whole.{room_whole};
ghost use Rattle.relay_laws.specs.Calls.{answer_of, Leaves};
ghost use Rattle.room_laws.specs.Lookup.{ping_time_of};
ghost use Rattle.relay_laws.specs.Steps.{Made, NotBefore, has_passed, put_out_one, ping_one, PutsOut, PingsDue};

use crate::leave;
use records::{Accepted, Answer, record};
use refusal::Refusal;
use room::{Sizes, change, lookup};
use seat::Seat;

// A ping that has stood unanswered for so many seconds puts its client out.
const UNANSWERED: u64 = 10;

// A client that was last pinged so many seconds ago is pinged again.
const PING_EVERY: u64 = 30;

// Whether so many seconds or more have passed since the last ping of a seat. What stands in an empty seat may be any time.
#[tactic(auto, unfolding(relay_laws::specs::Steps::has_passed))]
fn passed(memory: &[u8], sizes: Sizes, seat: Seat, time: u64, seconds: u64) -> bool
    ensures { result ≡ has_passed (ping_time_of sizes.seats sizes.numbers memory.now seat.0) time seconds }
{
    let since = lookup::ping_time(memory, sizes, seat);
    since <= time && seconds <= time - since
}

// Whether the client in a seat has left a ping unanswered for 10 seconds or more. It stands beside `is_due`: each is one sentence of document 02, with a
// definition of its own.
fn is_overdue(memory: &[u8], sizes: Sizes, seat: Seat, time: u64) -> bool
    requires { (room_whole sizes.seats sizes.numbers memory.now ≡ true) × NotBefore sizes.seats sizes.numbers memory.now time }
    ensures { result ≡ is_overdue time (seat_at (view_room sizes.seats sizes.numbers memory.now) seat.0) }
{
    lookup::outstanding(memory, sizes, seat) != 0
        && passed(memory, sizes, seat, time, UNANSWERED)
        && lookup::is_taken(memory, sizes, seat)
}

// Whether the client in a seat is to be pinged.
fn is_due(memory: &[u8], sizes: Sizes, seat: Seat, time: u64) -> bool
    requires { (room_whole sizes.seats sizes.numbers memory.now ≡ true) × NotBefore sizes.seats sizes.numbers memory.now time }
    ensures { result ≡ is_due time (seat_at (view_room sizes.seats sizes.numbers memory.now) seat.0) }
{
    lookup::outstanding(memory, sizes, seat) == 0
        && passed(memory, sizes, seat, time, PING_EVERY)
        && lookup::is_taken(memory, sizes, seat)
}

// The client in a seat leaves if it has left a ping unanswered for 10 seconds or more; its records go behind the first `at` bytes of the output. A departure
// writes 5 bytes for each of 240 numbers at most, and room for one record more is asked for before it is known whether a number has a peer: 1,205.
fn put_out_one(
    memory: &mut [u8],
    sizes: Sizes,
    seat: Seat,
    time: u64,
    out: &mut [u8],
    at: usize,
) -> usize
    requires { (room_whole sizes.seats sizes.numbers memory.old ≡ true) × NotBefore sizes.seats sizes.numbers memory.old time × (at + 1205 ≤ length out.old) }
    ensures { Made sizes.seats sizes.numbers (put_out_one sizes.seats sizes.numbers time memory.old seat.0) memory.old out.old at memory.new result out.new }
{
    if !is_overdue(memory, sizes, seat, time) {
        return at;
    }
    leave::depart(memory, sizes, seat, out, at)
}

// Every client that has left a ping unanswered for 10 seconds or more leaves, in rising seat order, one after the other. All together write 3,900 bytes at most.
fn put_out(memory: &mut [u8], sizes: Sizes, time: u64, out: &mut [u8]) -> usize
    requires { (room_whole sizes.seats sizes.numbers memory.old ≡ true) × NotBefore sizes.seats sizes.numbers memory.old time × (5120 ≤ length out.old) }
    ensures { PutsOut sizes.seats sizes.numbers time memory.old out.old memory.new result out.new }
{
    let mut at = 0;
    for place in 0..sizes.seats {
        // A cast, here and in `ping_due`: a room has 40 seats at most, so that the fallible conversion could not fail.
        at = put_out_one(memory, sizes, Seat(place as u8), time, out, at);
    }
    at
}

// The client in a seat is pinged if it is due, in 12 bytes.
fn ping_one(
    memory: &mut [u8],
    sizes: Sizes,
    seat: Seat,
    time: u64,
    number: u64,
    out: &mut [u8],
    at: usize,
) -> usize
    requires { (room_whole sizes.seats sizes.numbers memory.old ≡ true) × NotBefore sizes.seats sizes.numbers memory.old time × (0 < number) × (at + 12 ≤ length out.old) }
    ensures { Made sizes.seats sizes.numbers (ping_one sizes.seats sizes.numbers time number memory.old seat.0) memory.old out.old at memory.new result out.new }
{
    if !is_due(memory, sizes, seat, time) {
        return at;
    }
    change::set_ping(memory, sizes, seat, time, number);
    record::pinged(out, at, seat, number)
}

// Every client that is due is pinged, in rising seat order, in a room whose clock is the tick's time: 480 bytes at most.
fn ping_due(
    memory: &mut [u8],
    sizes: Sizes,
    time: u64,
    number: u64,
    out: &mut [u8],
    at: usize,
) -> usize
    requires { (room_whole sizes.seats sizes.numbers memory.old ≡ true) × ((view_room sizes.seats sizes.numbers memory.old).clock ≡ time) × (0 < number) × (at + 480 ≤ length out.old) }
    ensures { PingsDue sizes.seats sizes.numbers time number memory.old out.old at memory.new result out.new }
{
    let mut next = at;
    for place in 0..sizes.seats {
        next = ping_one(memory, sizes, Seat(place as u8), time, number, out, next);
    }
    next
}

// A tick in a whole room: 7, 19.
pub(crate) fn step(
    memory: &mut [u8],
    sizes: Sizes,
    time: u64,
    number: u64,
    out: &mut [u8],
) -> Answer
    requires { (room_whole sizes.seats sizes.numbers memory.old ≡ true) × (5120 ≤ length out.old) }
    ensures { Leaves sizes.seats sizes.numbers (outcome (view_room sizes.seats sizes.numbers memory.old) (tick time number)) memory.old out.old (answer_of result) memory.new out.new }
{
    if number == 0 {
        return Err(Refusal::ZeroPing);
    }
    if time < lookup::clock(memory, sizes) {
        return Err(Refusal::ClockBack);
    }
    change::set_clock(memory, sizes, time);
    let at = put_out(memory, sizes, time, out);
    let bytes = ping_due(memory, sizes, time, number, out, at);
    Ok(Accepted {
        seat: Seat(0),
        bytes,
    })
}
