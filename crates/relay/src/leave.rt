// Leaves: "in rising route number, each connected peer is told disconnected with the peer's own number; its route goes on waiting. The seat and its
// routes are emptied."
ghost use Rattle.std.specs.Prelude.{◌≡◌, true, ◌+◌, ◌-◌, ◌≤◌, length, get_or};
ghost use Rattle.rules.specs.Room.{free};
ghost use Rattle.rules.specs.Call.{leave};
ghost use Rattle.rules.specs.Outcome.{outcome, tell_peer, tell_peers};
ghost use Rattle.room_laws.specs.Layout.{routes_table};
ghost use Rattle.room_laws.specs.View.{view_room, view_routes};
ghost use Rattle.room_laws.specs.Whole.{room_whole};
ghost use Rattle.records.specs.Output.{Appends};
ghost use Rattle.relay_laws.specs.Calls.{answer_of, Leaves};
ghost use Rattle.room_laws.specs.Lookup.{taken};
ghost use Rattle.relay_laws.specs.Steps.{Made, TellsFit, departure, LeaveFits};
ghost use Rattle.relay.specs.Steps.{Ready, Sits};

use crate::Client;
use packet::ConnectionNumber;
use records::{Accepted, Answer, record};
use refusal::Refusal;
use room::{Room, Sizes, change, lookup, peer};
use seat::Seat;

// The connected peer under one number of a client is told disconnected.
pub(crate) fn tell_peer(
    memory: &[u8],
    sizes: Sizes,
    client: Client,
    number: ConnectionNumber,
    out: &mut [u8],
    at: usize,
) -> usize
    requires { (room_whole sizes.seats sizes.numbers memory.now ≡ true) × Sits sizes.seats sizes.numbers memory.now client.seat.0 client.key.0 × (at + 5 ≤ length out.old) × (16 ≤ number.0) }
    ensures { Appends (tell_peer (view_room sizes.seats sizes.numbers memory.now) client.seat.0 client.key.0 (get_or (view_routes sizes.numbers (routes_table sizes.seats sizes.numbers memory.now client.seat.0)) (number.0 - 16) free)) out.old at result out.new }
{
    let Some(wanted) = lookup::wanted_by(memory, sizes, client.seat, number) else {
        return at;
    };
    match peer::of(memory, sizes, client.seat, client.key, wanted) {
        Some(peer) => record::disconnected(out, at, peer.seat, peer.number),
        None => at,
    }
}

// Every connected peer of a client is told, in rising number.
fn tell_peers(memory: &[u8], sizes: Sizes, client: Client, out: &mut [u8], at: usize) -> usize
    requires { (room_whole sizes.seats sizes.numbers memory.now ≡ true) × Sits sizes.seats sizes.numbers memory.now client.seat.0 client.key.0 × TellsFit sizes.seats sizes.numbers memory.now client.seat.0 client.key.0 out.old at }
    ensures { Appends (tell_peers (view_room sizes.seats sizes.numbers memory.now) client.seat.0 client.key.0 (view_routes sizes.numbers (routes_table sizes.seats sizes.numbers memory.now client.seat.0))) out.old at result out.new }
{
    let mut next = at;
    for place in 0..sizes.numbers {
        // A cast: a seat has 240 numbers at most, so that the fallible conversion could not fail.
        let number = ConnectionNumber(Room::FIRST_NUMBER + place as u8);
        next = tell_peer(memory, sizes, client, number, out, next);
    }
    next
}

// The client of a taken seat of a whole room leaves; its records go behind the first `at` bytes of the output.
pub(crate) fn depart(
    memory: &mut [u8],
    sizes: Sizes,
    seat: Seat,
    out: &mut [u8],
    at: usize,
) -> usize
    requires { (room_whole sizes.seats sizes.numbers memory.old ≡ true) × (taken sizes.seats sizes.numbers memory.old seat.0 ≡ true) × LeaveFits sizes.seats sizes.numbers memory.old seat.0 out.old at }
    ensures { Made sizes.seats sizes.numbers (departure sizes.seats sizes.numbers memory.old seat.0) memory.old out.old at memory.new result out.new }
{
    let key = lookup::key_in(memory, sizes, seat);
    let next = tell_peers(memory, sizes, Client { seat, key }, out, at);
    change::empty_seat(memory, sizes, seat);
    next
}

// The client in a seat of a whole room leaves: 3.
pub(crate) fn step(memory: &mut [u8], sizes: Sizes, seat: Seat, out: &mut [u8]) -> Answer
    requires { Ready sizes memory.old out.old }
    ensures { Leaves sizes.seats sizes.numbers (outcome (view_room sizes.seats sizes.numbers memory.old) (leave seat.0)) memory.old out.old (answer_of result) memory.new out.new }
{
    if !lookup::is_taken(memory, sizes, seat) {
        return Err(Refusal::NotSeated);
    }
    let bytes = depart(memory, sizes, seat, out, 0);
    Ok(Accepted { seat, bytes })
}
