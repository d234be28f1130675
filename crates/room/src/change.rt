// The changes of a room, each a change of one of its tables, of its clock or of a seat's ping. Nothing is asked of the memory; on a whole room, a change that the
// rules make leaves a whole room.
ghost use Rattle.std.specs.Prelude.{◌≡◌, true, false, ◌+◌, ◌-◌, ◌≤◌, length, IfSome, MatchOption};
ghost use Rattle.rules.specs.Room.{first_number};
ghost use Rattle.rules.specs.Outcome.{seat_taken, seat_emptied, clock_set, ping_sent, ping_answered};
ghost use Rattle.room_laws.specs.Layout.{ping_start, outstanding_start, routes_start, routes_end};
ghost use Rattle.room_laws.specs.Lookup.{has_seat};
ghost use Rattle.room_laws.specs.Store.{store};
ghost use Rattle.room.specs.Numbers.{given_number, freed_number};

use crate::layout::{Lent, Sizes};
use crate::{layout, lookup};
use key::Key;
use packet::ConnectionNumber;
use seat::Seat;

// A seat, which is empty, is taken by a key.
#[tactic(auto, unfolding(room_laws::specs::Store::store, room_laws::specs::Store::with_seats))]
pub fn take_seat(memory: &mut [u8], sizes: Sizes, seat: Seat, key: Key)
    ensures { memory.new ≡ store sizes.seats sizes.numbers memory.old (seat_taken seat.0 key.0) }
{
    if let Some(room) = Lent::new(memory, sizes) {
        let record = room.new_seat(key);
        let shape = room.seats_shape();
        let end = room.end();
        table::put(
            &mut memory[layout::SEATS_START..end],
            shape,
            usize::from(seat.0),
            &record,
        );
    }
}

// A seat is emptied, and its routes with it.
#[tactic(auto, unfolding(room_laws::specs::Store::store, room_laws::specs::Store::with_seats))]
pub fn empty_seat(memory: &mut [u8], sizes: Sizes, seat: Seat)
    ensures { memory.new ≡ store sizes.seats sizes.numbers memory.old (seat_emptied seat.0) }
{
    if let Some(room) = Lent::new(memory, sizes) {
        let end = room.end();
        table::free(
            &mut memory[layout::SEATS_START..end],
            sizes.seats,
            usize::from(seat.0),
        );
    }
}

// Where the table of routes of a seat stands and ends, and the place in it that a number names. There is none where memory has no such seat, or the number is
// below the first.
#[tactic(auto, unfolding(room_laws::specs::Lookup::has_seat))]
fn route(
    memory: &[u8],
    sizes: Sizes,
    seat: Seat,
    number: ConnectionNumber,
) -> Option<(usize, usize, usize)>
    ensures is { MatchOption result (first_number ≤ number.0 → has_seat sizes.seats sizes.numbers memory.now seat.0 ≡ false) (λ r. (first_number ≤ number.0) × (has_seat sizes.seats sizes.numbers memory.now seat.0 ≡ true) × (r ≡ (routes_start sizes.seats sizes.numbers seat.0, routes_end sizes.seats sizes.numbers seat.0, number.0 - first_number))) }
    ensures within { IfSome result (λ r. (r.0 ≤ r.1) × (r.1 ≤ length memory.now)) }
{
    let place = lookup::place_of(number)?;
    let (at, end) = Lent::new(memory, sizes)?.routes_span(seat)?;
    Some((at, end, place))
}

// A route of a seat, which is free, is given a key. A number below the first names no route.
#[tactic(auto, unfolding(crate::specs::Numbers::given_number, room_laws::specs::Store::store, room_laws::specs::Store::with_routes, room_laws::specs::Lookup::has_seat))]
pub fn give_route(memory: &mut [u8], sizes: Sizes, seat: Seat, number: ConnectionNumber, key: Key)
    ensures { memory.new ≡ given_number sizes.seats sizes.numbers memory.old seat.0 number.0 key.0 }
{
    if let Some((at, end, place)) = route(memory, sizes, seat, number) {
        table::put(&mut memory[at..end], sizes.routes_shape(), place, &key.0);
    }
}

// A route of a seat is freed.
#[tactic(auto, unfolding(crate::specs::Numbers::freed_number, room_laws::specs::Store::store, room_laws::specs::Store::with_routes, room_laws::specs::Lookup::has_seat))]
pub fn free_route(memory: &mut [u8], sizes: Sizes, seat: Seat, number: ConnectionNumber)
    ensures { memory.new ≡ freed_number sizes.seats sizes.numbers memory.old seat.0 number.0 }
{
    if let Some((at, end, place)) = route(memory, sizes, seat, number) {
        table::free(&mut memory[at..end], sizes.numbers, place);
    }
}

// The clock is set to a time.
#[tactic(auto, unfolding(room_laws::specs::Store::store, room_laws::specs::Store::with_clock))]
pub fn set_clock(memory: &mut [u8], sizes: Sizes, time: u64)
    ensures { memory.new ≡ store sizes.seats sizes.numbers memory.old (clock_set time) }
{
    if layout::fits(memory, sizes) {
        layout::write_word(memory, layout::CLOCK_START, time);
    }
}

// Where the ping of a seat stands, its time and its number, if memory has the seat.
#[tactic(auto, unfolding(room_laws::specs::Lookup::has_seat))]
fn ping_places(memory: &[u8], sizes: Sizes, seat: Seat) -> Option<(usize, usize)>
    ensures is { MatchOption result (has_seat sizes.seats sizes.numbers memory.now seat.0 ≡ false) (λ places. (has_seat sizes.seats sizes.numbers memory.now seat.0 ≡ true) × (places ≡ (ping_start sizes.seats sizes.numbers seat.0, outstanding_start sizes.seats sizes.numbers seat.0))) }
    ensures within { IfSome result (λ places. (places.0 + 8 ≤ length memory.now) × (places.1 + 8 ≤ length memory.now)) }
{
    Lent::new(memory, sizes)?.ping_places(seat)
}

// A seat was pinged at a time, with a number.
#[tactic(auto, unfolding(room_laws::specs::Store::store, room_laws::specs::Store::with_ping_at, room_laws::specs::Lookup::has_seat))]
pub fn set_ping(memory: &mut [u8], sizes: Sizes, seat: Seat, time: u64, number: u64)
    ensures { memory.new ≡ store sizes.seats sizes.numbers memory.old (ping_sent seat.0 time number) }
{
    if let Some((at, then)) = ping_places(memory, sizes, seat) {
        layout::write_word(memory, at, time);
        layout::write_word(memory, then, number);
    }
}

// The ping of a seat was answered: none is outstanding any more.
#[tactic(auto, unfolding(room_laws::specs::Store::store, room_laws::specs::Store::with_outstanding, room_laws::specs::Lookup::has_seat))]
pub fn clear_ping(memory: &mut [u8], sizes: Sizes, seat: Seat)
    ensures { memory.new ≡ store sizes.seats sizes.numbers memory.old (ping_answered seat.0) }
{
    if let Some((_, then)) = ping_places(memory, sizes, seat) {
        layout::write_word(memory, then, 0);
    }
}
