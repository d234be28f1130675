// What is looked up in a room: the clock, a seat by its key, its ping, a route by its key, the lowest that is empty or free. Nothing is asked of the memory; in a
// whole room each lookup says what document 01's room says, with document 02's clock and pings.
ghost use Rattle.std.specs.Prelude.{◌≡◌, true, false, ◌-◌, ◌≤◌, MatchOption, SomeIff};
ghost use Rattle.rules.specs.Room.{first_number};
ghost use Rattle.room_laws.specs.Layout.{routes_table};
ghost use Rattle.room_laws.specs.Lookup.{seat_holding, lowest_empty, has_seat, taken, key_in, clock_found, ping_time_of, outstanding_of, route_wanting, lowest_route};
ghost use Rattle.room.specs.Numbers.{seat_found, number_found, route_numbered, wanted_of};

use crate::empty::Room;
use crate::layout::{Lent, Sizes};
use key::Key;
use packet::ConnectionNumber;
use seat::Seat;

// The seat that holds a key.
#[tactic(auto, unfolding(room_laws::specs::Lookup::seat_holding, room_laws::specs::Lookup::place_in, table_laws::specs::Table::place_below, crate::specs::Numbers::seat_found))]
pub fn seat_of(memory: &[u8], sizes: Sizes, key: Key) -> Option<Seat>
    ensures { result ≡ seat_found (seat_holding sizes.seats sizes.numbers memory.now key.0) }
{
    let room = Lent::new(memory, sizes)?;
    let place = table::find(room.seats(), room.seats_shape(), key)?;
    // A cast, here and below: a room has 40 seats and a seat 240 numbers at most, so that the fallible conversion could not fail.
    Some(Seat(place as u8))
}

// The lowest seat that is empty.
#[tactic(auto, unfolding(room_laws::specs::Lookup::lowest_empty, room_laws::specs::Lookup::place_in, table_laws::specs::Table::place_below, crate::specs::Numbers::seat_found))]
pub fn lowest_empty(memory: &[u8], sizes: Sizes) -> Option<Seat>
    ensures { result ≡ seat_found (lowest_empty sizes.seats sizes.numbers memory.now) }
{
    let room = Lent::new(memory, sizes)?;
    let place = table::lowest_free(room.seats(), sizes.seats)?;
    Some(Seat(place as u8))
}

// Whether a seat is taken.
#[tactic(auto, unfolding(room_laws::specs::Lookup::taken))]
pub fn is_taken(memory: &[u8], sizes: Sizes, seat: Seat) -> bool
    ensures { result ≡ taken sizes.seats sizes.numbers memory.now seat.0 }
{
    let Some(room) = Lent::new(memory, sizes) else {
        return false;
    };
    let place = usize::from(seat.0);
    place < sizes.seats && table::is_used(room.seats(), sizes.seats, place)
}

// The table of routes of a seat, if memory has such a seat.
#[tactic(auto, unfolding(room_laws::specs::Lookup::has_seat))]
fn routes(memory: &[u8], sizes: Sizes, seat: Seat) -> Option<&[u8]>
    ensures { MatchOption result (has_seat sizes.seats sizes.numbers memory.now seat.0 ≡ false) (λ t. (has_seat sizes.seats sizes.numbers memory.now seat.0 ≡ true) × (t.now ≡ routes_table sizes.seats sizes.numbers memory.now seat.0)) }
{
    Lent::new(memory, sizes)?.routes(seat)
}

// The number under which a seat wants a key: the first is 16.
#[tactic(auto, unfolding(room_laws::specs::Lookup::has_seat, room_laws::specs::Lookup::route_wanting, room_laws::specs::Lookup::place_in, table_laws::specs::Table::place_below, crate::specs::Numbers::number_found))]
pub fn number_of(memory: &[u8], sizes: Sizes, seat: Seat, key: Key) -> Option<ConnectionNumber>
    ensures { result ≡ number_found (route_wanting sizes.seats sizes.numbers memory.now seat.0 key.0) }
{
    let routes = routes(memory, sizes, seat)?;
    let place = table::find(routes, sizes.routes_shape(), key)?;
    Some(ConnectionNumber(Room::FIRST_NUMBER + place as u8))
}

// The lowest number of a seat that is free.
#[tactic(auto, unfolding(room_laws::specs::Lookup::has_seat, room_laws::specs::Lookup::lowest_route, room_laws::specs::Lookup::place_in, table_laws::specs::Table::place_below, crate::specs::Numbers::number_found))]
pub fn lowest_free(memory: &[u8], sizes: Sizes, seat: Seat) -> Option<ConnectionNumber>
    ensures { result ≡ number_found (lowest_route sizes.seats sizes.numbers memory.now seat.0) }
{
    let routes = routes(memory, sizes, seat)?;
    let place = table::lowest_free(routes, sizes.numbers)?;
    Some(ConnectionNumber(Room::FIRST_NUMBER + place as u8))
}

// The key of a seat, whether it is taken or not.
#[tactic(auto, unfolding(room_laws::specs::Lookup::key_in, room_laws::specs::Lookup::has_seat, table_laws::specs::Table::key_of_place))]
pub fn key_in(memory: &[u8], sizes: Sizes, seat: Seat) -> Key
    ensures { result.0 ≡ key_in sizes.seats sizes.numbers memory.now seat.0 }
{
    match Lent::new(memory, sizes) {
        Some(room) => room.key(seat),
        None => Key([0u8; 32]),
    }
}

// The clock; 0 where the memory is too short. Here and in the two below it is 0 and no `Option`, as `clock_found`, `ping_time_of` and `outstanding_of` have it: a
// ping with number 0 is none.
#[tactic(auto, unfolding(room_laws::specs::Lookup::clock_found))]
pub fn clock(memory: &[u8], sizes: Sizes) -> u64
    ensures { result ≡ clock_found sizes.seats sizes.numbers memory.now }
{
    match Lent::new(memory, sizes) {
        Some(room) => room.clock(),
        None => 0,
    }
}

// The time of the last ping of a seat; 0 where there is no such seat.
#[tactic(auto, unfolding(room_laws::specs::Lookup::ping_time_of, room_laws::specs::Lookup::has_seat))]
pub fn ping_time(memory: &[u8], sizes: Sizes, seat: Seat) -> u64
    ensures { result ≡ ping_time_of sizes.seats sizes.numbers memory.now seat.0 }
{
    match Lent::new(memory, sizes) {
        Some(room) => room.ping_time(seat).unwrap_or(0),
        None => 0,
    }
}

// The number of the ping of a seat that is outstanding; 0 where none is, or there is no such seat.
#[tactic(auto, unfolding(room_laws::specs::Lookup::outstanding_of, room_laws::specs::Lookup::has_seat))]
pub fn outstanding(memory: &[u8], sizes: Sizes, seat: Seat) -> u64
    ensures { result ≡ outstanding_of sizes.seats sizes.numbers memory.now seat.0 }
{
    match Lent::new(memory, sizes) {
        Some(room) => room.outstanding(seat).unwrap_or(0),
        None => 0,
    }
}

// The place of a connection number in a table of routes: the first is 16, and one below it names none.
pub(crate) fn place_of(number: ConnectionNumber) -> Option<usize>
    ensures { SomeIff result (first_number ≤ number.0) (number.0 - first_number) }
{
    let place = number.0.checked_sub(Room::FIRST_NUMBER)?;
    Some(usize::from(place))
}

// What a connection number of a seat names.
#[tactic(auto, unfolding(room_laws::specs::Lookup::has_seat, room_laws::specs::Lookup::route_at_place, room_laws::specs::Lookup::route_of_place, table_laws::specs::Table::key_of_place, crate::specs::Numbers::route_numbered, crate::specs::Numbers::wanted_of))]
pub fn wanted_by(memory: &[u8], sizes: Sizes, seat: Seat, number: ConnectionNumber) -> Option<Key>
    ensures { result ≡ wanted_of (route_numbered sizes.seats sizes.numbers memory.now seat.0 number.0) }
{
    let place = place_of(number)?;
    let routes = routes(memory, sizes, seat)?;
    if place < sizes.numbers && table::is_used(routes, sizes.numbers, place) {
        Some(table::key_at(routes, sizes.routes_shape(), place))
    } else {
        None
    }
}
