// Where things stand in the memory of a room: every offset is made here.
//
//     room    | seats (1) | numbers (1) | clock (8) | table of seats |
//     seat    | key (32) | ping time (8) | outstanding ping (8) | table of routes |
//     route   | wanted key (32) |
ghost use Rattle.std.specs.Prelude.{◌≡◌, true, false, ◌+◌, ◌<◌, ◌≤◌, length, IfSome, MatchOption, SomeIff};
ghost use Rattle.table_laws.specs.Bytes.{splice};
ghost use Rattle.table_laws.specs.Table.{key_of_place};
ghost use Rattle.room_laws.specs.Layout.{seat_bytes, room_bytes, sizes_right, fits_room, seat_table, seat_start, ping_start, outstanding_start, routes_start, routes_end, routes_table};
ghost use Rattle.room_laws.specs.View.{word_at, number_at, clock_in, seat_ping};
ghost use Rattle.room_laws.specs.Whole.{header_right};
ghost use Rattle.room_laws.specs.Store.{word_of, new_seat, MakesEmpty};

use key::Key;
use seat::Seat;
use table::Shape;

// Document 01: "40 seats, 0 to 39"; connection numbers are 16 to 255 at most.
pub const MOST_SEATS: usize = 40;

pub const MOST_NUMBERS: usize = 240;

// The room's header: the sizes that the room was made for, a byte each, and the clock.
const SEATS_BYTE: usize = 0;

const NUMBERS_BYTE: usize = 1;

pub(crate) const CLOCK_START: usize = 2;

// The bytes of a time, and of the number of a ping.
const WORD: usize = 8;

// Where the table of seats stands: behind the header. It ends where the room ends.
pub(crate) const SEATS_START: usize = CLOCK_START + WORD;

// Where the time of the last ping stands in a seat's record: behind its key. The number of the ping that is outstanding follows, and then the table of routes.
const PING_IN_SEAT: usize = Key::BYTES;

const OUTSTANDING_IN_SEAT: usize = PING_IN_SEAT + WORD;

pub(crate) const ROUTES_IN_SEAT: usize = OUTSTANDING_IN_SEAT + WORD;

// How much of the record of a seat is written when it is taken: up to the count of its routes, the first byte of their table.
const NEW_SEAT: usize = ROUTES_IN_SEAT + 1;

// The sizes of a room: its seats, and the connection numbers of each.
#[derive(Clone, Copy, PartialEq, Eq, Debug)]
pub struct Sizes {
    pub seats: usize,
    pub numbers: usize,
}

impl Sizes {
    // The shape of the table of routes of a seat.
    pub(crate) fn routes_shape(self) -> Shape
        ensures { result ≡ record { places = self.numbers; width = 32 } }
    {
        Shape {
            places: self.numbers,
            width: Key::BYTES,
        }
    }
}

// Whether a room can be of these sizes.
#[tactic(auto, unfolding(room_laws::specs::Layout::sizes_right))]
pub fn sizes_right(sizes: Sizes) -> bool
    ensures { result ≡ sizes_right sizes.seats sizes.numbers }
{
    sizes.seats <= MOST_SEATS && sizes.numbers <= MOST_NUMBERS
}

// The bytes of a seat.
fn seat_bytes(sizes: Sizes) -> usize
    requires { sizes.numbers ≤ 240 }
    ensures { result ≡ seat_bytes sizes.numbers }
{
    ROUTES_IN_SEAT + (1 + sizes.numbers + sizes.numbers * Key::BYTES)
}

// The bytes of a room.
fn room_bytes(sizes: Sizes) -> usize
    requires { (sizes.seats ≤ 40) × (sizes.numbers ≤ 240) }
    ensures { result ≡ room_bytes sizes.seats sizes.numbers }
{
    SEATS_START + (1 + sizes.seats + sizes.seats * seat_bytes(sizes))
}

// Whether memory is long enough for a room of these sizes; it may be longer.
#[tactic(auto, unfolding(room_laws::specs::Layout::sizes_right, room_laws::specs::Layout::fits_room))]
pub fn fits(memory: &[u8], sizes: Sizes) -> bool
    ensures { result ≡ fits_room sizes.seats sizes.numbers memory.now }
{
    sizes_right(sizes) && room_bytes(sizes) <= memory.len()
}

// The number that stands at `at`.
fn read_word(memory: &[u8], at: usize) -> u64
    requires { at + 8 ≤ length memory.now }
    ensures { result ≡ number_at at memory.now }
{
    let end = at + WORD;
    wire::read_number(&memory[at..end])
}

// A number put at `at`.
pub(crate) fn write_word(memory: &mut [u8], at: usize, number: u64)
    requires { at + 8 ≤ length memory.old }
    ensures { memory.new ≡ splice memory.old at (word_of number) 8 }
{
    let end = at + WORD;
    wire::write_number(number, &mut memory[at..end]);
}

// Memory that is long enough for a room of these sizes, so that each part of the room stands in it.
#[derive(Clone, Copy)]
pub(crate) struct Lent<'a> {
    memory: &'a [u8],
    pub(crate) sizes: Sizes,
    ghost long: { fits_room sizes.seats sizes.numbers memory.now ≡ true },
}

impl<'a> Lent<'a> {
    // None where the memory is too short, or no room is of these sizes.
    pub(crate) fn new(memory: &'a [u8], sizes: Sizes) -> Option<Self>
        ensures { MatchOption result (fits_room sizes.seats sizes.numbers memory.now ≡ false) (λ room. (fits_room sizes.seats sizes.numbers memory.now ≡ true) × (room.sizes ≡ sizes) × (room.memory.now ≡ memory.now)) }
    {
        if !fits(memory, sizes) {
            return None;
        }
        Some(Lent { memory, sizes })
    }

    // Where the room ends.
    pub(crate) fn end(self) -> usize
        ensures is { result ≡ room_bytes self.entry.sizes.seats self.entry.sizes.numbers }
        ensures within { result ≤ length self.entry.memory.now }
    {
        room_bytes(self.sizes)
    }

    // Whether the header has the room's sizes.
    #[tactic(auto, unfolding(room_laws::specs::Whole::header_right))]
    pub(crate) fn header_right(self) -> bool
        ensures { result ≡ header_right self.entry.sizes.seats self.entry.sizes.numbers self.entry.memory.now }
    {
        usize::from(self.memory[SEATS_BYTE]) == self.sizes.seats
            && usize::from(self.memory[NUMBERS_BYTE]) == self.sizes.numbers
    }

    // The clock.
    pub(crate) fn clock(self) -> u64
        ensures { result ≡ clock_in self.entry.memory.now }
    {
        read_word(self.memory, CLOCK_START)
    }

    // The shape of the table of seats.
    pub(crate) fn seats_shape(self) -> Shape
        ensures { result ≡ record { places = self.entry.sizes.seats; width = seat_bytes self.entry.sizes.numbers } }
    {
        Shape {
            places: self.sizes.seats,
            width: seat_bytes(self.sizes),
        }
    }

    // The table of seats.
    pub(crate) fn seats(self) -> &'a [u8]
        ensures { result.now ≡ seat_table self.entry.sizes.seats self.entry.sizes.numbers self.entry.memory.now }
    {
        let end = self.end();
        &self.memory[SEATS_START..end]
    }

    // The key of a seat, whether it is taken or not; the key of zeros where there is no such seat.
    pub(crate) fn key(self, seat: Seat) -> Key
        ensures { let r = self.entry in result.0 ≡ key_of_place r.sizes.seats (seat_bytes r.sizes.numbers) (seat_table r.sizes.seats r.sizes.numbers r.memory.now) seat.0 }
    {
        table::key_at(self.seats(), self.seats_shape(), usize::from(seat.0))
    }

    // Where a seat stands, if the room has it.
    pub(crate) fn seat_start(self, seat: Seat) -> Option<usize>
        ensures is { let r = self.entry in SomeIff result (seat.0 < r.sizes.seats) (seat_start r.sizes.seats r.sizes.numbers seat.0) }
        ensures within { let r = self.entry in IfSome result (λ at. at + seat_bytes r.sizes.numbers ≤ length r.memory.now) }
    {
        let place = usize::from(seat.0);
        if self.sizes.seats <= place {
            return None;
        }
        Some(SEATS_START + (1 + self.sizes.seats + place * seat_bytes(self.sizes)))
    }

    // Where the time of the last ping of a seat stands, and the number of the ping that is outstanding.
    pub(crate) fn ping_places(self, seat: Seat) -> Option<(usize, usize)>
        ensures is { let r = self.entry in SomeIff result (seat.0 < r.sizes.seats) (ping_start r.sizes.seats r.sizes.numbers seat.0, outstanding_start r.sizes.seats r.sizes.numbers seat.0) }
        ensures within { let r = self.entry in IfSome result (λ places. (places.0 + 8 ≤ length r.memory.now) × (places.1 + 8 ≤ length r.memory.now)) }
    {
        let start = self.seat_start(seat)?;
        Some((start + PING_IN_SEAT, start + OUTSTANDING_IN_SEAT))
    }

    // The time of the last ping of a seat.
    pub(crate) fn ping_time(self, seat: Seat) -> Option<u64>
        ensures { let r = self.entry in SomeIff result (seat.0 < r.sizes.seats) (seat_ping r.sizes.seats r.sizes.numbers r.memory.now seat.0).time }
    {
        let at = self.seat_start(seat)? + PING_IN_SEAT;
        Some(read_word(self.memory, at))
    }

    // The number of the ping of a seat that is outstanding.
    pub(crate) fn outstanding(self, seat: Seat) -> Option<u64>
        ensures { let r = self.entry in SomeIff result (seat.0 < r.sizes.seats) (seat_ping r.sizes.seats r.sizes.numbers r.memory.now seat.0).number }
    {
        let at = self.seat_start(seat)? + OUTSTANDING_IN_SEAT;
        Some(read_word(self.memory, at))
    }

    // Where the table of routes of a seat stands, and where it ends.
    pub(crate) fn routes_span(self, seat: Seat) -> Option<(usize, usize)>
        ensures is { let r = self.entry in SomeIff result (seat.0 < r.sizes.seats) (routes_start r.sizes.seats r.sizes.numbers seat.0, routes_end r.sizes.seats r.sizes.numbers seat.0) }
        ensures within { let r = self.entry in IfSome result (λ span. (span.0 ≤ span.1) × (span.1 ≤ length r.memory.now)) }
    {
        let start = self.seat_start(seat)?;
        Some((start + ROUTES_IN_SEAT, start + seat_bytes(self.sizes)))
    }

    // The table of routes of a seat.
    pub(crate) fn routes(self, seat: Seat) -> Option<&'a [u8]>
        ensures { let r = self.entry in MatchOption result (r.sizes.seats ≤ seat.0) (λ t. (seat.0 < r.sizes.seats) × (t.now ≡ routes_table r.sizes.seats r.sizes.numbers r.memory.now seat.0)) }
    {
        let (at, end) = self.routes_span(seat)?;
        Some(&self.memory[at..end])
    }

    // How the record of a seat that is taken begins: its key, the clock's bytes, none outstanding, and no route. Document 02: "An arrival starts with the last
    // clock as its ping time."
    pub(crate) fn new_seat(self, key: Key) -> [u8; NEW_SEAT]
        ensures { result ≡ new_seat (word_at 2 self.entry.memory.now) key.0 }
    {
        let mut record = [0u8; NEW_SEAT];
        record[PING_IN_SEAT..OUTSTANDING_IN_SEAT].copy_from_slice(
            &self.memory[CLOCK_START..SEATS_START],
        );
        record[0..Key::BYTES].copy_from_slice(&key.0);
        record
    }
}

// Makes memory an empty room of these sizes, and tells whether it could: where the memory is too short nothing changes. The clock is 0, and the table of seats
// lists none: its count, the first byte, is 0.
pub(crate) fn make_empty(memory: &mut [u8], sizes: Sizes) -> bool
    ensures { MakesEmpty sizes.seats sizes.numbers memory.old memory.new result }
{
    if !fits(memory, sizes) {
        return false;
    }
    // at most 40 and 240
    memory[SEATS_BYTE] = sizes.seats as u8;
    memory[NUMBERS_BYTE] = sizes.numbers as u8;
    memory[SEATS_START] = 0;
    write_word(memory, CLOCK_START, 0);
    true
}
