// The test of a lent room: a pass over what is in use, a comparison of each seat's ping time with the clock, and a search where a route begins like its seat's own
// key.
ghost use Rattle.std.specs.Prelude.{◌≡◌, true, ◌&&◌, ltb};
ghost use Rattle.table_laws.specs.Table.{listed, table_whole};
ghost use Rattle.room_laws.specs.Layout.{seat_bytes, seat_table};
ghost use Rattle.room_laws.specs.View.{clock_in};
ghost use Rattle.room_laws.specs.Whole.{seat_whole, seats_whole, room_whole};

use crate::layout::{Lent, Sizes};
use seat::Seat;

// Whether there is such a seat, the table of its routes keeps its rules and does not list the seat's own key, and its ping time is not after the clock, which
// is `clock`. Document 02: "A room where a seat names its own key is no longer whole." and "A ping time after the clock makes a room not whole."
#[tactic(auto, unfolding(room_laws::specs::Whole::seat_whole, room_laws::specs::Whole::seat_ping_whole, room_laws::specs::Whole::seat_routes_whole))]
fn seat_whole(room: Lent, clock: u64, seat: Seat) -> bool
    requires { clock ≡ clock_in room.memory.now }
    ensures { let r = room.entry in result ≡ (ltb seat.0 r.sizes.seats && seat_whole r.sizes.seats r.sizes.numbers r.memory.now seat.0) }
{
    let Some(time) = room.ping_time(seat) else {
        return false;
    };
    let Some(routes) = room.routes(seat) else {
        return false;
    };
    time <= clock && table::is_whole_without(routes, room.sizes.routes_shape(), room.key(seat))
}

// Whether that is so of each seat that is taken.
fn each_whole(room: Lent) -> bool
    requires { table_whole room.sizes.seats (seat_bytes room.sizes.numbers) (seat_table room.sizes.seats room.sizes.numbers room.memory.now) ≡ true }
    ensures { let r = room.entry in result ≡ seats_whole r.sizes.seats r.sizes.numbers r.memory.now (listed r.sizes.seats (seat_table r.sizes.seats r.sizes.numbers r.memory.now)) }
{
    let clock = room.clock();
    table::used(room.seats(), room.sizes.seats)
        .iter()
        .all(|&seat| seat_whole(room, clock, Seat(seat)))
}

// Whether the table of seats keeps its rules, and that is so.
fn seats_whole(room: Lent) -> bool
    ensures { let r = room.entry in let t = seat_table r.sizes.seats r.sizes.numbers r.memory.now in result ≡ (table_whole r.sizes.seats (seat_bytes r.sizes.numbers) t && seats_whole r.sizes.seats r.sizes.numbers r.memory.now (listed r.sizes.seats t)) }
{
    table::is_whole(room.seats(), room.seats_shape()) && each_whole(room)
}

// Whether memory holds a whole room of these sizes.
#[tactic(auto, unfolding(room_laws::specs::Whole::room_whole))]
pub fn is_whole(memory: &[u8], sizes: Sizes) -> bool
    ensures { result ≡ room_whole sizes.seats sizes.numbers memory.now }
{
    match Lent::new(memory, sizes) {
        Some(room) => room.header_right() && seats_whole(room),
        None => false,
    }
}
