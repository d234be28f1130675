// The peer of a client, looked up; nothing is asked of the memory. Connected: "Two clients are connected when they sit in different seats and each has
// a route naming the other's key."
ghost use Rattle.std.specs.Prelude.{◌≡◌};
ghost use Rattle.room_laws.specs.Lookup.{peer_wanting};
ghost use Rattle.room.specs.Numbers.{peer_found};

use crate::layout::Sizes;
use crate::lookup;
use key::Key;
use packet::ConnectionNumber;
use seat::Seat;

// The connected peer of a client: its seat, and its own number for the client.
#[derive(Clone, Copy, PartialEq, Eq, Debug)]
pub struct Peer {
    pub seat: Seat,
    pub number: ConnectionNumber,
}

// The peer of the client in `seat`, whose key is `key`, on a route that names `wanted`; none where they are not connected.
#[tactic(auto, unfolding(room_laws::specs::Lookup::peer_wanting, room_laws::specs::Lookup::peer_in_seat, rules::specs::Outcome::joined_by, crate::specs::Numbers::seat_found, crate::specs::Numbers::number_found, crate::specs::Numbers::peer_found))]
pub fn of(memory: &[u8], sizes: Sizes, seat: Seat, key: Key, wanted: Key) -> Option<Peer>
    ensures { result ≡ peer_found (peer_wanting sizes.seats sizes.numbers memory.now seat.0 key.0 wanted.0) }
{
    let other = lookup::seat_of(memory, sizes, wanted)?;
    if other == seat {
        return None;
    }
    let number = lookup::number_of(memory, sizes, other, key)?;
    Some(Peer {
        seat: other,
        number,
    })
}
