// The room's sizes, and the empty room.
ghost use Rattle.room_laws.specs.Store.{MakesEmpty};

use crate::layout;
use crate::layout::Sizes;
use packet::ConnectionNumber;

// The room's constants and its constructor; the room itself is bytes that the host lends.
#[derive(Clone, Copy)]
pub struct Room {}

impl Room {
    // Document 01: "40 seats, 0 to 39; each is empty or holds one key and 32 routes, numbers 16 to 47".
    pub const SEATS: usize = 40;

    pub const NUMBERS: usize = 32;

    pub const SIZES: Sizes = Sizes {
        seats: Room::SEATS,
        numbers: Room::NUMBERS,
    };

    pub const FIRST_NUMBER: u8 = ConnectionNumber::FIRST;

    // The bytes of a room of these sizes; an exported function hands it out, with the definition that it equals.
    pub const BYTES: usize = 44251;

    // Document 01: "The empty room and the empty list of size 8 are given." A room is lent bytes and no value, so it is written to them; false where they are
    // too short, and then nothing changes. A yes or no, since there is one ground for no, which the export gives its number.
    pub fn empty(memory: &mut [u8]) -> bool
        ensures { MakesEmpty 40 32 memory.old memory.new result }
    {
        layout::make_empty(memory, Room::SIZES)
    }
}
