// Who a client is: its seat, and the key that is seated there.
use room::{Room, lookup};
use seat::Seat;
use std::fmt;

// A client of a room. A seat that is empty, or that the room does not have, is nobody's.
#[derive(Clone, Copy)]
pub(crate) struct Client<'a> {
    pub memory: &'a [u8],
    pub seat: Seat,
}

impl fmt::Display for Client<'_> {
    fn fmt<W: fmt::Write>(&self, f: &mut fmt::Formatter<W>) -> fmt::Result {
        let seat = self.seat;
        if lookup::is_taken(self.memory, Room::SIZES, seat) {
            let key = lookup::key_in(self.memory, Room::SIZES, seat);
            write!(f, "{seat}, {key}")
        } else {
            write!(f, "{seat}, nobody")
        }
    }
}
