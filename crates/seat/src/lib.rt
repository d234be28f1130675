// Document 01's seat: one of the room's places for a client. A type of its own, so that no lookup can take it for a connection number.
#![tactic(auto)]

ghost use Rattle.std.specs.Prelude.{Some};
ghost use Rattle.seat.specs.Text.{seat_text};

use std::fmt;

#[derive(Clone, Copy, PartialEq, Eq, Debug)]
pub struct Seat(pub u8);

impl fmt::Display for Seat {
    ghost output = { λ seat. Some (seat_text seat.0) };

    fn fmt<W: fmt::Write>(&self, f: &mut fmt::Formatter<W>) -> fmt::Result {
        let seat = self.0;
        write!(f, "seat {seat}")
    }
}
