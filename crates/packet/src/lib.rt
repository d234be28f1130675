// The readers of relay packets, for both ends: document 01's section "Relay packets", with layouts from document 001's "TCP server". What a packet is stands in
// `packet_laws`, and the writers in `packet_write`.
//
// Packets come and go opened: sealing, sockets and framing stay with the host. Nothing here keeps state; a reader shows what stands in the
// lent packet.
#![tactic(auto)]

ghost use Rattle.std.specs.Prelude.{Some};
ghost use Rattle.packet.specs.Text.{number_text};

pub mod client;
pub mod kind;
mod parts;
pub mod relay;

use std::fmt;

// A connection number: a client's own word for one of its routes. Document 01 calls it a route number; it has nothing to do with a seat.
#[derive(Clone, Copy, PartialEq, Eq, Debug)]
pub struct ConnectionNumber(pub u8);

impl ConnectionNumber {
    // The lowest that a route has, and so the lowest kind of a data packet.
    pub const FIRST: u8 = 16;
}

impl fmt::Display for ConnectionNumber {
    ghost output = { λ number. Some (number_text number.0) };

    fn fmt<W: fmt::Write>(&self, f: &mut fmt::Formatter<W>) -> fmt::Result {
        let number = self.0;
        write!(f, "number {number}")
    }
}

// Where a payload stands in a packet.
#[derive(Clone, Copy)]
pub struct Part {
    pub start: usize,
    pub length: usize,
}
