// What a client sends, as the relay reads it.
use crate::count::Bytes;
use packet::relay;
use packet::relay::ClientPacket;
use std::fmt;

// A packet, and what was read of it.
#[derive(Clone, Copy)]
pub struct FromClient<'a> {
    pub packet: &'a [u8],
    pub shown: ClientPacket,
}

impl fmt::Display for FromClient<'_> {
    fn fmt<W: fmt::Write>(&self, f: &mut fmt::Formatter<W>) -> fmt::Result {
        let key = relay::key(self.packet, self.shown);
        let size = Bytes(relay::payload(self.packet, self.shown).len());
        match self.shown {
            ClientPacket::RoutingRequest { .. } => write!(f, "routing request for {key}"),
            ClientPacket::DropRoute(number) => write!(f, "drop of {number}"),
            ClientPacket::Ping(id) => write!(f, "ping {id}"),
            ClientPacket::Pong(id) => write!(f, "pong {id}"),
            ClientPacket::OobSend { .. } => write!(f, "out-of-band send to {key} with {size}"),
            ClientPacket::Data(number, _) => write!(f, "data on {number} with {size}"),
        }
    }
}
