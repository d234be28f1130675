// What the relay sends, as a client reads it.
use crate::count::Bytes;
use crate::refused::Refused;
use packet::client::RelayPacket;
use packet::{ConnectionNumber, client};
use std::fmt;

// A packet that was read.
fn shown<W: fmt::Write>(
    f: &mut fmt::Formatter<W>,
    packet: &[u8],
    shown: RelayPacket,
) -> fmt::Result {
    let key = client::key(packet, shown);
    let size = Bytes(client::payload(packet, shown).len());
    match shown {
        // 0 is no number, and no route is taken.
        RelayPacket::RoutingResponse {
            number: ConnectionNumber(0),
            ..
        } => { write!(f, "routing response: 0, no route for {key}") }
        RelayPacket::RoutingResponse { number, .. } => {
            write!(f, "routing response: {number} for {key}")
        }
        RelayPacket::ConnectNotification(number) => write!(f, "connected: {number}"),
        RelayPacket::DisconnectNotification(number) => write!(f, "disconnected: {number}"),
        RelayPacket::Ping(id) => write!(f, "ping {id}"),
        RelayPacket::Pong(id) => write!(f, "pong {id}"),
        RelayPacket::OobReceived { .. } => write!(f, "out-of-band from {key} with {size}"),
        RelayPacket::Data(number, _) => write!(f, "data on {number} with {size}"),
    }
}

// A packet, or why the client's reader refuses it.
#[derive(Clone, Copy)]
pub struct FromRelay<'a>(pub &'a [u8]);

impl fmt::Display for FromRelay<'_> {
    fn fmt<W: fmt::Write>(&self, f: &mut fmt::Formatter<W>) -> fmt::Result {
        match client::read(self.0) {
            Ok(packet) => shown(f, self.0, packet),
            Err(why) => write!(f, "{}", Refused(why)),
        }
    }
}
