// What a packet that was read has, as plain numbers: the form in which a host gets it. What a kind does not have is 0.
#![tactic(auto)]

ghost use Rattle.std.specs.Prelude.{◌≡◌};
ghost use Rattle.fields.specs.Fields.{fields, client_shown, relay_shown};

use packet::client::RelayPacket;
use packet::relay::ClientPacket;
use packet::{ConnectionNumber, Part, kind};

// What a reader tells of a packet: its kind, 16 for data; its connection number; its ping number; and where its payload stands. The kind is a number here
// because the exports hand it to C.
#[derive(Clone, Copy, PartialEq, Eq, Debug, Default)]
pub struct Fields {
    pub kind: u8,
    pub number: u8,
    pub ping: u64,
    pub start: usize,
    pub length: usize,
}

impl Fields {
    fn numbered(kind: u8, number: ConnectionNumber) -> Self
        ensures { result ≡ fields kind number.0 0 0 0 }
    {
        Self {
            kind,
            number: number.0,
            ..Self::default()
        }
    }

    fn pinging(kind: u8, ping: u64) -> Self
        ensures { result ≡ fields kind 0 ping 0 0 }
    {
        Self {
            kind,
            ping,
            ..Self::default()
        }
    }

    fn carrying(kind: u8, payload: Part) -> Self
        ensures { result ≡ fields kind 0 0 payload.start payload.length }
    {
        Self {
            kind,
            start: payload.start,
            length: payload.length,
            ..Self::default()
        }
    }

    // A data packet's kind is told as 16, since its first byte is its connection number.
    fn data(number: ConnectionNumber, payload: Part) -> Self
        ensures { result ≡ fields 16 number.0 0 payload.start payload.length }
    {
        Self {
            number: number.0,
            ..Self::carrying(ConnectionNumber::FIRST, payload)
        }
    }
}

// What a client sent. Each end's packets are an enum of their own, so each has a match of its own over the same four forms.
#[tactic(auto, unfolding(crate::specs::Fields::client_shown))]
pub fn of_client(packet: ClientPacket) -> Fields
    ensures { result ≡ client_shown packet }
{
    match packet {
        ClientPacket::RoutingRequest { .. } => Fields {
            kind: kind::REQUEST,
            ..Fields::default()
        },
        ClientPacket::DropRoute(number) => Fields::numbered(kind::DISCONNECT, number),
        ClientPacket::Ping(ping) => Fields::pinging(kind::PING, ping),
        ClientPacket::Pong(ping) => Fields::pinging(kind::PONG, ping),
        ClientPacket::OobSend { payload, .. } => Fields::carrying(kind::OOB_SEND, payload),
        ClientPacket::Data(number, payload) => Fields::data(number, payload),
    }
}

// What the relay sent.
#[tactic(auto, unfolding(crate::specs::Fields::relay_shown))]
pub fn of_relay(packet: RelayPacket) -> Fields
    ensures { result ≡ relay_shown packet }
{
    match packet {
        RelayPacket::RoutingResponse { number, .. } => Fields::numbered(kind::RESPONSE, number),
        RelayPacket::ConnectNotification(number) => Fields::numbered(kind::CONNECT, number),
        RelayPacket::DisconnectNotification(number) => Fields::numbered(kind::DISCONNECT, number),
        RelayPacket::Ping(ping) => Fields::pinging(kind::PING, ping),
        RelayPacket::Pong(ping) => Fields::pinging(kind::PONG, ping),
        RelayPacket::OobReceived { payload, .. } => Fields::carrying(kind::OOB_RECEIVED, payload),
        RelayPacket::Data(number, payload) => Fields::data(number, payload),
    }
}
