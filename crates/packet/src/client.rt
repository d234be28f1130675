// The client's end: how it reads what the relay sends.
ghost use Rattle.std.specs.Prelude.{◌≡◌, true, length, drop};
ghost use Rattle.packet_laws.specs.FromRelay.{from_relay, key_from_relay};
ghost use Rattle.packet_laws.specs.Table.{length_right};
ghost use Rattle.packet.specs.Parts.{PartAt};
ghost use Rattle.packet.specs.ClientReads.{ClientReads, relay_packet_of, shown_relay, relay_part};

use crate::{ConnectionNumber, Part, kind, parts};
use key::Key;
use refusal::Refusal;

// What the relay sends: numbers as they are, keys and payloads by their place in the packet.
#[derive(Clone, Copy)]
pub enum RelayPacket {
    // The number 0 says that none was given.
    RoutingResponse {
        number: ConnectionNumber,
        key: usize,
    },
    ConnectNotification(ConnectionNumber),
    DisconnectNotification(ConnectionNumber),
    Ping(u64),
    Pong(u64),
    OobReceived {
        key: usize,
        payload: Part,
    },
    Data(ConnectionNumber, Part),
}

// Reads a packet from the relay. Refusals 4, 5, 6, 7, 8, in this order.
pub fn read(packet: &[u8]) -> Result<RelayPacket, Refusal>
    ensures { ClientReads packet.now result }
{
    let kind = kind::checked(packet, kind::client_takes)?;
    if !kind::number_right(kind, packet[1]) {
        return Err(Refusal::NoSuchRoute);
    }
    Ok(shown(kind, packet))
}

// Where the parts of a packet of the right length stand. Each end has its own kinds, so this, `payload` and `key` match on its own enum.
#[tactic(auto, unfolding(crate::specs::ClientReads::shown_relay, packet_laws::specs::FromRelay::from_relay, packet_laws::specs::Table::length_right))]
fn shown(kind: u8, packet: &[u8]) -> RelayPacket
    requires { length_right kind (length packet.now) ≡ true }
    ensures { result ≡ shown_relay (from_relay kind (drop 1 packet.now)) }
{
    match kind {
        kind::RESPONSE => RelayPacket::RoutingResponse {
            number: ConnectionNumber(packet[1]),
            key: 2,
        },
        kind::CONNECT => RelayPacket::ConnectNotification(ConnectionNumber(packet[1])),
        kind::DISCONNECT => RelayPacket::DisconnectNotification(ConnectionNumber(packet[1])),
        kind::PING => RelayPacket::Ping(wire::read_number(&packet[1..])),
        kind::PONG => RelayPacket::Pong(wire::read_number(&packet[1..])),
        kind::OOB_RECEIVED => RelayPacket::OobReceived {
            key: 1,
            payload: parts::behind(packet, kind::KIND_AND_KEY),
        },
        _ => RelayPacket::Data(ConnectionNumber(kind), parts::behind(packet, 1)),
    }
}

// The payload of a data packet or an out-of-band packet, as a part of the lent packet; the empty part at its front where there is none.
#[tactic(auto, unfolding(crate::specs::ClientReads::relay_part, crate::specs::Parts::part_of, crate::specs::Parts::start_of))]
pub fn payload(packet: &[u8], shown: RelayPacket) -> &[u8]
    ensures { PartAt packet.entry (relay_part shown) result }
{
    match shown {
        RelayPacket::OobReceived { payload, .. } | RelayPacket::Data(_, payload) => {
            parts::bytes_at(packet, payload)
        }
        _ => &packet[..0],
    }
}

// The key of a routing response or an out-of-band packet, by value; the key of zeros where there is none.
#[tactic(auto, unfolding(crate::specs::ClientReads::relay_packet_of, packet_laws::specs::FromRelay::key_from_relay))]
pub fn key(packet: &[u8], shown: RelayPacket) -> Key
    ensures { result.0 ≡ key_from_relay (relay_packet_of packet.now shown) }
{
    match shown {
        RelayPacket::RoutingResponse { key, .. } | RelayPacket::OobReceived { key, .. } => {
            parts::key_at(packet, key)
        }
        _ => Key([0; Key::BYTES]),
    }
}
