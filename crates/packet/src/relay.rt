// The relay's end: how it reads what clients send.
ghost use Rattle.std.specs.Prelude.{◌≡◌, true, length, drop};
ghost use Rattle.packet_laws.specs.FromClient.{from_client, key_from_client};
ghost use Rattle.packet_laws.specs.Table.{length_right};
ghost use Rattle.packet.specs.Parts.{PartAt};
ghost use Rattle.packet.specs.RelayReads.{RelayReads, client_packet_of, shown_client, client_part, relay_refusal};

use crate::{ConnectionNumber, Part, kind, parts};
use key::Key;
use refusal::Refusal;

// What a client sends: numbers as they are, keys and payloads by their place in the packet.
#[derive(Clone, Copy)]
pub enum ClientPacket {
    RoutingRequest { key: usize },
    DropRoute(ConnectionNumber),
    Ping(u64),
    Pong(u64),
    OobSend { key: usize, payload: Part },
    Data(ConnectionNumber, Part),
}

// The refusal in a read that is one: the `else` of a `let` binds no name, and takes it from here. Of a packet, which has none, it answers 5.
#[tactic(auto, unfolding(crate::specs::RelayReads::relay_refusal))]
pub fn refusal(read: Result<ClientPacket, Refusal>) -> Refusal
    ensures { result ≡ relay_refusal read }
{
    read.err().unwrap_or(Refusal::UnexpectedKind)
}

// Reads a packet from a client. Refusals 4, 5, 6, 7, in this order.
pub fn read(packet: &[u8]) -> Result<ClientPacket, Refusal>
    ensures { RelayReads packet.now result }
{
    let kind = kind::checked(packet, kind::relay_takes)?;
    Ok(shown(kind, packet))
}

// Where the parts of a packet of the right length stand. Each end has its own kinds, so this, `payload` and `key` match on its own enum.
#[tactic(auto, unfolding(crate::specs::RelayReads::shown_client, packet_laws::specs::FromClient::from_client, packet_laws::specs::Table::length_right))]
fn shown(kind: u8, packet: &[u8]) -> ClientPacket
    requires { length_right kind (length packet.now) ≡ true }
    ensures { result ≡ shown_client (from_client kind (drop 1 packet.now)) }
{
    match kind {
        kind::REQUEST => ClientPacket::RoutingRequest { key: 1 },
        kind::DISCONNECT => ClientPacket::DropRoute(ConnectionNumber(packet[1])),
        kind::PING => ClientPacket::Ping(wire::read_number(&packet[1..])),
        kind::PONG => ClientPacket::Pong(wire::read_number(&packet[1..])),
        kind::OOB_SEND => ClientPacket::OobSend {
            key: 1,
            payload: parts::behind(packet, kind::KIND_AND_KEY),
        },
        _ => ClientPacket::Data(ConnectionNumber(kind), parts::behind(packet, 1)),
    }
}

// The payload of a data packet or an out-of-band send, as a part of the lent packet; the empty part at its front where there is none.
#[tactic(auto, unfolding(crate::specs::RelayReads::client_part, crate::specs::Parts::part_of, crate::specs::Parts::start_of))]
pub fn payload(packet: &[u8], shown: ClientPacket) -> &[u8]
    ensures { PartAt packet.entry (client_part shown) result }
{
    match shown {
        ClientPacket::OobSend { payload, .. } | ClientPacket::Data(_, payload) => {
            parts::bytes_at(packet, payload)
        }
        _ => &packet[..0],
    }
}

// The key of a routing request or an out-of-band send, by value; the key of zeros where there is none.
#[tactic(auto, unfolding(crate::specs::RelayReads::client_packet_of, packet_laws::specs::FromClient::key_from_client))]
pub fn key(packet: &[u8], shown: ClientPacket) -> Key
    ensures { result.0 ≡ key_from_client (client_packet_of packet.now shown) }
{
    match shown {
        ClientPacket::RoutingRequest { key } | ClientPacket::OobSend { key, .. } => {
            parts::key_at(packet, key)
        }
        _ => Key([0; Key::BYTES]),
    }
}
