// Document 01's table of packet kinds: who takes which, and how long each is. Each function is one check; both ends' readers and the writers
// share them.
ghost use Rattle.std.specs.Prelude.{◌≡◌, ℕ, Bool};
ghost use Rattle.packet.specs.Checked.{kind_checked};
ghost use Rattle.packet_laws.specs.Table.{size_right, relay_takes, client_takes, length_right, ping_right, number_right};

use crate::ConnectionNumber;
use refusal::Refusal;

// A kind stays a byte: from 16 on it is the connection number of a data packet, and each check below is of any byte, 8 to 15 included, which no packet has.
pub const REQUEST: u8 = 0;

pub const RESPONSE: u8 = 1;

pub const CONNECT: u8 = 2;

pub const DISCONNECT: u8 = 3;

pub const PING: u8 = 4;

pub const PONG: u8 = 5;

pub const OOB_SEND: u8 = 6;

pub const OOB_RECEIVED: u8 = 7;

// "document 001 caps a sealed packet at 2,048, and sealing adds 16"
pub(crate) const MOST_BYTES: usize = 2032;

// The bytes of a kind and a key: a routing request has these alone, and an out-of-band payload begins behind them.
pub const KIND_AND_KEY: usize = 33;

// With one byte more: those of a routing response, and the fewest of an out-of-band packet.
pub const KIND_KEY_AND_BYTE: usize = 34;

// The most of an out-of-band packet: its payload has at most 1,024.
pub(crate) const MOST_OOB_BYTES: usize = 1057;

// 4: "A packet has 1 to 2,032 bytes".
#[tactic(auto, unfolding(packet_laws::specs::Table::size_right))]
pub fn size_right(size: usize) -> bool
    ensures { result ≡ size_right size }
{
    matches!(size, 1..=MOST_BYTES)
}

// 5, at the relay: the kinds that a client sends. Here and below a data packet is asked for first, since most packets are one: with its range behind the other
// kinds, each of them was looked for first, and a client's reader took 1.3 times as long for it.
#[tactic(auto, unfolding(packet_laws::specs::Table::relay_takes))]
pub(crate) fn relay_takes(kind: u8) -> bool
    ensures { result ≡ relay_takes kind }
{
    ConnectionNumber::FIRST <= kind || matches!(kind, REQUEST | DISCONNECT | PING | PONG | OOB_SEND)
}

// 5, at the client: the kinds that the relay sends.
#[tactic(auto, unfolding(packet_laws::specs::Table::client_takes))]
pub(crate) fn client_takes(kind: u8) -> bool
    ensures { result ≡ client_takes kind }
{
    ConnectionNumber::FIRST <= kind
        || matches!(
            kind,
            RESPONSE | CONNECT | DISCONNECT | PING | PONG | OOB_RECEIVED
        )
}

// 6: the table's last column.
#[tactic(auto, unfolding(packet_laws::specs::Table::length_right))]
pub fn length_right(kind: u8, size: usize) -> bool
    ensures { result ≡ length_right kind size }
{
    match kind {
        REQUEST => size == KIND_AND_KEY,
        RESPONSE => size == KIND_KEY_AND_BYTE,
        CONNECT | DISCONNECT => size == 2,
        PING | PONG => size == 9,
        OOB_SEND | OOB_RECEIVED => matches!(size, KIND_KEY_AND_BYTE..=MOST_OOB_BYTES),
        _ => 2 <= size,
    }
}

// 7: a ping number is not 0.
#[tactic(auto, unfolding(packet_laws::specs::Table::ping_right))]
pub(crate) fn ping_right(kind: u8, body: &[u8]) -> bool
    ensures { result ≡ ping_right kind body.now }
{
    match kind {
        PING | PONG => wire::read_number(body) != 0,
        _ => true,
    }
}

// 8, at the client: a connection number is 16 or more; the response 0 says that none was given.
#[tactic(auto, unfolding(packet_laws::specs::Table::number_right))]
pub fn number_right(kind: u8, number: u8) -> bool
    ensures { result ≡ number_right kind number }
{
    match kind {
        RESPONSE => number == 0 || ConnectionNumber::FIRST <= number,
        CONNECT | DISCONNECT => ConnectionNumber::FIRST <= number,
        _ => true,
    }
}

// 4 to 7, which both ends check alike, at an end that takes such kinds: the kind of a packet that passes.
#[tactic(auto, unfolding(crate::specs::Checked::kind_checked, crate::specs::Checked::read_result, packet_laws::specs::Table::checked, packet_laws::specs::Read::check, packet_laws::specs::Table::kind_of, packet_laws::specs::Table::body_of, packet_laws::specs::Table::size_right))]
pub(crate) fn checked<F: Fn(u8) -> bool>(packet: &[u8], takes: F) -> Result<u8, Refusal>
    requires { F.IsAlwaysCallable takes }
    ensures { (t : ℕ → Bool) → ((kind : ℕ) (taken : Bool) → F.post takes kind taken → taken ≡ t kind) → result ≡ kind_checked t packet.now }
{
    let size = packet.len();
    if !size_right(size) {
        return Err(Refusal::PacketSize);
    }
    let kind = packet[0];
    if !takes(kind) {
        return Err(Refusal::UnexpectedKind);
    }
    if !length_right(kind, size) {
        return Err(Refusal::WrongLength);
    }
    if !ping_right(kind, &packet[1..]) {
        return Err(Refusal::ZeroPing);
    }
    Ok(kind)
}
