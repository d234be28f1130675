// The writers, one for each kind that an end sends. Each judges the packet that it would make as the other end's reader does, then whether the
// output has room (10, last), and only then writes.
#![tactic(auto)]

ghost use Rattle.std.specs.Prelude.{[], ◌∷◌, ◌++◌, ◌+◌, length, not, eqb};
ghost use Rattle.wire.specs.Numbers.{bytes_of};
ghost use Rattle.refusal.specs.declared.Refusal.TheVariants.{PacketSize, WrongLength, ZeroPing, NoSuchRoute};
ghost use Rattle.packet_laws.specs.Read.{check};
ghost use Rattle.packet_laws.specs.Table.{size_right, length_right, number_right};
ghost use Rattle.packet_laws.specs.FromClient.{routing_request, drop_route, oob_send};
ghost use Rattle.packet_laws.specs.FromRelay.{routing_response, connect_notice, disconnect_notice, oob_received};
ghost use Rattle.packet_write.specs.Written.{Puts, PutsJudged, passed, ClientWrites, RelayWrites, PingWrites, PongWrites, DataWrites};

use key::Key;
use packet::{ConnectionNumber, kind};
use refusal::Refusal;

// The client's routing request: 10.
pub fn routing_request(key: Key, out: &mut [u8]) -> Result<usize, Refusal>
    ensures { ClientWrites (routing_request key.0) out.old out.new result }
{
    put(kind::REQUEST, &[], &key.0, out)
}

// The relay's response to a routing request, with the number given or 0: 8, 10.
pub fn routing_response(
    number: ConnectionNumber,
    key: Key,
    out: &mut [u8],
) -> Result<usize, Refusal>
    ensures { RelayWrites (routing_response number.0 key.0) out.old out.new result }
{
    numbered(kind::RESPONSE, number, &key.0, out)
}

// The relay's connect notification: 8, 10.
pub fn connect_notification(number: ConnectionNumber, out: &mut [u8]) -> Result<usize, Refusal>
    ensures { RelayWrites (connect_notice number.0) out.old out.new result }
{
    numbered(kind::CONNECT, number, &[], out)
}

// The relay's disconnect notification: 8, 10.
pub fn disconnect_notification(number: ConnectionNumber, out: &mut [u8]) -> Result<usize, Refusal>
    ensures { RelayWrites (disconnect_notice number.0) out.old out.new result }
{
    numbered(kind::DISCONNECT, number, &[], out)
}

// The client's drop, of any number, since the relay's reader judges none: 10.
pub fn drop_route(number: ConnectionNumber, out: &mut [u8]) -> Result<usize, Refusal>
    ensures { ClientWrites (drop_route number.0) out.old out.new result }
{
    put(kind::DISCONNECT, &[number.0], &[], out)
}

// Either end's ping: 7, 10.
pub fn ping(number: u64, out: &mut [u8]) -> Result<usize, Refusal>
    ensures { PingWrites number out.old out.new result }
{
    pinging(kind::PING, number, out)
}

// Either end's pong: 7, 10.
pub fn pong(number: u64, out: &mut [u8]) -> Result<usize, Refusal>
    ensures { PongWrites number out.old out.new result }
{
    pinging(kind::PONG, number, out)
}

// The client's out-of-band send: 4, 6, 10.
pub fn oob_send(key: Key, data: &[u8], out: &mut [u8]) -> Result<usize, Refusal>
    ensures { ClientWrites (oob_send key.0 «data».now) out.old out.new result }
{
    addressed(kind::OOB_SEND, key, data, out)
}

// The relay's out-of-band packet, with the sender's key: 4, 6, 10.
pub fn oob_received(key: Key, data: &[u8], out: &mut [u8]) -> Result<usize, Refusal>
    ensures { RelayWrites (oob_received key.0 «data».now) out.old out.new result }
{
    addressed(kind::OOB_RECEIVED, key, data, out)
}

// Either end's data under a connection number: 4, 5 for a number below 16, 6, 10.
pub fn data(number: ConnectionNumber, data: &[u8], out: &mut [u8]) -> Result<usize, Refusal>
    ensures { DataWrites number.0 «data».now out.old out.new result }
{
    if !kind::size_right(1 + data.len()) {
        return Err(Refusal::PacketSize);
    }
    if number.0 < ConnectionNumber::FIRST {
        return Err(Refusal::UnexpectedKind);
    }
    if data.is_empty() {
        return Err(Refusal::WrongLength);
    }
    put(number.0, &[], data, out)
}

// A kind, a number that the client's reader judges, and a key or nothing: 8, 10.
#[tactic(auto, unfolding(crate::specs::Written::written_answer, crate::specs::Written::written_output, packet_laws::specs::Read::check))]
fn numbered(
    kind: u8,
    number: ConnectionNumber,
    rest: &[u8],
    out: &mut [u8],
) -> Result<usize, Refusal>
    ensures { PutsJudged (check (number_right kind number.0) NoSuchRoute passed) (kind ∷ number.0 ∷ rest.now) out.old result out.new }
{
    if !kind::number_right(kind, number.0) {
        return Err(Refusal::NoSuchRoute);
    }
    put(kind, &[number.0], rest, out)
}

// A kind and a ping number: 7, 10.
#[tactic(auto, unfolding(crate::specs::Written::written_answer, crate::specs::Written::written_output, packet_laws::specs::Read::check))]
fn pinging(kind: u8, number: u64, out: &mut [u8]) -> Result<usize, Refusal>
    ensures { PutsJudged (check (not (eqb number 0)) ZeroPing passed) (kind ∷ bytes_of 8 number) out.old result out.new }
{
    if number == 0 {
        return Err(Refusal::ZeroPing);
    }
    put(kind, &[], &number.to_be_bytes(), out)
}

// A kind, a key and bytes: 4, 6, 10.
#[tactic(auto, unfolding(crate::specs::Written::written_answer, crate::specs::Written::written_output, packet_laws::specs::Read::check))]
fn addressed(kind: u8, key: Key, data: &[u8], out: &mut [u8]) -> Result<usize, Refusal>
    ensures { PutsJudged (check (size_right (33 + length «data».now)) PacketSize (check (length_right kind (33 + length «data».now)) WrongLength passed)) (kind ∷ (key.0 ++ «data».now)) out.old result out.new }
{
    let size = kind::KIND_AND_KEY + data.len();
    if !kind::size_right(size) {
        return Err(Refusal::PacketSize);
    }
    if !kind::length_right(kind, size) {
        return Err(Refusal::WrongLength);
    }
    put(kind, &key.0, data, out)
}

// A kind, and two runs of bytes behind it: 10.
fn put(kind: u8, head: &[u8], rest: &[u8], out: &mut [u8]) -> Result<usize, Refusal>
    ensures { Puts (kind ∷ (head.now ++ rest.now)) out.old result out.new }
{
    let middle = 1 + head.len();
    let size = middle + rest.len();
    if out.len() < size {
        return Err(Refusal::OutputTooShort);
    }
    out[0] = kind;
    out[1..middle].copy_from_slice(head);
    out[middle..size].copy_from_slice(rest);
    Ok(size)
}
