// What one client sends to another: "Out-of-band send goes to the seat holding the key, the sender included, with the sender's key put in. With no
// such seat it is accepted and nothing is sent." "Data on a connected number goes to the peer under the peer's number."
ghost use Rattle.std.specs.Prelude.{◌≤◌, length};
ghost use Rattle.packet_laws.specs.FromClient.{oob_send, routed_data};
ghost use Rattle.relay_laws.specs.Calls.{answer_of};
ghost use Rattle.relay.specs.Steps.{Acts, Ready, Seated};

use crate::Client;
use key::Key;
use packet::ConnectionNumber;
use records::{Accepted, Answer, record};
use refusal::Refusal;
use room::{Sizes, lookup, peer};

// An out-of-band send.
pub(crate) fn out_of_band(
    memory: &[u8],
    sizes: Sizes,
    client: Client,
    wanted: Key,
    data: &[u8],
    out: &mut [u8],
) -> Answer
    requires { Ready sizes memory.now out.old × (1 ≤ length «data».now) × (length «data».now ≤ 1024) }
    ensures { Acts sizes client (oob_send wanted.0 «data».now) memory.now out.old (answer_of result) memory.now out.new }
{
    let seat = client.seat;
    let Some(other) = lookup::seat_of(memory, sizes, wanted) else {
        return Ok(Accepted { seat, bytes: 0 });
    };
    let bytes = record::out_of_band(out, 0, other, client.key, data);
    Ok(Accepted { seat, bytes })
}

// Data on a number: 8, 9. The payload is copied once, from the lent packet to the lent output.
pub(crate) fn data(
    memory: &[u8],
    sizes: Sizes,
    client: Client,
    number: ConnectionNumber,
    data: &[u8],
    out: &mut [u8],
) -> Answer
    requires { Seated sizes client memory.now out.old × (1 ≤ length «data».now) × (length «data».now ≤ 2031) }
    ensures { Acts sizes client (routed_data number.0 «data».now) memory.now out.old (answer_of result) memory.now out.new }
{
    let seat = client.seat;
    let Some(wanted) = lookup::wanted_by(memory, sizes, seat, number) else {
        return Err(Refusal::NoSuchRoute);
    };
    let Some(peer) = peer::of(memory, sizes, seat, client.key, wanted) else {
        return Err(Refusal::NotConnected);
    };
    let bytes = record::data(out, 0, peer.seat, peer.number, data);
    Ok(Accepted { seat, bytes })
}
