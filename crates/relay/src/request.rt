// Routing requests. A client that asks for its own key, document 02: "The answer becomes 0 and no route is taken, tested before the search for an old
// number." Then document 01: "a key already named by this seat gets its old number again and nothing else happens. Otherwise the lowest free number is
// taken, or, with none free, the answer is 0 and nothing changes. Then, if the two are now connected, connected is sent to the asker, then to the peer,
// each with its own number."
ghost use Rattle.std.specs.Prelude.{◌+◌, ◌≤◌, length};
ghost use Rattle.packet_laws.specs.FromClient.{routing_request};
ghost use Rattle.rules.specs.Outcome.{answer_only, tell_both};
ghost use Rattle.records.specs.Output.{Appends, Answers};
ghost use Rattle.relay_laws.specs.Calls.{answer_of};
ghost use Rattle.room.specs.Numbers.{peer_of, PeerRight};
ghost use Rattle.relay.specs.Steps.{Acts, Carries, Gives, Ready, Seated};

use crate::Client;
use key::Key;
use packet::ConnectionNumber;
use records::{Accepted, Answer, record};
use room::peer::Peer;
use room::{Sizes, change, lookup, peer};
use seat::Seat;

// Both are told that they are connected: the asker, then the peer.
fn tell_both(
    out: &mut [u8],
    at: usize,
    seat: Seat,
    number: ConnectionNumber,
    peer: Option<Peer>,
) -> usize
    requires { (at + 10 ≤ length out.old) × (16 ≤ number.0) × PeerRight peer }
    ensures { Appends (tell_both seat.0 number.0 (peer_of peer)) out.old at result out.new }
{
    let Some(peer) = peer else {
        return at;
    };
    let next = record::connected(out, at, seat, number);
    record::connected(out, next, peer.seat, peer.number)
}

// A number is given: the answer, and then the two connect notifications if the two are now connected. The peer is asked of the room before the new
// route, which does not touch the other seat.
fn give(
    memory: &mut [u8],
    sizes: Sizes,
    client: Client,
    wanted: Key,
    number: ConnectionNumber,
    out: &mut [u8],
) -> usize
    requires { Ready sizes memory.old out.old × (16 ≤ number.0) }
    ensures { Gives sizes.seats sizes.numbers memory.old client.seat.0 client.key.0 wanted.0 number.0 out.old result memory.new out.new }
{
    let peer = peer::of(memory, sizes, client.seat, client.key, wanted);
    change::give_route(memory, sizes, client.seat, number, wanted);
    let next = record::response(out, 0, client.seat, number, wanted);
    tell_both(out, next, client.seat, number, peer)
}

// The answer, with a number or with 0 for none, "and nothing else happens".
fn answer_only(out: &mut [u8], seat: Seat, number: ConnectionNumber, wanted: Key) -> Answer
    requires { (2048 ≤ length out.old) × Answers number.0 }
    ensures { Carries (answer_only seat.0 number.0 wanted.0) out.old (answer_of result) out.new }
{
    let bytes = record::response(out, 0, seat, number, wanted);
    Ok(Accepted { seat, bytes })
}

// A client's request for a key.
pub(crate) fn step(
    memory: &mut [u8],
    sizes: Sizes,
    client: Client,
    wanted: Key,
    out: &mut [u8],
) -> Answer
    requires { Seated sizes client memory.old out.old }
    ensures { Acts sizes client (routing_request wanted.0) memory.old out.old (answer_of result) memory.new out.new }
{
    let seat = client.seat;
    if wanted.equals(client.key) {
        return answer_only(out, seat, ConnectionNumber(0), wanted);
    }
    if let Some(old) = lookup::number_of(memory, sizes, seat, wanted) {
        return answer_only(out, seat, old, wanted);
    }
    let Some(number) = lookup::lowest_free(memory, sizes, seat) else {
        return answer_only(out, seat, ConnectionNumber(0), wanted);
    };
    let bytes = give(memory, sizes, client, wanted, number, out);
    Ok(Accepted { seat, bytes })
}
