// The packets of a client: what each asks for. "Order for a packet call: 10, 11, 3, 4, 5, 6, 7, 8, 9": the seat, then what the relay reads, then what
// it asks for.
ghost use Rattle.packet_laws.specs.FromClient.{relay_read};
ghost use Rattle.rules.specs.Call.{packet_call};
ghost use Rattle.rules.specs.Outcome.{outcome, act_on};
ghost use Rattle.room_laws.specs.View.{view_room, seat_held};
ghost use Rattle.relay_laws.specs.Calls.{answer_of, Leaves};
ghost use Rattle.relay.specs.Steps.{Ready, Seated, Shows};

use crate::{Client, carry, drop, pong, request};
use packet::relay;
use packet::relay::ClientPacket;
use records::{Accepted, Answer, record};
use refusal::Refusal;
use room::{Sizes, lookup};
use seat::Seat;

// What a packet that was read asks for: 8, 9. A `match` and no table of steps, since each has parameters of its own.
fn act(
    memory: &mut [u8],
    sizes: Sizes,
    client: Client,
    packet: &[u8],
    shown: ClientPacket,
    out: &mut [u8],
) -> Answer
    requires { Seated sizes client memory.old out.old × Shows packet.now shown }
    ensures { Leaves sizes.seats sizes.numbers (act_on (relay_read packet.now) (view_room sizes.seats sizes.numbers memory.old) client.seat.0 (seat_held sizes.seats sizes.numbers memory.old client.seat.0 client.key.0)) memory.old out.old (answer_of result) memory.new out.new }
{
    match shown {
        ClientPacket::RoutingRequest { key: _ } => {
            request::step(memory, sizes, client, relay::key(packet, shown), out)
        }
        ClientPacket::DropRoute(number) => drop::step(memory, sizes, client, number, out),
        ClientPacket::Ping(ping) => Ok(Accepted {
            seat: client.seat,
            bytes: record::answered(out, 0, client.seat, ping),
        }),
        ClientPacket::Pong(number) => pong::step(memory, sizes, client.seat, number),
        ClientPacket::OobSend { key: _, payload: _ } => carry::out_of_band(
            memory,
            sizes,
            client,
            relay::key(packet, shown),
            relay::payload(packet, shown),
            out,
        ),
        ClientPacket::Data(number, _) => carry::data(
            memory,
            sizes,
            client,
            number,
            relay::payload(packet, shown),
            out,
        ),
    }
}

// The client in a seat of a whole room sends a packet: 3, 4, 5, 6, 7, 8, 9.
pub(crate) fn step(
    memory: &mut [u8],
    sizes: Sizes,
    seat: Seat,
    packet: &[u8],
    out: &mut [u8],
) -> Answer
    requires { Ready sizes memory.old out.old }
    ensures { Leaves sizes.seats sizes.numbers (outcome (view_room sizes.seats sizes.numbers memory.old) (packet_call seat.0 packet.now)) memory.old out.old (answer_of result) memory.new out.new }
{
    if !lookup::is_taken(memory, sizes, seat) {
        return Err(Refusal::NotSeated);
    }
    let key = lookup::key_in(memory, sizes, seat);
    // Document 01 names this form, and no `?`: "the relay's step takes it apart with let .. else and returns the refusal at once".
    let read = relay::read(packet);
    let Ok(shown) = read else {
        return Err(relay::refusal(read));
    };
    act(memory, sizes, Client { seat, key }, packet, shown, out)
}
