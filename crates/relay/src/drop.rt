// Drops: "Drop(number) frees it. A connected peer is told disconnected. The dropper hears nothing."
ghost use Rattle.packet_laws.specs.FromClient.{drop_route};
ghost use Rattle.relay_laws.specs.Calls.{answer_of};
ghost use Rattle.relay.specs.Steps.{Acts, Seated};

use crate::{Client, leave};
use packet::ConnectionNumber;
use records::{Accepted, Answer};
use refusal::Refusal;
use room::{Sizes, change, lookup};

// A client drops a number: 8.
pub(crate) fn step(
    memory: &mut [u8],
    sizes: Sizes,
    client: Client,
    number: ConnectionNumber,
    out: &mut [u8],
) -> Answer
    requires { Seated sizes client memory.old out.old }
    ensures { Acts sizes client (drop_route number.0) memory.old out.old (answer_of result) memory.new out.new }
{
    let seat = client.seat;
    lookup::wanted_by(memory, sizes, seat, number).ok_or(Refusal::NoSuchRoute)?;
    let bytes = leave::tell_peer(memory, sizes, client, number, out, 0);
    change::free_route(memory, sizes, seat, number);
    Ok(Accepted { seat, bytes })
}
