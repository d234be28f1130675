// The relay: what arrivals, leaves, packets and ticks do to a room in lent memory, and what they send. Document 01's section "The room",
// with document 02's "A client that asks for itself", "Notice dead laptops" and "One call when a laptop comes back".
//
// A call, or a run of stored calls, is made on a room in lent memory, and writes records, each for a seat, into an output that the host lends; sockets,
// sealing and opening stay with the host.
#![tactic(auto)]

mod arrive;
pub mod calls;
mod carry;
mod drop;
mod leave;
mod packet_call;
pub mod play;
mod pong;
mod request;
mod tick;

use key::Key;
pub use records::{Accepted, Answer};
use seat::Seat;

// Who makes a call: the key, and the seat in which it sits.
//
// That the room is whole and the output long is asked for in the steps' contracts, and is no type around the lent memory: what a step promises is said of all
// the lent bytes, as they are when it returns.
#[derive(Clone, Copy)]
struct Client {
    seat: Seat,
    key: Key,
}
