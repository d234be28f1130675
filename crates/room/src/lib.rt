// The relay's room in memory that the host lends: where its bytes stand, whether they are a whole room, what is looked up in them, and the changes
// that the relay makes to them. Document 01's section "The room", with document 02's "A client that asks for itself" and the clock and pings of its "Notice dead
// laptops".
//
// Sizes are parameters here, but for `Room`, which has document 01's. Who calls, what a packet asks for and what is sent stand above; sockets and sealing stay with the host.
#![tactic(auto)]

pub mod change;
mod empty;
pub mod layout;
pub mod lookup;
pub mod peer;
pub mod whole;

pub use empty::Room;
pub use layout::Sizes;
