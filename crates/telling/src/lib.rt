// What `replay` prints of packets, refusals and bytes that are no stored call: the part of the program that knows no room. Keys, seats and connection
// numbers are printed by their own types. No contract here says what is printed; the expected output of `replay` does.
#![tactic(auto)]

pub mod asked;
pub mod count;
pub mod fault;
pub mod from_client;
pub mod from_relay;
pub mod refused;
