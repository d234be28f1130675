// The functions that a host calls from C or Rust: thin, each with the promise of what it calls. `banavoge_c` exports each of them under its name.
//
// An answer of 0 or more is a kind, a seat, a byte count, or 1 where a node is shown or kept; of the reader of frames it says where a frame is shown. Below 0 it is
// minus the papers' refusal number, and then whatever the `&mut` parameters refer to is as before, but for a nearest list begun with a bad size and for
// `held` and `used` of the reader of frames. Memory stays the host's; two parameters of one call must not overlap.
// The parts of a node and the places that a reader tells stand as parameters of their own, since C passes them so.
#![tactic(auto)]

mod answer;
pub mod frames;
pub mod k_buckets;
pub mod keys;
pub mod nearest_lists;
pub mod nodes;
pub mod readers;
pub mod relay_calls;
pub mod rooms;
pub mod runs;
pub mod sitting;
pub mod writers;
