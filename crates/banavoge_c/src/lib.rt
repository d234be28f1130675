// The static library that C and Rust hosts link. Each export calls the function of `banavoge` of its name, has its clauses, and is told of there.
#![tactic(auto)]

mod frames;
mod k_buckets;
mod keys;
mod nearest_lists;
mod nodes;
mod readers;
mod relay_calls;
mod rooms;
mod runs;
mod sitting;
mod writers;
