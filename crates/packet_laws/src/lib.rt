// No code: relay packets as document 01's section "Relay packets" has them, with layouts from document 001's "TCP server". `specs/` has the table of kinds,
// what either end reads and how a writer judges; `proofs/` the laws, with both round trips. The readers stand in `packet`, the writers in `packet_write`.
#![tactic(auto)]
