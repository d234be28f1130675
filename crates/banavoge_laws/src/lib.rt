// No code: what the exported functions tell the host. `specs/` has how answers become numbers and what is told through references, `proofs/` the laws. The
// functions stand in `banavoge`.
#![tactic(auto)]
