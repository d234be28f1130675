// No code: what each single call on a room in lent bytes leaves, by the rules: `specs/` has the relations that the contracts in `relay`, the exports and the
// steps of histories share, `proofs/` the laws. The functions stand in `relay`.
#![tactic(auto)]
