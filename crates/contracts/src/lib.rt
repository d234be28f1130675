// No code: what the contract of each exported function states, held against the definitions that it cites, and that it gives the steps of `histories`. See
// specs/ and proofs/.
#![tactic(auto)]
