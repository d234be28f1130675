// No code: what a host sees of the relay over any sequence of calls, and over any run of stored calls. See specs/ and proofs/.
#![tactic(auto)]
