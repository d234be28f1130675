// No code: what a client learns, demand 3. `specs/` has document 01's section "The record for a client" as definitions, with the ticks of document 02's
// "Notice dead laptops", and demands 2 and 3 said of any relay; `proofs/` that two histories with the same record hand a client the same packets and the same
// answers.
#![tactic(auto)]
