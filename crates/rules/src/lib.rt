// The relay as mathematics: what a room is, and what each call does. No code lives here; `specs/` has document 01's section "The room" as definitions, with
// document 02's "A client that asks for itself" and "Notice dead laptops", and `proofs/` what follows from them for every history of calls. Demand 2's
// theorems stand in `after_calls`, demand 3's in `isolation`.
#![tactic(auto)]
