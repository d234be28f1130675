// No code: what each call does, said by what has happened before it; demand 2's sentence on data is one of these. `specs/` says it by transcripts, and not by
// the room's tables; `proofs/` that the rules do just that.
#![tactic(auto)]
