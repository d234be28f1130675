// No code: a table in bytes. `specs/` says what the bytes of a table are, what is found in them and what each change leaves; `proofs/` has the laws
// of these. The functions stand in `table`.
#![tactic(auto)]
