// No code: a nearest list in lent bytes. `specs/` says where each part stands, which list the bytes are, and what each call answers and leaves; `proofs/` has
// the laws. The functions stand in `lent_list`.
#![tactic(auto)]
