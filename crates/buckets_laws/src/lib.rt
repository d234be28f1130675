// No code: k-buckets in bytes. `specs/` says what the bytes of buckets are, when they are whole and what each call answers and leaves; `proofs/` has the laws of
// these. The functions stand in `buckets`.
#![tactic(auto)]
