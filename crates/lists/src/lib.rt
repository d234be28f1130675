// No code: an element put into a list or taken out of it at a place, places found by a test, and numbers listed once. `specs/` has what these laws
// name, `proofs/` the laws; the nearest list's slots and a table's order both rest on them.
#![tactic(auto)]
