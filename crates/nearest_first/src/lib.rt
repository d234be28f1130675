// No code: the nearest of given nodes, nearest first. `specs/` says which they are and in which order; `proofs/` has the laws, and the theorem that a nearest
// list to which all of them are offered holds the same nodes in the same order.
#![tactic(auto)]
