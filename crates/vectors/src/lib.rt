// No code: document 01's examples P1 to P13, P3 as document 02 has it, as one table, and the proof that every row of it holds. See specs/ and proofs/.
#![tactic(auto)]
