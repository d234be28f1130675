// No code: a room in bytes. `specs/` says where things stand, which room the bytes are and when they are whole, what is looked up and what each change
// leaves. `proofs/`: whole bytes are a whole room of the rules, every such room has whole bytes, a stored change is the rules' change, and each lookup is
// the rules' lookup. The functions stand in `room`.
#![tactic(auto)]
