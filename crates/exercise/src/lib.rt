// Condition 3 and the two facts: up to 16 hosts, every patch made, any calls in any order. There is no code
// here; the crate is statements and their proofs.
//
// Rests on `host`, whose calls' own definitions are what changes a replica here: specs/World.antt folds them
// over the bytes of records, tables and patches. What holds after any calls is specs/Condition3.antt, and that
// it does is `condition_3`, proofs/Concluded.antt. docs/CONVERGENCE.md puts it in words.
#![tactic(auto)]
