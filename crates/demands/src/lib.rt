// No code: what the calls of crate `engine` answer and leave, held against the three demands (proofs/Calls.antt).
#![tactic(auto)]
