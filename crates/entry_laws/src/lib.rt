// No code: what the proofs of the entries over lent records share: a table that is filled (proofs/Laws/Filled.antt), and what a table that is too long is refused by (proofs/Laws/Lent.antt).
#![tactic(auto)]
