// The starred figures of document 01: the table (specs/), that the definitions give it (proofs/), and no function.
#![tactic(auto)]
