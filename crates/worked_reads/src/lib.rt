// Worked instances of demand 3, checked by computation: definitions (specs/) and laws (proofs/), and no function.
#![tactic(auto)]
