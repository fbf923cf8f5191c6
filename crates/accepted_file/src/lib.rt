// What holds of the file of every accepted build: laws (proofs/), and no function.
#![tactic(auto)]
