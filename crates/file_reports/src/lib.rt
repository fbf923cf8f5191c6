// What an old reader is to report of the file of a build: definitions (specs/) and laws (proofs/), and no function.
#![tactic(auto)]
