// The file of a build, as a tree of chunks, and its header and trailer: definitions (specs/) and laws (proofs/), and no function.
#![tactic(auto)]
