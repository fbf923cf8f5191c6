// The verdict on the inputs of a build: document 01's refusals 1 to 39, put in their order. It has no rule of its own: these are in `rules`, `faults`,
// `area_rules`, `comment_faults` and `local_rules`, and those of lists below them.
#![tactic(auto)]

pub mod verdict; // verdict.rt: the verdict
