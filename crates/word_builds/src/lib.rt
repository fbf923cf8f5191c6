// A build of inputs that are told as words, for the programs and the exported functions.
#![tactic(auto)]

pub mod build; // build.rt: what is wrong with the words themselves, then the build
