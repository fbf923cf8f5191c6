// A read of a whole file: header, sound and trailer joined.
#![tactic(auto)]

pub mod read; // read.rt: the read
