// The place of a read in its buffer, and pieces put one after the other.
#![tactic(auto)]

pub mod window; // window.rt: a read's place, and pieces put one after the other
