// What a list of words means: the inputs of a build that are single values, each at its own place, as specs/Inputs.antt lists them.
#![tactic(auto)]

pub mod orders; // orders.rt: the three orders
pub mod inputs; // inputs.rt: the area and the options
pub mod border; // border.rt: what is refused of the words themselves
pub mod defaults; // defaults.rt: the words before anything is told
pub mod verdict; // verdict.rt: the verdict on inputs told as words
