// The area and the options of a build, their defaults, and what an edited master changes of them.
#![tactic(auto)]

pub mod area; // area.rt: the area that is written, and its range
pub mod options; // options.rt: the options, their defaults, and what an edited master changes of them
pub mod inputs; // inputs.rt: all that a build is told and lent
