// What can be wrong with the comments that a build is lent.
#![tactic(auto)]

pub mod comments; // comments.rt: 34 to 36
