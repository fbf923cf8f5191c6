// What a query and a read of a whole file answer.
#![tactic(auto)]

pub mod answer; // answer.rt: positions, or the bytes filled; or the refusal
