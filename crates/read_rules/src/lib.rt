// What a query or a read is told of a file, and what can be wrong with it.
#![tactic(auto)]

pub mod format; // format.rt: the format of the sound; document 01's refusal 42
