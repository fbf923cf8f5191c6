// The caller's own chunks, written.
#![tactic(auto)]

pub mod callers; // callers.rt: rows of a name and the extent of the data in the byte pool
