// The comments of a file: COMT.
#![tactic(auto)]

pub mod comt; // comt.rt: COMT
