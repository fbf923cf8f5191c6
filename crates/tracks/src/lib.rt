// Tracks: their spans, clipped to a range, and whether they give a program.
#![tactic(auto)]

pub mod track; // track.rt: tracks, and their spans clipped to the range
pub mod order; // order.rt: whether tracks are in order, and give a program
