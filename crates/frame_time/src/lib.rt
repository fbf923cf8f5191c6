// Times of frames.
#![tactic(auto)]

pub mod time; // time.rt: the time of a frame
