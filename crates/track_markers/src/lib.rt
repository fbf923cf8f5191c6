// The markers that are made from tracks.
#![tactic(auto)]

pub mod program; // program.rt: the markers of a row of spans
pub mod from_toc; // from_toc.rt: the markers of tracks, or of a source track
