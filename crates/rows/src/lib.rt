// Rows of words, and what can be wrong with any of them: scalars, lengths and durations.
#![tactic(auto)]

pub mod row; // row.rt: rows of words, their widths and extents
pub mod scalars; // scalars.rt: 3, Unicode scalars
pub mod lengths; // lengths.rt: 10, the lengths of DST frames
pub mod durations; // durations.rt: 18, short tracks
