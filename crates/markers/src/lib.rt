// Markers, and those that are given: MARK.
#![tactic(auto)]

pub mod marker; // marker.rt: markers and MARK
pub mod custom; // custom.rt: markers that are given
