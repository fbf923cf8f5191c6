// Refusals of area, range and tracks, and all that an edited master asks: 6 to 12 (the area, its lengths and range), 13 and 14 (the source track), 15 to 23 (an
// edited master). What any build's options may not say is in `rules`.
#![tactic(auto)]

pub mod area; // area.rt: the area and its range (6 to 12)
pub mod master; // master.rt: the source track, or an edited master (13 to 23)
