// Header and trailer of a file: their lengths, and their bytes into two buffers.
#![tactic(auto)]

pub mod measure; // measure.rt: the lengths, by writing to an empty buffer
pub mod fill; // fill.rt: the bytes, where FRM8's size and the place of the sound are known
