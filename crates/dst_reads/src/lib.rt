// Reads of DST sound: which positions a read needs, and the bytes that it gets.
#![tactic(auto)]

pub mod walk; // walk.rt: a byte of the sound, found by walking the lengths, and the positions that a read touches
pub mod dst_data; // dst_data.rt: which positions a read needs, and the read
