// What reads of DST and of DSD sound share: places and positions, and whether what is lent has the right lengths.
#![tactic(auto)]

pub mod place; // place.rt: a byte of the sound, by position and place within that position's unit
pub mod lent; // lent.rt: whether what a read is lent has the right lengths
