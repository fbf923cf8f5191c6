// The checksum of DST sound, as a DSTC chunk has it.
#![tactic(auto)]

pub mod crc; // crc.rt: the CRC of a frame's plain content
mod fold; // fold.rt: a long content, folded to 32 words
