// The layout of a file: its local chunks in their order around the sound, and the caller's chunks. The writers append header and trailer, but for FRM8's name
// and size; on an empty buffer they measure them.
#![tactic(auto)]

pub mod sound; // sound.rt: the sound chunk up to the first sound byte, and the sound's length
pub mod locals; // locals.rt: the local chunks on either side of the sound
pub mod sides; // sides.rt: FRM8's data before the sound, and what follows the sound
