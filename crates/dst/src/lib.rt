// DST sound: the lengths and units of its frames, and the DST chunk's head.
#![tactic(auto)]

pub mod frame; // frame.rt: the length of a frame's plain content
pub mod unit; // unit.rt: what a DST frame occupies, with its chunks
pub mod head; // head.rt: the DST chunk's header and FRTE
