// The rules of the room in the buffers of a build: document 01's refusals 40 and 41.
#![tactic(auto)]

pub mod room; // room.rt: 40 and 41
