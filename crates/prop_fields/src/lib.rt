// What the chunks of PROP tell: the speakers and the compression.
#![tactic(auto)]

pub mod layout; // layout.rt: speaker layouts, the channels' names, the speaker code
pub mod compression; // compression.rt: CMPR, DSD or DST
