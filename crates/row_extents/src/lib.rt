// The rules of the extents that rows name: document 01's refusals 1 and 2.
#![tactic(auto)]

pub mod extents; // extents.rt: 1 and 2, their limits and pools
