// Refusals of the local chunks' order: 37 to 39. They alone ask which chunks will be written. The orders inside PROP (28) and DIIN (30) are in `rules`.
#![tactic(auto)]

pub mod local; // local.rt: the order of the local chunks (37 to 39)
