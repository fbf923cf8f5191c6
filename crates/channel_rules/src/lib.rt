// The rules of the channel numbers of an unspecified layout: document 01's refusals 26 and 27.
#![tactic(auto)]

pub mod channel_numbers; // channel_numbers.rt: 26 and 27
