// Reads of DSD sound: which positions a read needs, and the bytes that it gets.
#![tactic(auto)]

pub mod dsd_data; // dsd_data.rt: which positions a read needs, and the read
