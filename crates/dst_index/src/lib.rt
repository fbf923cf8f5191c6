// The index of DST sound: the chunk DSTI.
#![tactic(auto)]

pub mod index; // index.rt: what an entry's offset leads to, the entries, DSTI
