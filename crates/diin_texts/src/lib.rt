// The texts of DIIN: DIAR and DITI.
#![tactic(auto)]

pub mod diin_text; // diin_text.rt: DIAR and DITI
