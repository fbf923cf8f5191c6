// The edited master information: DIIN.
#![tactic(auto)]

pub mod pick; // pick.rt: whose artist and title are taken
pub mod diin; // diin.rt: DIIN
