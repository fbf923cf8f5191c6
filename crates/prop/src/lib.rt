// The properties of the sound: PROP.
#![tactic(auto)]

pub mod property; // property.rt: PROP
