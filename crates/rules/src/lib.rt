// Refusals that hang on the options: 1 to 3 (limits, pools, scalars of all that is lent), 24 (the replacement byte), 25 to 29 (PROP), 30 to 33 (DIIN). It puts
// together, by the options, what `rows`, `row_extents`, `channel_rules` and `faults` say of lists. The area's are in `area_rules`, the local order's in `local_rules`.
#![tactic(auto)]

pub mod limits; // limits.rt: limits, pools and Unicode scalars (1 to 3)
pub mod property; // property.rt: what PROP tells (24 to 29)
pub mod info; // info.rt: what DIIN tells (30 to 33)
