// Texts: parts of a lent pool, and their bytes.
#![tactic(auto)]

pub mod extent; // extent.rt: a part of a lent pool
pub mod pools; // pools.rt: the pools that a build is lent
pub mod text; // text.rt: Unicode values as text bytes
