// Which positions a read of a whole file needs.
#![tactic(auto)]

pub mod query; // query.rt: the query
