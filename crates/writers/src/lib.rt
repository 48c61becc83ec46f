// Words written one after the other.
#![tactic(auto)]

pub mod write;
