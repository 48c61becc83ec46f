// What a kill leaves of a process.
#![tactic(auto)]

pub mod kill;
