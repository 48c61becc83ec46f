// Engines that come and go: joining as the next engine, leaving as the last one.
#![tactic(auto)]

pub mod comer;
pub mod join;
pub mod leave;
