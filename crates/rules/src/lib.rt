// The rules that look at no scope's list: what a process turns into, alone or between two engines.
#![tactic(auto)]

pub mod alone;
pub mod edit;
pub mod message;
pub mod pair;
pub mod rewriting;
pub mod store;
