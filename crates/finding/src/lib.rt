// The place of a process: the way to it, the scopes around it, and what stands beside it.
#![tactic(auto)]

pub mod find;
