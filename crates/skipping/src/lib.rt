// Passing over what was read: where a process or a list ends.
#![tactic(auto)]

pub mod pass;
pub mod skip;
