// The journal of a step, and taking the step back.
#![tactic(auto)]

pub mod back;
pub mod compare;
pub mod lay;
pub mod steps;
