// Values of variables and expressions.
#![tactic(auto)]

pub mod digits;
pub mod evaluate;
