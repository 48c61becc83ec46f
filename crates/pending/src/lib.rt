// The look before a throw: pending processes among what is enabled.
#![tactic(auto)]

pub mod look;
pub mod sides;
