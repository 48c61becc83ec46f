// The call pending on words: what the look before a throw finds at an engine and a position.
#![tactic(auto)]

pub mod call;
