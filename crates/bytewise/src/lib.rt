// The calls of one configuration on bytes: bytes held as words, the checks, ends, process of an engine, pending and the step.
#![tactic(auto)]

pub mod calls;
pub mod packing;
pub mod stepping_bytes;
pub mod words;
