// Reading words: what a configuration is, in one pass over its words.
#![tactic(auto)]

pub mod calls;
pub mod context;
pub mod ends;
pub mod reader;
pub mod starts;
pub mod survey;
