// Reading with notes: what is enabled is read, and where it ends is noted for those who pass over it later.
#![tactic(auto)]

pub mod enabled;
pub mod survey;
