// Faults in the last stretch of work (document 02, change h): a window of the last W accepted steps, on words and on bytes.
#![tactic(auto)]

pub mod answer;
mod bounded;
pub mod calls;
mod counts;
mod entries;
mod layout;
pub mod on_bytes;
pub mod refusal;
mod testing;
