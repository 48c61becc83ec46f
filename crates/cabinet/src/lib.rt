// The calls on bytes. Words are two bytes, high first; an odd length is unreadable. `cabinet_c` exports them for C.
#![tactic(auto)]

pub mod billing_bytes;
pub mod calls;
pub mod engines_bytes;
pub mod index_bytes;
pub mod journal_bytes;
pub mod keeper_bytes;
pub mod planning_bytes;
pub mod small_bytes;
pub mod stepping_bytes;
pub mod window_bytes;
