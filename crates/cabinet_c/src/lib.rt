// The calls on bytes, exported for C: each is the call of `cabinet` under its name. Words are two bytes, high first; an odd length is
// unreadable.
#![tactic(auto)]

mod billing_bytes;
mod calls;
mod engines_bytes;
mod index_bytes;
mod journal_bytes;
mod keeper_bytes;
mod planning_bytes;
mod small_bytes;
mod stepping_bytes;
mod window_bytes;
