// Keeper against the river (document 02, m): whether a request can be brought home, whatever the river does.
#![tactic(auto)]

mod apart;
pub mod calls;
mod game;
mod glance;
mod hope;
mod moves;
pub mod refusal;
mod reply;
mod seek;
