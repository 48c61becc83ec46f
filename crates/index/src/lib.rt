// The index of open requests (document 02, change g): the serials that have a waiter, kept beside the steps.
#![tactic(auto)]

pub mod back;
pub mod begin;
pub mod bits;
pub mod change;
pub mod form;
pub mod questions;
pub mod steps;
pub mod waiters;
