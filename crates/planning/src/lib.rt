// Fixed handlers from the planning office (document 02, e): a planners' start is translated into one without kind 19.
#![tactic(auto)]

pub mod calls;
pub mod refusal;
mod rewrite;
mod skip;
mod spot;
