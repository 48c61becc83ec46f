// The rules that look at scopes: endings, inst, comp and throw, as edits.
#![tactic(auto)]

pub mod compensating;
pub mod ending;
pub mod installing;
pub mod throwing;
