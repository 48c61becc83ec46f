// The step: from a configuration's words to the next one's.
#![tactic(auto)]

pub mod alone;
pub mod answer;
pub mod bundles;
pub mod enabled;
pub mod exchange;
pub mod limits;
pub mod meeting;
pub mod serial;
pub mod steps;
pub mod writing;
