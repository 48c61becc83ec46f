// Lists of handlers: how deep code is, cH replaced by the old process, a scope's list updated by another, and an entry taken out.
#![tactic(auto)]

pub mod measure;
pub mod replace;
pub mod take;
pub mod update;
