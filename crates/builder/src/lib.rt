#![tactic(auto)]

pub mod builder;
pub mod leaf;
pub mod step;
pub mod step_calls;
