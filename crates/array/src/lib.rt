#![tactic(auto)]

pub mod array;
pub mod cuts;
pub mod list_accessor;
pub mod offset_size;
