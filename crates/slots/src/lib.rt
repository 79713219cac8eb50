#![tactic(auto)]

pub mod null_buffer;
pub mod slot_calls;
pub mod slots;
pub mod trials;
