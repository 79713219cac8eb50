// Bits, marks and words on a body of bytes, by the Arrow columnar format.
#![tactic(auto)]

pub mod bits;
pub mod marks;
pub mod native;
pub mod words;
