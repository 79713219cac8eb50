// One addition to a builder. Value goes to boolean and number leaves, Null and Nulls to every layer but the fixed, Close
// (the Rust's `append`) to list, view and fixed layers; its flag says whether the slot is present.
#[derive(Clone, Copy, PartialEq, Eq, Debug)]
pub enum Step {
    Value(i64),
    Null,
    Nulls(u64),
    Close(bool),
}
