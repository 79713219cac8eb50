use slots::slots::Slots;

// A boolean leaf: slot k's value is bit k of the bits that start at the byte `place`, as marks lie.
#[derive(Clone, Copy)]
pub struct BooleanArray {
    pub place: u64,
    pub slots: Slots,
}
