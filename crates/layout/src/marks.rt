// The marks of a handle's slots: slot k's mark is bit first + k of the bits that start at the byte `place`,
// lowest bit of each byte first. 1 is present, 0 is null.
#[derive(Clone, Copy, PartialEq, Eq, Debug)]
pub struct Marks {
    pub place: u64,
    pub first: u64,
}
