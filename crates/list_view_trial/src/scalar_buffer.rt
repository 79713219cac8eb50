// Words as a trial is given them: the byte where they start, and how many there are.
#[derive(Clone, Copy, PartialEq, Eq, Debug)]
pub struct ScalarBuffer {
    pub place: u64,
    pub len: u64,
}
