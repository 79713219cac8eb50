// Where a layer's rows stand: the byte where their marks start, for how many there are places, and how many are taken.
#[derive(Clone, Copy, PartialEq, Eq, Debug)]
pub struct Rows {
    pub marks: u64,
    pub room: u64,
    pub count: u64,
}
