// A form: what kind of array a value is. Its code is written in digits of 4 bits, the highest first: one for each
// layer, from the outermost in, and one for the leaf. A fixed list's digit is followed by its size in eight digits.
// A form has at most 16 digits, and the digits below the leaf's are 0.
// The leaves' digits are those of `Leaf`. Layers: 8 and 9 an offset list with offsets of 4 and of 8 bytes,
// 10 and 11 a view of 4 and of 8 bytes, 12 a fixed list.
#[derive(Clone, Copy, PartialEq, Eq, Debug)]
pub struct DataType {
    pub code: u64,
}

// A leaf, by its digit.
#[derive(Clone, Copy, PartialEq, Eq, Debug)]
pub enum Leaf {
    Null = 1,
    Boolean = 2,
    UInt16 = 3,
    Int32 = 4,
    Int64 = 5,
}

// A field: the form of a layer's child, and whether an entry of it may be absent.
#[derive(Clone, Copy, PartialEq, Eq, Debug)]
pub struct Field {
    pub nullable: bool,
    pub form: DataType,
}
