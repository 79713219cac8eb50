// What the tests are given, bodies, fields and leaves, and what they ask of any list.
use array::array::{Array, ArrayAccessor, ListLikeArray};
use array::cuts::cut;
use form::data_type::{DataType, Field};
use leaf_tests::stop_of;
use ledger::ledger::Ledger;
use ledger::stop::{Reason, Stop};
use primitive_array::UInt16Array;
use primitive_array::types::{ArrowPrimitiveType, UInt16Type};
use slots::null_buffer::NullBuffer;

pub(crate) const MAX: u64 = 18446744073709551615;

// Numbers 7, 7, 12, 1, 256 at 0, marks present, null, present at 10, offsets 0, 2, 2, 5 at 12.
pub(crate) const EXAMPLE: [u8; 28] = [
    7, 0, 7, 0, 12, 0, 1, 0, 0, 1, 5, 0, 0, 0, 0, 0, 2, 0, 0, 0, 2, 0, 0, 0, 5, 0, 0, 0,
];

// Numbers 1, 2 at 0, words 3, -1, 0, 1, 2, 3, 1, 3 at 4, 8, 12, 16, 20, 24, 28, 32, marks null, present at 36.
pub(crate) const WORDS: [u8; 37] = [
    1, 0, 2, 0, 3, 0, 0, 0, 255, 255, 255, 255, 0, 0, 0, 0, 1, 0, 0, 0, 2, 0, 0, 0, 3, 0, 0, 0, 1,
    0, 0, 0, 3, 0, 0, 0, 2,
];

// A field of numbers of two bytes.
pub(crate) fn chutes(nullable: bool) -> Field {
    Field {
        nullable,
        form: DataType {
            code: 0x3000000000000000,
        },
    }
}

// A field of another form.
pub(crate) fn booleans(nullable: bool) -> Field {
    Field {
        nullable,
        form: DataType {
            code: 0x2000000000000000,
        },
    }
}

pub(crate) fn marks(place: u64, len: u64) -> Option<NullBuffer> {
    Some(NullBuffer { place, len })
}

// A ledger of a body that is wholly loaded.
pub(crate) fn loaded(body: &[u8]) -> Result<Ledger, Stop> {
    Ledger::open(body.len() as u64, body.len() as u64)
}

// So many numbers of two bytes at 0.
pub(crate) fn numbers(
    ledger: &Ledger,
    body: &[u8],
    len: u64,
    nulls: Option<NullBuffer>,
) -> Result<UInt16Array, Stop> {
    primitive_array::try_new::<UInt16Type>(ledger, body, 0, len, nulls)
}

// The first three numbers of a leaf.
pub(crate) fn three(leaf: UInt16Array, body: &[u8]) -> [Result<i64, Stop>; 3] {
    [
        leaf.value(body, 0),
        leaf.value(body, 1),
        leaf.value(body, 2),
    ]
}

// Whether the first three slots are null.
pub(crate) fn nulls<A: Array>(a: &A, body: &[u8]) -> [Result<bool, Stop>; 3] {
    [a.is_null(body, 0), a.is_null(body, 1), a.is_null(body, 2)]
}

// The ranges of the first three slots.
pub(crate) fn ranges<A: ListLikeArray>(a: &A, body: &[u8]) -> [Result<(u64, u64), Stop>; 3] {
    [
        a.element_range(body, 0),
        a.element_range(body, 1),
        a.element_range(body, 2),
    ]
}

// The stops of the cuts (3, 0), (3, 1) and of the largest arguments.
pub(crate) fn cuts<A: Array + Drop>(a: &A) -> [Option<(u8, u32)>; 5] {
    [
        stop_of(cut(a, 3, 0)),
        stop_of(cut(a, 3, 1)),
        stop_of(cut(a, MAX, MAX)),
        stop_of(cut(a, MAX, 1)),
        stop_of(cut(a, 1, MAX)),
    ]
}

// The length, the child's length and the form.
pub(crate) fn sizes<A: ListLikeArray>(a: &A) -> [u64; 3]
where
    A::Child: Drop,
{
    [a.len(), a.values().len(), a.data_type().code]
}

// The stops of a slot's mark, range and value.
pub(crate) fn stops<A: ListLikeArray + ArrayAccessor>(
    a: &A,
    body: &[u8],
    i: u64,
) -> [Option<(u8, u32)>; 4]
where
    A::Item: Drop,
{
    [
        stop_of(a.is_null(body, i)),
        stop_of(a.is_valid(body, i)),
        stop_of(a.element_range(body, i)),
        stop_of(a.value(body, i)),
    ]
}

// The cut (1, 2), and the cut (1, 1) of that.
pub(crate) fn twice<A: Array + Drop>(a: &A) -> Result<A, Stop> {
    cut(&cut(a, 1, 2)?, 1, 1)
}

// The stop of an index past the end.
pub(crate) fn past<T>() -> Result<T, Stop> {
    Err(Stop::new(Reason::IndexPastEnd))
}
