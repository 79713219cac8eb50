// Trials: rows of count 0, rows at the very end of the loaded bytes, the largest arguments, and the order of stops.
use crate::stop_of;
use boolean_array::boolean_array::BooleanArray;
use ledger::ledger::Ledger;
use null_array::null_array::NullArray;
use primitive_array::try_new;
use primitive_array::types::{ArrowPrimitiveType, Int32Type, Int64Type, UInt16Type};
use slots::null_buffer::NullBuffer;
use std::test::Fail;

const MAX: u64 = 18446744073709551615;

// A trial of numbers on a body of eight zero bytes, of which so many are loaded.
fn numbers<T: ArrowPrimitiveType>(
    loaded: u64,
    place: u64,
    len: u64,
    nulls: Option<NullBuffer>,
) -> Option<(u8, u32)> {
    match Ledger::open(8, loaded) {
        Ok(ledger) => stop_of(try_new::<T>(&ledger, &[0; 8], place, len, nulls)),
        Err(stop) => stop_of::<u8>(Err(stop)),
    }
}

// A trial of booleans on such a body.
fn booleans(loaded: u64, place: u64, len: u64, nulls: Option<NullBuffer>) -> Option<(u8, u32)> {
    match Ledger::open(8, loaded) {
        Ok(ledger) => stop_of(BooleanArray::try_new(&ledger, &[0; 8], place, len, nulls)),
        Err(stop) => stop_of::<u8>(Err(stop)),
    }
}

fn marks(place: u64, len: u64) -> Option<NullBuffer> {
    Some(NullBuffer { place, len })
}

#[test]
fn rows_of_count_zero_at_any_place(rt: HostRuntime) {
    assert_eq!(rt;
        [
            numbers::<UInt16Type>(0, MAX, 0, marks(MAX, 0)),
            numbers::<Int64Type>(8, 9, 0, None),
            booleans(0, MAX, 0, marks(MAX, 0)),
            booleans(8, 9, 0, None)
        ],
        [None, None, None, None]
    );
}

#[test]
fn numbers_end_with_the_loaded_bytes(rt: HostRuntime) {
    assert_eq!(rt;
        [
            numbers::<UInt16Type>(6, 2, 2, None),
            numbers::<UInt16Type>(6, 3, 2, None),
            numbers::<UInt16Type>(6, 2, 3, None)
        ],
        [None, Some((2, 0)), Some((2, 0))]
    );
    assert_eq!(rt;
        [
            numbers::<Int32Type>(7, 3, 1, None),
            numbers::<Int32Type>(7, 4, 1, None)
        ],
        [None, Some((2, 0))]
    );
    assert_eq!(rt;
        [
            numbers::<Int64Type>(8, 0, 1, None),
            numbers::<Int64Type>(8, 1, 1, None)
        ],
        [None, Some((2, 0))]
    );
}

#[test]
fn booleans_end_with_the_loaded_bytes(rt: HostRuntime) {
    assert_eq!(rt;
        [
            booleans(6, 5, 8, None),
            booleans(6, 5, 9, None),
            booleans(6, 4, 9, None),
            booleans(6, 6, 1, None)
        ],
        [None, Some((2, 0)), None, Some((2, 0))]
    );
}

#[test]
fn marks_end_with_the_loaded_bytes(rt: HostRuntime) {
    assert_eq!(rt;
        [
            booleans(6, 0, 8, marks(5, 8)),
            booleans(6, 0, 9, marks(5, 9)),
            booleans(6, 0, 9, marks(4, 9)),
            booleans(6, 0, 1, marks(6, 1))
        ],
        [None, Some((2, 0)), None, Some((2, 0))]
    );
}

#[test]
fn largest_arguments(rt: HostRuntime) {
    assert_eq!(rt;
        [
            numbers::<UInt16Type>(8, MAX, 1, None),
            numbers::<UInt16Type>(8, 0, MAX, None),
            numbers::<Int64Type>(8, MAX, MAX, None),
            numbers::<Int64Type>(8, 0, 2305843009213693952, None)
        ],
        [Some((2, 0)), Some((2, 0)), Some((2, 0)), Some((2, 0))]
    );
    assert_eq!(rt;
        [
            booleans(8, MAX, 1, None),
            booleans(8, 0, MAX, None),
            booleans(8, MAX, MAX, None)
        ],
        [Some((2, 0)), Some((2, 0)), Some((2, 0))]
    );
}

#[test]
fn largest_arguments_of_marks(rt: HostRuntime) {
    assert_eq!(rt;
        [
            numbers::<UInt16Type>(8, 0, 1, marks(MAX, 1)),
            numbers::<UInt16Type>(8, 0, 1, marks(0, MAX)),
            booleans(8, 0, 1, marks(MAX, MAX)),
            booleans(8, 0, 1, marks(MAX, 0))
        ],
        [Some((2, 0)), Some((2, 0)), Some((2, 0)), Some((8, 0))]
    );
}

#[test]
fn null_leaf_at_the_largest_length(rt: HostRuntime) -> Result<(), Fail> {
    let ledger = Ledger::open(0, 0)?;
    assert_eq!(rt;
        [
            stop_of(NullArray::try_new(&ledger, &[], 4611686018427387904)),
            stop_of(NullArray::try_new(&ledger, &[], 4611686018427387905)),
            stop_of(NullArray::try_new(&ledger, &[], MAX))
        ],
        [None, Some((13, 0)), Some((13, 0))]
    );
    Ok(())
}

#[test]
fn body_length_stops_first(rt: HostRuntime) -> Result<(), Fail> {
    let ledger = Ledger::open(8, 8)?;
    assert_eq!(rt;
        [
            stop_of(try_new::<UInt16Type>(&ledger, &[0; 9], 7, 1, marks(8, 2))),
            stop_of(BooleanArray::try_new(&ledger, &[0; 7], 8, 1, marks(8, 2))),
            stop_of(NullArray::try_new(&ledger, &[], MAX)),
        ],
        [Some((1, 0)), Some((1, 0)), Some((1, 0))]
    );
    Ok(())
}

#[test]
fn long_ledger_on_a_short_body(rt: HostRuntime) -> Result<(), Fail> {
    let ledger = Ledger::open(MAX, MAX)?;
    assert_eq!(rt;
        [
            stop_of(try_new::<UInt16Type>(&ledger, &[0; 2], 0, 1, None)),
            stop_of(NullArray::try_new(&ledger, &[], 0))
        ],
        [Some((1, 0)), Some((1, 0))]
    );
    Ok(())
}

#[test]
fn bytes_stop_before_length_and_marks(rt: HostRuntime) {
    assert_eq!(rt;
        [
            numbers::<UInt16Type>(8, 7, 1, marks(0, 2)),
            numbers::<UInt16Type>(8, 0, 1, marks(8, 2)),
            booleans(8, 0, MAX, marks(0, 2))
        ],
        [Some((2, 0)), Some((2, 0)), Some((2, 0))]
    );
}

#[test]
fn marks_stop_where_their_count_differs(rt: HostRuntime) {
    assert_eq!(rt;
        [
            numbers::<UInt16Type>(8, 0, 2, marks(4, 3)),
            numbers::<UInt16Type>(8, 0, 2, marks(4, 1)),
            booleans(8, 0, 2, marks(4, 0)),
            booleans(8, 0, 0, marks(4, 1))
        ],
        [Some((8, 0)), Some((8, 0)), Some((8, 0)), Some((8, 0))]
    );
}
