// Questions: bits 7 and 8 of a row, negative numbers, indices past the end, bodies shorter than the handle expects.
use crate::stop_of;
use array::array::{Array, ArrayAccessor};
use boolean_array::boolean_array::BooleanArray;
use ledger::ledger::Ledger;
use null_array::null_array::NullArray;
use primitive_array::try_new;
use primitive_array::types::{ArrowPrimitiveType, Int32Type, Int64Type, UInt16Type};
use slots::null_buffer::NullBuffer;
use std::test::Fail;

const MAX: u64 = 18446744073709551615;

#[test]
fn marks_at_bits_seven_and_eight(rt: HostRuntime) -> Result<(), Fail> {
    let body = [0, 0, 128, 1];
    let ledger = Ledger::open(4, 4)?;
    let leaf = BooleanArray::try_new(
        &ledger,
        &body,
        0,
        10,
        Some(NullBuffer { place: 2, len: 10 }),
    )?;
    assert_eq!(rt;
        [
            leaf.is_null(&body, 6),
            leaf.is_null(&body, 7),
            leaf.is_null(&body, 8),
            leaf.is_null(&body, 9)
        ],
        [Ok(true), Ok(false), Ok(false), Ok(true)]
    );
    assert_eq!(rt;
        [leaf.is_valid(&body, 7), leaf.is_valid(&body, 9)],
        [Ok(true), Ok(false)]
    );
    assert_eq!(rt;
        [leaf.null_count(&body), leaf.logical_null_count(&body)],
        [Ok(8), Ok(8)]
    );
    Ok(())
}

#[test]
fn booleans_at_bits_seven_and_eight(rt: HostRuntime) -> Result<(), Fail> {
    let body = [255, 128, 1];
    let ledger = Ledger::open(3, 3)?;
    let leaf = BooleanArray::try_new(&ledger, &body, 1, 10, None)?;
    assert_eq!(rt;
        [
            leaf.value(&body, 6),
            leaf.value(&body, 7),
            leaf.value(&body, 8),
            leaf.value(&body, 9)
        ],
        [Ok(false), Ok(true), Ok(true), Ok(false)]
    );
    Ok(())
}

#[test]
fn numbers_of_two_bytes(rt: HostRuntime) -> Result<(), Fail> {
    let body = [9, 255, 255, 0, 1, 12, 0];
    let ledger = Ledger::open(7, 7)?;
    let leaf = try_new::<UInt16Type>(&ledger, &body, 1, 3, None)?;
    assert_eq!(rt;
        [
            leaf.value(&body, 0),
            leaf.value(&body, 1),
            leaf.value(&body, 2)
        ],
        [Ok(65535), Ok(256), Ok(12)]
    );
    Ok(())
}

#[test]
fn negative_numbers_of_four_bytes(rt: HostRuntime) -> Result<(), Fail> {
    let body = [255, 255, 255, 255, 0, 0, 0, 128, 255, 255, 255, 127];
    let ledger = Ledger::open(12, 12)?;
    let leaf = try_new::<Int32Type>(&ledger, &body, 0, 3, None)?;
    assert_eq!(rt;
        [
            leaf.value(&body, 0),
            leaf.value(&body, 1),
            leaf.value(&body, 2)
        ],
        [Ok(-1), Ok(-2147483648), Ok(2147483647)]
    );
    Ok(())
}

#[test]
fn negative_numbers_of_eight_bytes(rt: HostRuntime) -> Result<(), Fail> {
    let body = [
        254, 255, 255, 255, 255, 255, 255, 255, 0, 0, 0, 0, 0, 0, 0, 128,
    ];
    let ledger = Ledger::open(16, 16)?;
    let leaf = try_new::<Int64Type>(&ledger, &body, 0, 2, None)?;
    assert_eq!(rt;
        [leaf.value(&body, 0), leaf.value(&body, 1)],
        [Ok(-2), Ok(-9223372036854775808)]
    );
    Ok(())
}

#[test]
fn null_slot_keeps_its_number(rt: HostRuntime) -> Result<(), Fail> {
    let body = [7, 0, 12, 0, 2];
    let ledger = Ledger::open(5, 5)?;
    let leaf = try_new::<UInt16Type>(&ledger, &body, 0, 2, Some(NullBuffer { place: 4, len: 2 }))?;
    assert_eq!(rt;
        [leaf.is_null(&body, 0), leaf.is_null(&body, 1)],
        [Ok(true), Ok(false)]
    );
    assert_eq!(rt;
        [leaf.value(&body, 0), leaf.value(&body, 1)],
        [Ok(7), Ok(12)]
    );
    Ok(())
}

// The index is looked at first, also on a body that is too short.
#[test]
fn indices_past_the_end(rt: HostRuntime) -> Result<(), Fail> {
    let ledger = Ledger::open(3, 3)?;
    let leaf = try_new::<UInt16Type>(
        &ledger,
        &[1, 0, 1],
        0,
        1,
        Some(NullBuffer { place: 2, len: 1 }),
    )?;
    assert_eq!(rt;
        [
            stop_of(leaf.is_null(&[], 1)),
            stop_of(leaf.is_valid(&[], 1)),
            stop_of(leaf.value(&[], 1))
        ],
        [Some((18, 0)), Some((18, 0)), Some((18, 0))]
    );
    assert_eq!(rt;
        [
            stop_of(leaf.is_null(&[], MAX)),
            stop_of(leaf.is_valid(&[], MAX)),
            stop_of(leaf.value(&[], MAX))
        ],
        [Some((18, 0)), Some((18, 0)), Some((18, 0))]
    );
    Ok(())
}

#[test]
fn shorter_body_with_marks(rt: HostRuntime) -> Result<(), Fail> {
    let ledger = Ledger::open(5, 5)?;
    let leaf = try_new::<UInt16Type>(
        &ledger,
        &[1, 0, 2, 0, 3],
        0,
        2,
        Some(NullBuffer { place: 4, len: 2 }),
    )?;
    let short = [1, 0, 2, 0];
    assert_eq!(rt;
        [
            stop_of(leaf.is_null(&short, 0)),
            stop_of(leaf.is_valid(&short, 1)),
            stop_of(leaf.null_count(&short)),
            stop_of(leaf.logical_null_count(&short))
        ],
        [Some((2, 0)), Some((2, 0)), Some((2, 0)), Some((2, 0))]
    );
    assert_eq!(rt; leaf.value(&short, 1), Ok(2));
    assert_eq!(rt; stop_of(leaf.value(&[1, 0, 2], 1)), Some((2, 0)));
    Ok(())
}

#[test]
fn shorter_body_without_marks(rt: HostRuntime) -> Result<(), Fail> {
    let body = [1, 2];
    let ledger = Ledger::open(2, 2)?;
    let leaf = BooleanArray::try_new(&ledger, &body, 1, 8, None)?;
    assert_eq!(rt;
        [leaf.is_null(&[], 7), leaf.value(&body, 1)],
        [Ok(false), Ok(true)]
    );
    assert_eq!(rt; leaf.null_count(&[]), Ok(0));
    assert_eq!(rt; stop_of(leaf.value(&[9], 0)), Some((2, 0)));
    Ok(())
}

#[test]
fn null_leaf_needs_no_body(rt: HostRuntime) -> Result<(), Fail> {
    let ledger = Ledger::open(2, 0)?;
    let leaf = NullArray::try_new(&ledger, &[0; 2], 3)?;
    assert_eq!(rt;
        [leaf.is_null(&[], 2), leaf.is_valid(&[], 2)],
        [Ok(false), Ok(true)]
    );
    assert_eq!(rt;
        [
            stop_of(leaf.is_null(&[], 3)),
            stop_of(leaf.is_valid(&[], MAX))
        ],
        [Some((18, 0)), Some((18, 0))]
    );
    assert_eq!(rt;
        [leaf.null_count(&[]), leaf.logical_null_count(&[])],
        [Ok(0), Ok(3)]
    );
    Ok(())
}

#[test]
fn forms_of_leaves(rt: HostRuntime) -> Result<(), Fail> {
    let ledger = Ledger::open(0, 0)?;
    let absent = NullArray::try_new(&ledger, &[], 0)?;
    let boolean = BooleanArray::try_new(&ledger, &[], 0, 0, None)?;
    let chutes = try_new::<UInt16Type>(&ledger, &[], 0, 0, None)?;
    assert_eq!(rt;
        [
            absent.data_type().code,
            boolean.data_type().code,
            chutes.data_type().code
        ],
        [0x1000000000000000, 0x2000000000000000, 0x3000000000000000]
    );
    Ok(())
}

#[test]
fn forms_of_signed_leaves(rt: HostRuntime) -> Result<(), Fail> {
    let ledger = Ledger::open(0, 0)?;
    let four = try_new::<Int32Type>(&ledger, &[], 0, 0, None)?;
    let eight = try_new::<Int64Type>(&ledger, &[], 0, 0, None)?;
    assert_eq!(rt;
        [four.data_type().code, eight.data_type().code],
        [0x4000000000000000, 0x5000000000000000]
    );
    Ok(())
}
