// Cuts: the largest arguments, cuts of cuts, and null counts from slots that are not the first of a byte.
use array::array::{Array, ArrayAccessor};
use array::cuts::cut;
use boolean_array::boolean_array::BooleanArray;
use ledger::ledger::Ledger;
use ledger::stop::{Reason, Stop};
use null_array::null_array::NullArray;
use primitive_array::try_new;
use primitive_array::types::UInt16Type;
use slots::null_buffer::NullBuffer;
use std::test::Fail;

const MAX: u64 = 18446744073709551615;

// The length of a cut.
fn cut_len<A: Array + Drop>(leaf: &A, start: u64, n: u64) -> Result<u64, Stop> {
    Ok(cut(leaf, start, n)?.len())
}

// The stop of an index or a cut that passes the end.
fn past_end<T>() -> Result<T, Stop> {
    Err(Stop::new(Reason::IndexPastEnd))
}

#[test]
fn largest_arguments(rt: HostRuntime) -> Result<(), Fail> {
    let ledger = Ledger::open(8, 8)?;
    let leaf = try_new::<UInt16Type>(&ledger, &[0; 8], 0, 4, None)?;
    assert_eq!(rt;
        [
            cut_len(&leaf, MAX, 0),
            cut_len(&leaf, MAX, 1),
            cut_len(&leaf, 0, MAX),
            cut_len(&leaf, 5, MAX),
            cut_len(&leaf, MAX, MAX)
        ],
        [past_end(), past_end(), past_end(), past_end(), past_end()]
    );
    Ok(())
}

#[test]
fn cuts_at_the_end(rt: HostRuntime) -> Result<(), Fail> {
    let ledger = Ledger::open(1, 1)?;
    let leaf = BooleanArray::try_new(&ledger, &[0], 0, 5, None)?;
    assert_eq!(rt;
        [
            cut_len(&leaf, 5, 0),
            cut_len(&leaf, 4, 1),
            cut_len(&leaf, 0, 5),
            cut_len(&leaf, 5, 1),
            cut_len(&leaf, 6, 0)
        ],
        [Ok(0), Ok(1), Ok(5), past_end(), past_end()]
    );
    Ok(())
}

#[test]
fn cuts_of_the_longest_null_leaf(rt: HostRuntime) -> Result<(), Fail> {
    let longest = 4611686018427387904;
    let ledger = Ledger::open(0, 0)?;
    let leaf = NullArray::try_new(&ledger, &[], longest)?;
    assert_eq!(rt;
        [
            cut_len(&leaf, longest, 0),
            cut_len(&leaf, 4611686018427387903, 1),
            cut_len(&leaf, 1, longest),
            cut_len(&leaf, MAX, MAX)
        ],
        [Ok(0), Ok(1), past_end(), past_end()]
    );
    Ok(())
}

#[test]
fn cut_of_a_cut(rt: HostRuntime) -> Result<(), Fail> {
    let body = [7, 0, 7, 0, 12, 0, 1, 0, 0, 1, 27];
    let ledger = Ledger::open(11, 11)?;
    let leaf = try_new::<UInt16Type>(&ledger, &body, 0, 5, Some(NullBuffer { place: 10, len: 5 }))?;
    let last = cut(&cut(&leaf, 1, 4)?, 1, 3)?;
    assert_eq!(rt;
        [
            last.value(&body, 0),
            last.value(&body, 1),
            last.value(&body, 2)
        ],
        [Ok(12), Ok(1), Ok(256)]
    );
    assert_eq!(rt;
        [
            last.is_null(&body, 0),
            last.is_null(&body, 1),
            last.is_null(&body, 2)
        ],
        [Ok(true), Ok(false), Ok(false)]
    );
    assert_eq!(rt; [last.null_count(&body), Ok(last.len())], [Ok(1), Ok(3)]);
    assert_eq!(rt; last.value(&body, 3), past_end());
    Ok(())
}

#[test]
fn boolean_cut_inside_a_byte(rt: HostRuntime) -> Result<(), Fail> {
    let body = [0, 3, 255, 1];
    let ledger = Ledger::open(4, 4)?;
    let leaf = BooleanArray::try_new(
        &ledger,
        &body,
        0,
        16,
        Some(NullBuffer { place: 2, len: 16 }),
    )?;
    let part = cut(&leaf, 7, 3)?;
    assert_eq!(rt;
        [
            part.value(&body, 0),
            part.value(&body, 1),
            part.value(&body, 2)
        ],
        [Ok(false), Ok(true), Ok(true)]
    );
    assert_eq!(rt;
        [
            part.is_null(&body, 0),
            part.is_null(&body, 1),
            part.is_null(&body, 2)
        ],
        [Ok(false), Ok(false), Ok(true)]
    );
    assert_eq!(rt; part.null_count(&body), Ok(1));
    Ok(())
}

#[test]
fn cut_needs_only_its_own_bits(rt: HostRuntime) -> Result<(), Fail> {
    let body = [7, 0, 12, 0, 1, 0];
    let ledger = Ledger::open(6, 6)?;
    let leaf = try_new::<UInt16Type>(&ledger, &body, 0, 3, None)?;
    let front = cut(&leaf, 0, 2)?;
    assert_eq!(rt; front.value(&[7, 0, 12, 0], 1), Ok(12));
    let back = cut(&leaf, 2, 1)?;
    assert_eq!(rt;
        back.value(&[7, 0, 12, 0, 1], 0),
        Err(Stop::new(Reason::BeyondBytes))
    );
    Ok(())
}

// How many slots from 0 to n - 1 answer that they are null.
fn nulls_by_slot(leaf: BooleanArray, body: &[u8], n: u64) -> Result<u64, Stop> {
    let mut count: u64 = 0;
    for i in 0..n {
        if leaf.is_null(body, i)? {
            count = count.saturating_add(1);
        }
    }
    Ok(count)
}

#[test]
fn null_count_from_slot_three(rt: HostRuntime) -> Result<(), Fail> {
    let body = [0x55; 20];
    let ledger = Ledger::open(20, 20)?;
    let leaf = BooleanArray::try_new(
        &ledger,
        &body,
        0,
        160,
        Some(NullBuffer { place: 0, len: 160 }),
    )?;
    let part = cut(&leaf, 3, 101)?;
    assert_eq!(rt;
        [part.null_count(&body), nulls_by_slot(part, &body, 101)],
        [Ok(51), Ok(51)]
    );
    Ok(())
}

#[test]
fn null_count_from_slot_thirteen(rt: HostRuntime) -> Result<(), Fail> {
    let body = [0x80; 24];
    let ledger = Ledger::open(24, 24)?;
    let leaf = BooleanArray::try_new(
        &ledger,
        &body,
        0,
        184,
        Some(NullBuffer { place: 1, len: 184 }),
    )?;
    let part = cut(&cut(&leaf, 6, 178)?, 7, 150)?;
    assert_eq!(rt;
        [part.null_count(&body), nulls_by_slot(part, &body, 150)],
        [Ok(131), Ok(131)]
    );
    Ok(())
}

#[test]
fn null_count_inside_one_byte(rt: HostRuntime) -> Result<(), Fail> {
    let body = [0b10110111];
    let ledger = Ledger::open(1, 1)?;
    let leaf = BooleanArray::try_new(&ledger, &body, 0, 8, Some(NullBuffer { place: 0, len: 8 }))?;
    assert_eq!(rt; cut(&leaf, 3, 4)?.null_count(&body), Ok(2));
    assert_eq!(rt; cut(&leaf, 4, 2)?.null_count(&body), Ok(0));
    assert_eq!(rt; cut(&leaf, 6, 1)?.null_count(&body), Ok(1));
    assert_eq!(rt; cut(&leaf, 8, 0)?.null_count(&body), Ok(0));
    Ok(())
}
