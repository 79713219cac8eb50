// Fixed lists: sizes 0 and 2^31 - 1, the order of stops, absent entries under null slots, and cuts.
use crate::given::{
    EXAMPLE, MAX, WORDS, booleans, chutes, cuts, loaded, marks, nulls, numbers, past, ranges,
    sizes, stops, three, twice,
};
use array::array::{Array, ArrayAccessor};
use array::cuts::cut;
use fixed_size_list_array::fixed_size_list_array::FixedSizeListArray;
use fixed_size_list_trial::try_new;
use form::data_type::{DataType, Field};
use leaf_tests::stop_of;
use ledger::ledger::Ledger;
use ledger::stop::Stop;
use null_array::null_array::NullArray;
use primitive_array::UInt16Array;
use primitive_array::types::ArrowPrimitiveType;
use slots::null_buffer::NullBuffer;
use std::test::Fail;

// A fixed list over so many numbers of two bytes at 0; the first nulls are the numbers'.
fn fixed(
    body: &[u8],
    len: u64,
    own: Option<NullBuffer>,
    field: Field,
    size: i32,
    nulls: Option<NullBuffer>,
) -> Result<FixedSizeListArray<UInt16Array>, Stop> {
    let ledger = loaded(body)?;
    let child = numbers(&ledger, body, len, own)?;
    try_new::<UInt16Array>(&ledger, body, field, size, nulls, child)
}

// The stop of a size over the first numbers of the worked example.
fn stop_at(len: u64, size: i32, nulls: Option<NullBuffer>) -> Option<(u8, u32)> {
    stop_of(fixed(&EXAMPLE, len, None, chutes(false), size, nulls))
}

// The stop of pairs of the numbers 7, -, 12, 1, with marks of slots at 8 (present, null) and 9 (null, present).
fn stop_under(field: Field, nulls: Option<NullBuffer>) -> Option<(u8, u32)> {
    stop_of(fixed(
        &[7, 0, 0, 0, 12, 0, 1, 0, 13, 2],
        4,
        marks(8, 4),
        field,
        2,
        nulls,
    ))
}

#[test]
fn size_zero(rt: HostRuntime) -> Result<(), Fail> {
    let body: &[u8] = &EXAMPLE;
    let none = fixed(body, 0, None, chutes(false), 0, None)?;
    let empty = fixed(body, 0, None, chutes(false), 0, marks(10, 3))?;
    assert_eq!(rt;
        (
            none.len(),
            empty.len(),
            nulls(&empty, body),
            ranges(&empty, &[]),
            nulls(&twice(&empty)?, body)
        ),
        (
            0,
            3,
            [Ok(false), Ok(true), Ok(false)],
            [Ok((0, 0)), Ok((0, 0)), Ok((0, 0))],
            [Ok(false), past(), past()]
        )
    );
    Ok(())
}

#[test]
fn sizes_that_stop(rt: HostRuntime) {
    assert_eq!(rt;
        [
            stop_at(5, 2, None),
            stop_at(4, 2, None),
            stop_at(5, 6, None),
            stop_at(5, 5, None),
            stop_at(0, 3, None),
            stop_at(1, 0, None),
            stop_at(1, 0, marks(10, 1))
        ],
        [
            Some((10, 0)),
            None,
            Some((10, 0)),
            None,
            None,
            Some((10, 0)),
            Some((10, 0))
        ]
    );
    assert_eq!(rt;
        [
            stop_at(5, -1, None),
            stop_at(5, -2147483648, marks(10, 9)),
            stop_at(5, -1, marks(28, 1))
        ],
        [Some((4, 0)), Some((4, 0)), Some((2, 0))]
    );
    assert_eq!(rt;
        [
            stop_at(4, 2, marks(10, 2)),
            stop_at(4, 2, marks(10, 3)),
            stop_at(5, 2, marks(10, 3)),
            stop_at(0, 3, marks(10, 1))
        ],
        [None, Some((8, 0)), Some((10, 0)), Some((8, 0))]
    );
}

// A fixed list of the largest size over a null leaf.
fn largest(nullable: bool) -> Result<FixedSizeListArray<NullArray>, Stop> {
    let ledger = Ledger::open(0, 0)?;
    let child = NullArray::try_new(&ledger, &[], 4294967294)?;
    let form = DataType {
        code: 0x1000000000000000,
    };
    try_new::<NullArray>(
        &ledger,
        &[],
        Field { nullable, form },
        2147483647,
        None,
        child,
    )
}

#[test]
fn largest_size(rt: HostRuntime) -> Result<(), Fail> {
    let two = largest(true)?;
    let last = two.value(&[], 1)?;
    assert_eq!(rt;
        (ranges(&two, &[]), last.len(), stop_of(largest(false))),
        (
            [Ok((0, 2147483647)), Ok((2147483647, 4294967294)), past()],
            2147483647,
            Some((11, 0))
        )
    );
    Ok(())
}

#[test]
fn absent_entries_and_other_forms(rt: HostRuntime) {
    assert_eq!(rt;
        [
            stop_under(chutes(false), marks(9, 2)),
            stop_under(chutes(false), None),
            stop_under(chutes(true), None),
            stop_under(booleans(false), None),
            stop_under(booleans(true), marks(9, 1))
        ],
        [None, Some((11, 0)), None, Some((12, 0)), Some((8, 0))]
    );
    assert_eq!(rt; stop_under(chutes(false), marks(8, 2)), Some((11, 0)));
}

#[test]
fn first_and_last_stops(rt: HostRuntime) -> Result<(), Fail> {
    let body: &[u8] = &WORDS;
    let ledger = loaded(body)?;
    let pairs = fixed(body, 2, None, chutes(false), 2, None)?;
    let form = pairs.data_type();
    assert_eq!(rt; form.code, 0xC000000023000000);
    assert_eq!(rt;
        [
            stop_of(try_new::<FixedSizeListArray<UInt16Array>>(
                &ledger,
                body,
                Field {
                    nullable: true,
                    form
                },
                1,
                None,
                pairs
            )),
            stop_of(try_new::<FixedSizeListArray<UInt16Array>>(
                &ledger,
                &[0; 3],
                Field {
                    nullable: true,
                    form
                },
                -1,
                marks(MAX, MAX),
                pairs
            )),
            stop_of(try_new::<FixedSizeListArray<UInt16Array>>(
                &loaded(&[0; 3])?,
                &[0; 3],
                Field {
                    nullable: true,
                    form
                },
                -1,
                None,
                pairs
            )),
        ],
        [Some((17, 0)), Some((1, 0)), Some((2, 0))]
    );
    Ok(())
}

// Numbers 7, 7, 12, 1, 256, 9 at 0, marks present, null, null at 12.
const PAIRS: [u8; 13] = [7, 0, 7, 0, 12, 0, 1, 0, 0, 1, 9, 0, 1];

fn pairs() -> Result<FixedSizeListArray<UInt16Array>, Stop> {
    fixed(&PAIRS, 6, None, chutes(false), 2, marks(12, 3))
}

#[test]
fn cut_moves_the_child(rt: HostRuntime) -> Result<(), Fail> {
    let body: &[u8] = &PAIRS;
    let part = cut(&pairs()?, 1, 2)?;
    let first = part.value(body, 0)?;
    assert_eq!(rt;
        (
            ranges(&part, body),
            nulls(&part, body),
            three(first, body),
            sizes(&part)
        ),
        (
            [Ok((0, 2)), Ok((2, 4)), past()],
            [Ok(true), Ok(true), past()],
            [Ok(12), Ok(1), past()],
            [2, 4, 0xC000000023000000]
        )
    );
    Ok(())
}

#[test]
fn cut_of_a_cut(rt: HostRuntime) -> Result<(), Fail> {
    let body: &[u8] = &PAIRS;
    let last = twice(&pairs()?)?;
    let pair = last.value(body, 0)?;
    assert_eq!(rt;
        (ranges(&last, body), three(pair, body)),
        ([Ok((0, 2)), past(), past()], [Ok(256), Ok(9), past()])
    );
    Ok(())
}

#[test]
fn cuts_at_the_end(rt: HostRuntime) -> Result<(), Fail> {
    assert_eq!(rt;
        cuts(&pairs()?),
        [
            None,
            Some((18, 0)),
            Some((18, 0)),
            Some((18, 0)),
            Some((18, 0))
        ]
    );
    Ok(())
}

// A range needs no body.
#[test]
fn foreign_bodies(rt: HostRuntime) -> Result<(), Fail> {
    let trails = pairs()?;
    assert_eq!(rt;
        (
            stops(&trails, &[0; 12], 2),
            stops(&trails, &[], 3),
            stops(&trails, &[], MAX),
            stop_of(trails.null_count(&[0; 12]))
        ),
        (
            [Some((2, 0)), Some((2, 0)), None, None],
            [Some((18, 0)), Some((18, 0)), Some((18, 0)), Some((18, 0))],
            [Some((18, 0)), Some((18, 0)), Some((18, 0)), Some((18, 0))],
            Some((2, 0))
        )
    );
    Ok(())
}
