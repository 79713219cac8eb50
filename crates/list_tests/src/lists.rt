// Offset lists: the worked example, the order of stops, offsets of eight bytes, and foreign bodies.
use crate::given::{
    EXAMPLE, MAX, WORDS, booleans, chutes, cuts, loaded, marks, nulls, numbers, past, ranges,
    sizes, stops, three, twice,
};
use array::array::{Array, ArrayAccessor, ListLikeArray};
use array::offset_size::OffsetSizeTrait;
use form::data_type::Field;
use leaf_tests::stop_of;
use ledger::stop::Stop;
use list_array::list_array::GenericListArray;
use list_trial::try_new;
use primitive_array::UInt16Array;
use slots::null_buffer::NullBuffer;
use std::test::Fail;

// A list of so many offsets over so many numbers of two bytes at 0; the first nulls are the numbers'.
fn list<O: OffsetSizeTrait>(
    body: &[u8],
    len: u64,
    own: Option<NullBuffer>,
    field: Field,
    place: u64,
    count: u64,
    nulls: Option<NullBuffer>,
) -> Result<GenericListArray<O, UInt16Array>, Stop> {
    let ledger = loaded(body)?;
    let child = numbers(&ledger, body, len, own)?;
    try_new::<O, UInt16Array>(&ledger, body, field, place, count, nulls, child)
}

fn example() -> Result<GenericListArray<i32, UInt16Array>, Stop> {
    list::<i32>(&EXAMPLE, 5, None, chutes(true), 12, 4, marks(10, 3))
}

// The stop of a list over the two numbers of the words.
fn stop_at(place: u64, count: u64, nulls: Option<NullBuffer>) -> Option<(u8, u32)> {
    stop_of(list::<i32>(&WORDS, 2, None, chutes(false), place, count, nulls))
}

// The same with a null number, and with offsets 1, 2, which do not reach it.
fn stop_under(field: Field, count: u64) -> Option<(u8, u32)> {
    stop_of(list::<i32>(&WORDS, 2, marks(36, 2), field, 16, count, None))
}

#[test]
fn worked_example(rt: HostRuntime) -> Result<(), Fail> {
    let body: &[u8] = &EXAMPLE;
    let trails = example()?;
    assert_eq!(rt;
        (
            ranges(&trails, body),
            nulls(&trails, body),
            trails.null_count(body),
            sizes(&trails)
        ),
        (
            [Ok((0, 2)), Ok((2, 2)), Ok((2, 5))],
            [Ok(false), Ok(true), Ok(false)],
            Ok(1),
            [3, 5, 0x8300000000000000]
        )
    );
    Ok(())
}

#[test]
fn cut_of_a_cut(rt: HostRuntime) -> Result<(), Fail> {
    let body: &[u8] = &EXAMPLE;
    let last = twice(&example()?)?;
    let trail = last.value(body, 0)?;
    assert_eq!(rt;
        (
            ranges(&last, body),
            nulls(&last, body),
            sizes(&last),
            three(trail, body)
        ),
        (
            [Ok((2, 5)), past(), past()],
            [Ok(false), past(), past()],
            [1, 5, 0x8300000000000000],
            [Ok(12), Ok(1), Ok(256)]
        )
    );
    Ok(())
}

#[test]
fn cuts_at_the_end(rt: HostRuntime) -> Result<(), Fail> {
    assert_eq!(rt;
        cuts(&example()?),
        [
            None,
            Some((18, 0)),
            Some((18, 0)),
            Some((18, 0)),
            Some((18, 0))
        ]
    );
    Ok(())
}

#[test]
fn offsets_not_from_zero(rt: HostRuntime) -> Result<(), Fail> {
    let body: &[u8] = &WORDS;
    let tail = list::<i32>(body, 2, None, chutes(false), 16, 2, None)?;
    assert_eq!(rt;
        (
            tail.element_range(body, 0),
            three(tail.value(body, 0)?, body)
        ),
        (Ok((1, 2)), [Ok(2), past(), past()])
    );
    Ok(())
}

#[test]
fn last_offsets(rt: HostRuntime) {
    assert_eq!(rt;
        [
            stop_at(12, 3, None),
            stop_at(12, 4, None),
            stop_at(20, 1, None),
            stop_at(24, 1, None),
            stop_at(20, 2, None)
        ],
        [None, Some((6, 0)), None, Some((6, 0)), Some((6, 0))]
    );
}

#[test]
fn offsets_that_stop(rt: HostRuntime) {
    assert_eq!(rt;
        [
            stop_at(24, 2, None),
            stop_at(24, 3, None),
            stop_at(8, 2, None),
            stop_at(8, 1, None),
            stop_at(8, 7, marks(36, 1))
        ],
        [
            Some((5, 0)),
            Some((5, 0)),
            Some((4, 0)),
            Some((4, 0)),
            Some((4, 0))
        ]
    );
    assert_eq!(rt;
        [
            stop_at(MAX, 0, None),
            stop_at(MAX, 1, None),
            stop_at(33, 2, None),
            stop_at(0, MAX, None)
        ],
        [Some((3, 0)), Some((2, 0)), Some((2, 0)), Some((2, 0))]
    );
}

#[test]
fn marks_of_lists(rt: HostRuntime) {
    assert_eq!(rt;
        [
            stop_at(16, 2, marks(36, 1)),
            stop_at(16, 2, marks(36, 2)),
            stop_at(16, 2, marks(36, 0)),
            stop_at(16, 1, marks(MAX, 0))
        ],
        [None, Some((8, 0)), Some((8, 0)), None]
    );
    assert_eq!(rt;
        [stop_at(20, 2, marks(36, 2)), stop_at(MAX, 0, marks(36, 9))],
        [Some((6, 0)), Some((2, 0))]
    );
}

#[test]
fn absent_entries_and_other_forms(rt: HostRuntime) {
    assert_eq!(rt;
        [
            stop_under(chutes(true), 2),
            stop_under(chutes(false), 2),
            stop_under(booleans(false), 2),
            stop_under(booleans(true), 2),
            stop_under(booleans(false), 3)
        ],
        [
            None,
            Some((11, 0)),
            Some((11, 0)),
            Some((12, 0)),
            Some((6, 0))
        ]
    );
}

#[test]
fn body_length_and_child_stop_first(rt: HostRuntime) -> Result<(), Fail> {
    let body: &[u8] = &WORDS;
    let child = numbers(&loaded(body)?, body, 2, None)?;
    let ledger = loaded(&[0; 3])?;
    assert_eq!(rt;
        [
            stop_of(try_new::<i32, UInt16Array>(
                &ledger,
                &[0; 4],
                booleans(false),
                MAX,
                0,
                marks(MAX, MAX),
                child
            )),
            stop_of(try_new::<i32, UInt16Array>(
                &ledger,
                &[0; 3],
                booleans(false),
                MAX,
                0,
                None,
                child
            )),
        ],
        [Some((1, 0)), Some((2, 0))]
    );
    Ok(())
}

// The stop of so many offsets of eight bytes over two numbers.
fn stop_of_long(body: &[u8], place: u64, count: u64) -> Option<(u8, u32)> {
    stop_of(list::<i64>(body, 2, None, chutes(false), place, count, None))
}

// Numbers 7, 12 at 0, offsets 0, 2, 2^32, -1 at 4.
#[test]
fn offsets_of_eight_bytes(rt: HostRuntime) -> Result<(), Fail> {
    let body: &[u8] = &[
        7, 0, 12, 0, 0, 0, 0, 0, 0, 0, 0, 0, 2, 0, 0, 0, 0, 0, 0, 0, 0, 0, 0, 0, 1, 0, 0, 0, 255,
        255, 255, 255, 255, 255, 255, 255,
    ];
    let trails = list::<i64>(body, 2, None, chutes(false), 4, 2, None)?;
    assert_eq!(rt;
        (
            ranges(&trails, body),
            sizes(&trails),
            [
                stop_of_long(body, 4, 3),
                stop_of_long(body, 4, 4),
                stop_of_long(body, 28, 1)
            ]
        ),
        (
            [Ok((0, 2)), past(), past()],
            [1, 2, 0x9300000000000000],
            [Some((6, 0)), Some((5, 0)), Some((4, 0))]
        )
    );
    Ok(())
}

#[test]
fn shorter_bodies(rt: HostRuntime) -> Result<(), Fail> {
    let trails = example()?;
    let longer: &[u8] = &[0; 27];
    assert_eq!(rt;
        (
            stops(&trails, &[0; 10], 0),
            stops(&trails, longer, 2),
            stops(&trails, longer, 1),
            stop_of(trails.null_count(&[0; 10]))
        ),
        (
            [Some((2, 0)), Some((2, 0)), Some((2, 0)), Some((2, 0))],
            [None, None, Some((2, 0)), Some((2, 0))],
            [None, None, None, None],
            Some((2, 0))
        )
    );
    Ok(())
}

// The index is looked at first.
#[test]
fn indices_past_the_end(rt: HostRuntime) -> Result<(), Fail> {
    let trails = example()?;
    assert_eq!(rt;
        [stops(&trails, &[], 3), stops(&trails, &[], MAX)],
        [
            [Some((18, 0)), Some((18, 0)), Some((18, 0)), Some((18, 0))],
            [Some((18, 0)), Some((18, 0)), Some((18, 0)), Some((18, 0))]
        ]
    );
    Ok(())
}

// Zeros are empty ranges; words that are no range stop.
#[test]
fn foreign_bodies(rt: HostRuntime) -> Result<(), Fail> {
    let trails = example()?;
    assert_eq!(rt;
        (
            ranges(&trails, &[0; 28]),
            trails.null_count(&[0; 28]),
            stops(&trails, &[255; 28], 0),
            stops(&trails, &[6; 28], 1)
        ),
        (
            [Ok((0, 0)), Ok((0, 0)), Ok((0, 0))],
            Ok(3),
            [None, None, Some((19, 0)), Some((19, 0))],
            [None, None, Some((19, 0)), Some((19, 0))]
        )
    );
    Ok(())
}
