// Views: starts and sizes, the order of stops, and foreign bodies.
use crate::given::{
    MAX, WORDS, booleans, chutes, cuts, loaded, marks, nulls, numbers, past, ranges, sizes, stops,
    three, twice,
};
use array::array::{Array, ArrayAccessor};
use form::data_type::Field;
use leaf_tests::stop_of;
use ledger::stop::Stop;
use list_view_array::list_view_array::GenericListViewArray;
use list_view_trial::scalar_buffer::ScalarBuffer;
use list_view_trial::try_new;
use primitive_array::UInt16Array;
use slots::null_buffer::NullBuffer;
use std::test::Fail;

// Numbers 7, 7, 12, 1, 256 at 0, marks present, null, present at 10, starts 0, 2, 2 at 12, sizes 2, 0, 3 at 24.
const VIEW: [u8; 36] = [
    7, 0, 7, 0, 12, 0, 1, 0, 0, 1, 5, 0, 0, 0, 0, 0, 2, 0, 0, 0, 2, 0, 0, 0, 2, 0, 0, 0, 0, 0, 0,
    0, 3, 0, 0, 0,
];

fn words(place: u64, len: u64) -> ScalarBuffer {
    ScalarBuffer { place, len }
}

// A view over so many numbers of two bytes at 0; the first nulls are the numbers'.
fn view(
    body: &[u8],
    len: u64,
    own: Option<NullBuffer>,
    field: Field,
    starts: ScalarBuffer,
    sizes: ScalarBuffer,
    nulls: Option<NullBuffer>,
) -> Result<GenericListViewArray<i32, UInt16Array>, Stop> {
    let ledger = loaded(body)?;
    let child = numbers(&ledger, body, len, own)?;
    try_new::<i32, UInt16Array>(&ledger, body, field, starts, sizes, nulls, child)
}

fn example() -> Result<GenericListViewArray<i32, UInt16Array>, Stop> {
    view(
        &VIEW,
        5,
        None,
        chutes(true),
        words(12, 3),
        words(24, 3),
        marks(10, 3),
    )
}

// The stop of so many slots over the two numbers of the words.
fn stop_at(starts: u64, sizes: u64, n: u64) -> Option<(u8, u32)> {
    stop_of(view(
        &WORDS,
        2,
        None,
        chutes(false),
        words(starts, n),
        words(sizes, n),
        None,
    ))
}

// The stop where counts differ; the start is -1 and the size 1.
fn stop_of_counts(starts: u64, sizes: u64, nulls: Option<NullBuffer>) -> Option<(u8, u32)> {
    stop_of(view(
        &WORDS,
        2,
        None,
        booleans(false),
        words(8, starts),
        words(16, sizes),
        nulls,
    ))
}

// The stop of start 1 and a size over a null number.
fn stop_under(field: Field, sizes: u64) -> Option<(u8, u32)> {
    stop_of(view(
        &WORDS,
        2,
        marks(36, 2),
        field,
        words(16, 1),
        words(sizes, 1),
        None,
    ))
}

#[test]
fn worked_example(rt: HostRuntime) -> Result<(), Fail> {
    let body: &[u8] = &VIEW;
    let trails = example()?;
    assert_eq!(rt;
        (
            ranges(&trails, body),
            nulls(&trails, body),
            trails.null_count(body),
            sizes(&trails)
        ),
        (
            [Ok((0, 2)), Ok((2, 2)), Ok((2, 5))],
            [Ok(false), Ok(true), Ok(false)],
            Ok(1),
            [3, 5, 0xA300000000000000]
        )
    );
    Ok(())
}

#[test]
fn cut_of_a_cut(rt: HostRuntime) -> Result<(), Fail> {
    let body: &[u8] = &VIEW;
    let last = twice(&example()?)?;
    let trail = last.value(body, 0)?;
    assert_eq!(rt;
        (ranges(&last, body), nulls(&last, body), three(trail, body)),
        (
            [Ok((2, 5)), past(), past()],
            [Ok(false), past(), past()],
            [Ok(12), Ok(1), Ok(256)]
        )
    );
    Ok(())
}

#[test]
fn cuts_at_the_end(rt: HostRuntime) -> Result<(), Fail> {
    assert_eq!(rt;
        cuts(&example()?),
        [
            None,
            Some((18, 0)),
            Some((18, 0)),
            Some((18, 0)),
            Some((18, 0))
        ]
    );
    Ok(())
}

#[test]
fn ends_of_slots(rt: HostRuntime) {
    assert_eq!(rt;
        [
            stop_at(8, 16, 1),
            stop_at(8, 12, 1),
            stop_at(12, 8, 1),
            stop_at(8, 8, 1)
        ],
        [Some((7, 0)), Some((6, 0)), Some((6, 0)), Some((7, 0))]
    );
    assert_eq!(rt;
        [
            stop_at(20, 12, 1),
            stop_at(16, 16, 1),
            stop_at(24, 12, 1),
            stop_at(20, 16, 1),
            stop_at(MAX, MAX, 0)
        ],
        [None, None, Some((6, 0)), Some((6, 0)), None]
    );
    assert_eq!(rt;
        [
            stop_at(16, 4, 2),
            stop_at(20, 8, 2),
            stop_at(34, 12, 1),
            stop_at(12, 34, 1)
        ],
        [Some((6, 0)), Some((7, 0)), Some((2, 0)), Some((2, 0))]
    );
}

#[test]
fn counts_that_differ(rt: HostRuntime) {
    assert_eq!(rt;
        [
            stop_of_counts(1, 2, marks(36, 2)),
            stop_of_counts(1, 2, marks(36, 1)),
            stop_of_counts(1, 0, None),
            stop_of_counts(1, 1, marks(36, 0)),
            stop_of_counts(1, 1, marks(36, 1))
        ],
        [
            Some((8, 0)),
            Some((9, 0)),
            Some((9, 0)),
            Some((8, 0)),
            Some((7, 0))
        ]
    );
}

#[test]
fn absent_entries_and_other_forms(rt: HostRuntime) {
    assert_eq!(rt;
        [
            stop_under(chutes(true), 16),
            stop_under(chutes(false), 16),
            stop_under(booleans(false), 16),
            stop_under(booleans(true), 16),
            stop_under(booleans(false), 20)
        ],
        [
            None,
            Some((11, 0)),
            Some((11, 0)),
            Some((12, 0)),
            Some((6, 0))
        ]
    );
}

#[test]
fn body_length_and_child_stop_first(rt: HostRuntime) -> Result<(), Fail> {
    let body: &[u8] = &WORDS;
    let child = numbers(&loaded(body)?, body, 2, None)?;
    let ledger = loaded(&[0; 3])?;
    assert_eq!(rt;
        [
            stop_of(try_new::<i32, UInt16Array>(
                &ledger,
                &[0; 4],
                booleans(false),
                words(MAX, 1),
                words(MAX, 0),
                marks(MAX, MAX),
                child
            )),
            stop_of(try_new::<i32, UInt16Array>(
                &ledger,
                &[0; 3],
                booleans(false),
                words(MAX, 0),
                words(0, 0),
                marks(0, 1),
                child
            )),
        ],
        [Some((1, 0)), Some((2, 0))]
    );
    Ok(())
}

#[test]
fn shorter_bodies(rt: HostRuntime) -> Result<(), Fail> {
    let trails = example()?;
    let longer: &[u8] = &[0; 35];
    assert_eq!(rt;
        [
            stops(&trails, &[0; 10], 0),
            stops(&trails, longer, 2),
            stops(&trails, longer, 1),
            stops(&trails, &[], 3)
        ],
        [
            [Some((2, 0)), Some((2, 0)), Some((2, 0)), Some((2, 0))],
            [None, None, Some((2, 0)), Some((2, 0))],
            [None, None, None, None],
            [Some((18, 0)), Some((18, 0)), Some((18, 0)), Some((18, 0))]
        ]
    );
    Ok(())
}

// Zeros are empty ranges; words that are no range stop.
#[test]
fn foreign_bodies(rt: HostRuntime) -> Result<(), Fail> {
    let trails = example()?;
    assert_eq!(rt;
        (
            ranges(&trails, &[0; 36]),
            stops(&trails, &[255; 36], 0),
            stops(&trails, &[6; 36], 1)
        ),
        (
            [Ok((0, 0)), Ok((0, 0)), Ok((0, 0))],
            [None, None, Some((19, 0)), Some((19, 0))],
            [None, None, Some((19, 0)), Some((19, 0))]
        )
    );
    Ok(())
}
