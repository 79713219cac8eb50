// Nests of two layers, with a cut at each layer.
use crate::given::{chutes, loaded, marks, nulls, numbers, past, ranges, sizes, three};
use array::array::{Array, ArrayAccessor};
use array::cuts::cut;
use form::data_type::Field;
use ledger::stop::Stop;
use list_array::list_array::GenericListArray;
use primitive_array::UInt16Array;
use primitive_array::types::ArrowPrimitiveType;
use std::test::Fail;

// Numbers 7, 7, 12, 1, 256 at 0, marks present, null, present at 10, offsets 0, 2, 2, 5 at 12 and 0, 1, 3 at 28.
const BODY: [u8; 40] = [
    7, 0, 7, 0, 12, 0, 1, 0, 0, 1, 5, 0, 0, 0, 0, 0, 2, 0, 0, 0, 2, 0, 0, 0, 5, 0, 0, 0, 0, 0, 0,
    0, 1, 0, 0, 0, 3, 0, 0, 0,
];

fn nest() -> Result<GenericListArray<i32, GenericListArray<i32, UInt16Array>>, Stop> {
    let body: &[u8] = &BODY;
    let ledger = loaded(body)?;
    let leaf = numbers(&ledger, body, 5, None)?;
    let trails = list_trial::try_new::<i32, UInt16Array>(
        &ledger,
        body,
        chutes(false),
        12,
        4,
        marks(10, 3),
        leaf,
    )?;
    list_trial::try_new::<i32, GenericListArray<i32, UInt16Array>>(
        &ledger,
        body,
        Field {
            nullable: true,
            form: trails.data_type(),
        },
        28,
        3,
        None,
        trails,
    )
}

#[test]
fn list_of_lists(rt: HostRuntime) -> Result<(), Fail> {
    let body: &[u8] = &BODY;
    let flights = nest()?;
    let trails = flights.value(body, 1)?;
    assert_eq!(rt;
        (
            ranges(&flights, body),
            sizes(&flights),
            ranges(&trails, body),
            nulls(&trails, body)
        ),
        (
            [Ok((0, 1)), Ok((1, 3)), past()],
            [2, 3, 0x8830000000000000],
            [Ok((2, 2)), Ok((2, 5)), past()],
            [Ok(true), Ok(false), past()]
        )
    );
    Ok(())
}

// The cut (1, 1) of the flights, then of the trails of the flight there.
fn last_trails(body: &[u8]) -> Result<GenericListArray<i32, UInt16Array>, Stop> {
    let flights = cut(&nest()?, 1, 1)?;
    cut(&flights.value(body, 0)?, 1, 1)
}

#[test]
fn cut_at_each_layer(rt: HostRuntime) -> Result<(), Fail> {
    let body: &[u8] = &BODY;
    let trails = last_trails(body)?;
    let trail = cut(&trails.value(body, 0)?, 1, 2)?;
    assert_eq!(rt;
        (sizes(&trails), three(trail, body)),
        ([1, 5, 0x8300000000000000], [Ok(1), Ok(256), past()])
    );
    Ok(())
}
