// Ledgers: openings, reservations at multiples of 8, bodies that are exactly full, and sums near 2^64.
use ledger::ledger::Ledger;
use ledger::stop::{Reason, Stop};
use std::test::Fail;

const MAX: u64 = 18446744073709551615;

// The two lengths that an opened ledger answers.
fn opened(length: u64, loaded: u64) -> Result<(u64, u64), Stop> {
    let ledger = Ledger::open(length, loaded)?;
    Ok((ledger.length(), ledger.loaded()))
}

fn stopped<T>(reason: Reason) -> Result<T, Stop> {
    Err(Stop::new(reason))
}

#[test]
fn openings(rt: HostRuntime) {
    assert_eq!(rt;
        [opened(0, 0), opened(5, 5), opened(MAX, 0), opened(MAX, MAX)],
        [Ok((0, 0)), Ok((5, 5)), Ok((MAX, 0)), Ok((MAX, MAX))]
    );
}

#[test]
fn more_loaded_than_the_body_has(rt: HostRuntime) {
    assert_eq!(rt;
        [
            opened(0, 1),
            opened(5, 6),
            opened(0, MAX),
            opened(18446744073709551614, MAX)
        ],
        [
            stopped(Reason::BeyondBytes),
            stopped(Reason::BeyondBytes),
            stopped(Reason::BeyondBytes),
            stopped(Reason::BeyondBytes)
        ]
    );
}

#[test]
fn places_are_multiples_of_eight(rt: HostRuntime) -> Result<(), Fail> {
    let mut ledger = Ledger::open(20, 5)?;
    assert_eq!(rt;
        [
            ledger.reserve(3),
            ledger.reserve(0),
            ledger.reserve(4),
            ledger.reserve(0)
        ],
        [Ok(8), Ok(16), Ok(16), stopped(Reason::NoPlaceLeft)]
    );
    Ok(())
}

#[test]
fn stopped_reservation_changes_nothing(rt: HostRuntime) -> Result<(), Fail> {
    let mut ledger = Ledger::open(16, 0)?;
    assert_eq!(rt;
        [
            ledger.reserve(8),
            ledger.reserve(9),
            ledger.reserve(MAX),
            ledger.reserve(8),
            ledger.reserve(0),
            ledger.reserve(1)
        ],
        [
            Ok(0),
            stopped(Reason::NoPlaceLeft),
            stopped(Reason::NoPlaceLeft),
            Ok(8),
            Ok(16),
            stopped(Reason::NoPlaceLeft)
        ]
    );
    assert_eq!(rt; (ledger.length(), ledger.loaded()), (16, 0));
    Ok(())
}

#[test]
fn full_ledgers(rt: HostRuntime) -> Result<(), Fail> {
    let mut empty = Ledger::open(0, 0)?;
    let mut odd = Ledger::open(9, 9)?;
    assert_eq!(rt;
        [empty.reserve(0), empty.reserve(1), odd.reserve(0)],
        [
            Ok(0),
            stopped(Reason::NoPlaceLeft),
            stopped(Reason::NoPlaceLeft)
        ]
    );
    Ok(())
}

#[test]
fn sums_near_two_to_the_64th(rt: HostRuntime) -> Result<(), Fail> {
    let mut whole = Ledger::open(MAX, 0)?;
    let mut loaded = Ledger::open(MAX, MAX)?;
    let mut behind = Ledger::open(MAX, 8)?;
    assert_eq!(rt;
        [whole.reserve(MAX), whole.reserve(0)],
        [Ok(0), stopped(Reason::NoPlaceLeft)]
    );
    assert_eq!(rt;
        [loaded.reserve(0), loaded.reserve(MAX)],
        [stopped(Reason::NoPlaceLeft), stopped(Reason::NoPlaceLeft)]
    );
    assert_eq!(rt;
        [behind.reserve(MAX), behind.reserve(18446744073709551607)],
        [stopped(Reason::NoPlaceLeft), Ok(8)]
    );
    Ok(())
}

#[test]
fn last_place_below_two_to_the_64th(rt: HostRuntime) -> Result<(), Fail> {
    let mut ledger = Ledger::open(MAX, 18446744073709551601)?;
    assert_eq!(rt;
        [ledger.reserve(8), ledger.reserve(7), ledger.reserve(0)],
        [
            stopped(Reason::NoPlaceLeft),
            Ok(18446744073709551608),
            stopped(Reason::NoPlaceLeft)
        ]
    );
    Ok(())
}
