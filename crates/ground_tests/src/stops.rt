// Stops: the numbers of the reasons, and the depth.
use ledger::stop::{Reason, Stop};

#[test]
fn numbers_one_to_nine(rt: HostRuntime) {
    assert_eq!(rt;
        [
            Reason::BodyLengthDiffers.number(),
            Reason::BeyondBytes.number(),
            Reason::NoOffsets.number(),
            Reason::BelowZero.number(),
            Reason::OffsetFalls.number(),
            Reason::BeyondChild.number(),
            Reason::RangeOverflows.number(),
            Reason::MarkCountDiffers.number(),
            Reason::SizeCountDiffers.number(),
        ],
        [1, 2, 3, 4, 5, 6, 7, 8, 9]
    );
}

#[test]
fn numbers_ten_to_nineteen(rt: HostRuntime) {
    assert_eq!(rt;
        [
            Reason::ChildLengthDiffers.number(),
            Reason::EntryAbsent.number(),
            Reason::FormDiffers.number(),
            Reason::TooLarge.number(),
            Reason::NoPlaceLeft.number(),
            Reason::NoSuchStep.number(),
            Reason::NumberOutOfRange.number(),
            Reason::FormTooLong.number(),
            Reason::IndexPastEnd.number(),
            Reason::NoRange.number(),
        ],
        [10, 11, 12, 13, 14, 15, 16, 17, 18, 19]
    );
}

#[test]
fn depth_stays_at_its_largest(rt: HostRuntime) {
    let near = Stop::new(Reason::NoRange);
    let deepest = Stop {
        reason: Reason::NoRange,
        depth: 4294967295,
    };
    assert_eq!(rt;
        [near.depth, near.passed().depth, deepest.passed().depth],
        [0, 1, 4294967295]
    );
    assert_eq!(rt; near.passed().reason.number(), 19);
}
