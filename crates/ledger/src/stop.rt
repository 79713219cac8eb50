ghost use Rattle.std.specs.Prelude.{◌≡◌};
ghost use Rattle.ledger.specs.Stops.{number_of, passed, stopped};

use std::error::Error;
use std::fmt;

// Why a call stopped, by the numbers 1 to 19.
#[derive(Clone, Copy, PartialEq, Eq, Debug)]
pub enum Reason {
    // The body's length is not the ledger's or the builder's.
    BodyLengthDiffers = 1,
    // Own bytes beyond the loaded ones, more loaded bytes than the body has, or a needed bit beyond the body.
    BeyondBytes = 2,
    // A list has zero offsets.
    NoOffsets = 3,
    // The first offset or the fixed size is below 0.
    BelowZero = 4,
    // An offset is below the one before.
    OffsetFalls = 5,
    // The last offset, or start + size, lies beyond the child.
    BeyondChild = 6,
    // start + size is 2^64 or more.
    RangeOverflows = 7,
    // The marks are not as many as the slots.
    MarkCountDiffers = 8,
    // The sizes are not as many as the starts.
    SizeCountDiffers = 9,
    // The child's length is not slots × size.
    ChildLengthDiffers = 10,
    // The field is not nullable and an entry of the child is absent.
    EntryAbsent = 11,
    // The field's form is not the child's.
    FormDiffers = 12,
    // An offset passes its kind's largest, or a length passes 2^62.
    TooLarge = 13,
    // The body or the reserved slots have no place left.
    NoPlaceLeft = 14,
    // The layer lacks the step, or the depth passes the leaf.
    NoSuchStep = 15,
    // A number lies outside the leaf's range.
    NumberOutOfRange = 16,
    // A form has more than 16 digits.
    FormTooLong = 17,
    // An index is not below the length, or a cut's start + n is above it.
    IndexPastEnd = 18,
    // A slot's words are no range in the child.
    NoRange = 19,
}

impl Reason {
    // The number by which users know the reason.
    pub fn number(self) -> u8
        ensures { result ≡ number_of self }
    {
        self as u8
    }
}

// A stop: its reason, and how many layers lie between the layer called and the one that stopped.
#[derive(Clone, Copy, PartialEq, Eq, Debug)]
pub struct Stop {
    pub reason: Reason,
    pub depth: u32,
}

impl Stop {
    // A stop at the layer called.
    pub fn new(reason: Reason) -> Stop
        ensures { result ≡ stopped reason }
    {
        Stop { reason, depth: 0 }
    }

    // The stop as the layer above hands it on.
    pub fn passed(self) -> Stop
        ensures { result ≡ passed self }
    {
        Stop {
            depth: self.depth.saturating_add(1),
            ..self
        }
    }
}

// `Err(reason)?` stops at the layer called.
impl From<Reason> for Stop {
    ghost from_gives = { λ r s. s ≡ stopped r };

    fn from(reason: Reason) -> Stop {
        Stop::new(reason)
    }
}

impl fmt::Display for Stop {
    fn fmt<W: fmt::Write>(&self, f: &mut fmt::Formatter<W>) -> fmt::Result {
        write!(f, "stopped by {} ({:?})", self.reason.number(), self.reason)
    }
}

impl Error for Stop {}
