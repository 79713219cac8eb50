#![tactic(auto)]

ghost use Rattle.std.specs.Prelude.{◌≡◌, ◌+◌, ◌-◌, ◌*◌, ◌/◌, ◌%◌, ◌^◌, ◌<◌, length, ◌==◌};
ghost use Rattle.form.specs.Examples.{Builds, examples, ExamplesHold};
ghost use Rattle.form.specs.Forms.{code_in, digit_count, fixed_form, fixed_reply, layer_form, layer_reply, leaf_digit, leaf_form, room_reply, with_code};
ghost use Rattle.form.specs.Laws.{Compares, Counts, Extends};
ghost use Rattle.form.specs.Shapes.Shape.{Fixed, Layer};

pub mod data_type;

use data_type::{DataType, Leaf};
use ledger::stop::{Reason, Stop};

impl DataType {
    // The form of a leaf, by the digit's lowest four bits.
    pub fn leaf(digit: u8) -> DataType
        ensures { result ≡ leaf_form digit }
    {
        DataType {
            code: (digit as u64 & 15) << 60,
        }
    }

    // How many digits the form has: 16 less the lowest ones that are 0.
    pub fn digits(self) -> u32
        ensures answers { result ≡ digit_count self }
        ensures counts { Counts self result }
    {
        16 - (self.code.trailing_zeros() >> 2)
    }

    // The form under one more layer, by the digit's lowest four bits; it stops where that has more than 16 digits.
    pub fn layer(self, digit: u8) -> Result<DataType, Stop>
        ensures answers { result ≡ layer_reply self digit }
        ensures extends { Extends self (Layer (digit % 16)) result }
    {
        self.check_room(1)?;
        Ok(self.with_layer(digit))
    }

    // The form under one more layer; its last digit falls off where it has 16 already.
    pub fn with_layer(self, digit: u8) -> DataType
        ensures { result ≡ layer_form self digit }
    {
        self.with_front(digit as u64 & 15, 4)
    }

    // The form of a fixed list whose slots have so many entries of this form; it stops as above.
    pub fn fixed(self, size: u32) -> Result<DataType, Stop>
        ensures answers { result ≡ fixed_reply self size }
        ensures extends { Extends self (Fixed size) result }
    {
        self.check_room(9)?;
        Ok(self.with_fixed(size))
    }

    // The form of such a fixed list; its last digits fall off where there is no place for them.
    pub fn with_fixed(self, size: u32) -> DataType
        ensures { result ≡ fixed_form self size }
    {
        let front = 12 << 32 | size as u64;
        self.with_front(front, 36)
    }

    // Whether two forms are the same.
    pub fn same(self, other: DataType) -> bool
        ensures answers { result ≡ (code_in self == code_in other) }
        ensures compares { Compares self other result }
    {
        self == other
    }

    // Stops where the form with so many more digits has more than 16.
    fn check_room(self, digits: u8) -> Result<(), Stop>
        ensures { result ≡ room_reply digits self }
    {
        if self.digits() + digits as u32 > 16 {
            return Err(Reason::FormTooLong.into());
        }
        Ok(())
    }

    // The form with so many bits of `front` before its code, whose last bits fall off.
    fn with_front(self, front: u64, bits: u32) -> DataType
        requires some { 0 < bits }
        requires below { bits < 64 }
        requires fits { front < 2 ^ bits }
        ensures { result ≡ with_code (front * 2 ^ (64 - bits) + code_in self / 2 ^ bits) }
    {
        DataType {
            code: front << 64 - bits | self.code >> bits,
        }
    }
}

impl From<Leaf> for DataType {
    ghost from_gives = { λ l f. f ≡ leaf_form (leaf_digit l) };

    fn from(leaf: Leaf) -> DataType {
        DataType::leaf(leaf as u8)
    }
}

// How many worked examples there are. Each of them holds, and a shape that is built layer by layer gets its form.
pub fn worked() -> u8
    ensures counts { result ≡ length examples }
    ensures hold { ExamplesHold }
    ensures builds { Builds }
{
    3
}
