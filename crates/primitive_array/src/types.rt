ghost use Rattle.std.specs.Prelude.{◌≡◌, ℕ, ◌+◌, ◌*◌, ℤ, pos};
ghost use Rattle.form.specs.Forms.{leaf_form};
ghost use Rattle.layout.specs.Words.{signed_of};
ghost use Rattle.primitive_array.specs.Wholes.{whole_reply};
ghost use Rattle.std.proofs.Common.{rules};
ghost use Rattle.layout.specs.NativeLaws.{signed_zero};

use form::data_type::{DataType, Leaf};
use layout::native::ArrowNativeType;
use layout::words::{get, get_nth};

// A kind of number leaves: the numbers that it holds, its form digit, and what a word of it means.
pub trait ArrowPrimitiveType {
    type Native: ArrowNativeType;

    ghost width: { ℕ };

    ghost DIGIT: { ℕ };

    const DIGIT: u8;
    // The whole number of a word.
    ghost whole: { ℕ → ℤ };

    fn width() -> u64
        ensures { result ≡ width }
    {
        Self::Native::WIDTH
    }

    fn data_type() -> DataType
        ensures { result ≡ leaf_form DIGIT }
    {
        DataType::leaf(Self::DIGIT)
    }

    // The number at a place, or nothing where it does not lie in the body.
    fn read(body: &[u8], at: u64) -> Option<i64>
        ensures { result ≡ whole_reply whole width body.now at }
    {
        let number = get::<Self::Native>(body, at)?;
        Some(number.to_i64())
    }

    // Number k of those that lie one behind the other from a place on.
    fn read_nth(body: &[u8], place: u64, k: u64) -> Option<i64>
        ensures { result ≡ whole_reply whole width body.now (place + width * k) }
    {
        let number = get_nth::<Self::Native>(body, place, k)?;
        Some(number.to_i64())
    }

    // Both are those of the numbers that it holds.
    ghost native_width: { Self.Native.WIDTH ≡ width };

    ghost native_whole: { (n : ℕ) → Self.Native.whole (Self.Native.of_word n) ≡ whole n };

    // No word but 0 reads as 0 does.
    ghost zero_alone: { (n : ℕ) → whole n ≡ whole 0 → n ≡ 0 };
}

// Unsigned numbers of two bytes: the numbers of chutes and diverters.
pub struct UInt16Type;

// Signed numbers of four bytes.
pub struct Int32Type;

// Signed numbers of eight bytes.
pub struct Int64Type;

impl ArrowPrimitiveType for UInt16Type {
    type Native = u16;

    ghost width = { 2 };

    ghost DIGIT = { 3 };

    const DIGIT: u8 = Leaf::UInt16 as u8;

    ghost whole = { pos };

    ghost native_width = { Prim.search rules };

    ghost native_whole = { Prim.search rules };

    ghost zero_alone = { Prim.search rules };
}

impl ArrowPrimitiveType for Int32Type {
    type Native = i32;

    ghost width = { 4 };

    ghost DIGIT = { 4 };

    const DIGIT: u8 = Leaf::Int32 as u8;

    ghost whole = { signed_of 4 };

    ghost native_width = { Prim.search rules };

    ghost native_whole = { Prim.search rules };

    ghost zero_alone = { λ n h. signed_zero 4 n h };
}

impl ArrowPrimitiveType for Int64Type {
    type Native = i64;

    ghost width = { 8 };

    ghost DIGIT = { 5 };

    const DIGIT: u8 = Leaf::Int64 as u8;

    ghost whole = { signed_of 8 };

    ghost native_width = { Prim.search rules };

    ghost native_whole = { Prim.search rules };

    ghost zero_alone = { λ n h. signed_zero 8 n h };
}
