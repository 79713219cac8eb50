ghost use Rattle.std.specs.Prelude.{◌≡◌, ℕ, ◌^◌, ◌<◌, ◌⊎◌, ℤ, pos, Some, Option, option_map};
ghost use Rattle.layout.specs.Words.{number_reply, signed_of, word_fits, word_of, written};
ghost use Rattle.layout.specs.Natives.{signed_word, unsigned_word};
ghost use Rattle.layout.specs.NativeLaws.{read_signed, signed_read, signed_zero, word_of_signed};
ghost use Rattle.std.proofs.Common.{rules};

use crate::words::{bytes_at, put_bytes};

// A kind of numbers that a body holds as words of a fixed width, lowest byte first.
pub trait ArrowNativeType: Copy {
    // How many bytes a word has.
    ghost WIDTH: { ℕ };

    const WIDTH: u64;
    // The number that a word means, and the word of a number.
    ghost of_word: { ℕ → Self };

    ghost to_word: { Self → ℕ };
    // The whole number that a number is, and the word of a whole number: nothing where it lies outside the range.
    ghost whole: { Self → ℤ };

    ghost word: { ℤ → Option ℕ };

    // The number at a place, or nothing where its word does not lie in the body.
    fn read_le(body: &[u8], at: u64) -> Option<Self>
        ensures { result ≡ number_reply of_word WIDTH body.now at };

    // Writes the number at a place; false, and nothing written, where its word does not lie in the body.
    fn write_le(self, body: &mut [u8], at: u64) -> bool
        ensures fits { result ≡ word_fits body.old at WIDTH }
        ensures leaves { body.new ≡ written WIDTH body.old at (to_word self) };

    // The number in 64 signed bits, which hold those of every kind.
    fn to_i64(self) -> i64
        ensures { result ≡ whole self };

    // The number of 64 signed bits, or nothing where it lies outside the kind's range.
    fn from_i64(v: i64) -> Option<Self>
        ensures { result ≡ option_map of_word (word v) };

    ghost known: { (WIDTH ≡ 2) ⊎ ((WIDTH ≡ 4) ⊎ (WIDTH ≡ 8)) };

    // The number of a word has that word.
    ghost word_of_number: { (n : ℕ) → n < 256 ^ WIDTH → to_word (of_word n) ≡ n };

    // A whole number's word means that number; each word is that of the number that it means; 0 is in every range.
    ghost word_read: { (z : ℤ) (n : ℕ) → word z ≡ Some n → (whole (of_word n) ≡ z) × (n < 256 ^ WIDTH) };

    ghost read_word: { (n : ℕ) → n < 256 ^ WIDTH → word (whole (of_word n)) ≡ Some n };

    ghost zero_word: { word (pos 0) ≡ Some 0 };

    // No word but 0 means what 0 does.
    ghost zero_alone: { (n : ℕ) → whole (of_word n) ≡ whole (of_word 0) → n ≡ 0 };
}

impl ArrowNativeType for u16 {
    ghost WIDTH = { 2 };

    const WIDTH: u64 = 2;

    ghost of_word = { λ n. n };

    ghost to_word = { λ v. v };

    ghost whole = { pos };

    ghost word = { unsigned_word 2 };

    ghost known = { Prim.search rules };

    ghost word_of_number = { Prim.search rules };

    ghost word_read = { Prim.search rules };

    ghost read_word = { Prim.search rules };

    ghost zero_word = { Prim.search rules };

    ghost zero_alone = { Prim.search rules };

    fn read_le(body: &[u8], at: u64) -> Option<u16> {
        let bytes = bytes_at(body, at)?;
        Some(u16::from_le_bytes(bytes))
    }

    fn write_le(self, body: &mut [u8], at: u64) -> bool {
        put_bytes(body, at, u16::to_le_bytes(self))
    }

    fn to_i64(self) -> i64 {
        self.into()
    }

    fn from_i64(v: i64) -> Option<u16> {
        u16::try_from(v).ok()
    }
}

impl ArrowNativeType for i32 {
    ghost WIDTH = { 4 };

    const WIDTH: u64 = 4;

    ghost of_word = { signed_of 4 };

    ghost to_word = { word_of 4 };

    ghost whole = { λ v. v };

    ghost word = { signed_word 4 };

    ghost known = { Prim.search rules };

    ghost word_of_number = { word_of_signed 4 };

    ghost word_read = { signed_read 4 };

    ghost read_word = { read_signed 4 };

    ghost zero_word = { Prim.search rules };

    ghost zero_alone = { λ n h. signed_zero 4 n h };

    fn read_le(body: &[u8], at: u64) -> Option<i32> {
        let bytes = bytes_at(body, at)?;
        Some(i32::from_le_bytes(bytes))
    }

    fn write_le(self, body: &mut [u8], at: u64) -> bool {
        put_bytes(body, at, i32::to_le_bytes(self))
    }

    fn to_i64(self) -> i64 {
        i64::from(self)
    }

    fn from_i64(v: i64) -> Option<i32> {
        i32::try_from(v).ok()
    }
}

impl ArrowNativeType for i64 {
    ghost WIDTH = { 8 };

    const WIDTH: u64 = 8;

    ghost of_word = { signed_of 8 };

    ghost to_word = { word_of 8 };

    ghost whole = { λ v. v };

    ghost word = { signed_word 8 };

    ghost known = { Prim.search rules };

    ghost word_of_number = { word_of_signed 8 };

    ghost word_read = { signed_read 8 };

    ghost read_word = { read_signed 8 };

    ghost zero_word = { Prim.search rules };

    ghost zero_alone = { λ n h. signed_zero 8 n h };

    fn read_le(body: &[u8], at: u64) -> Option<i64> {
        let bytes = bytes_at(body, at)?;
        Some(i64::from_le_bytes(bytes))
    }

    fn write_le(self, body: &mut [u8], at: u64) -> bool {
        put_bytes(body, at, i64::to_le_bytes(self))
    }

    fn to_i64(self) -> i64 {
        self
    }

    fn from_i64(v: i64) -> Option<i64> {
        Some(v)
    }
}
