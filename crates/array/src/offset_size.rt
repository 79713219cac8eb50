ghost use Rattle.std.specs.Prelude.{◌≡◌, ℕ, suc, ◌+◌, ◌*◌, ◌/◌, ◌%◌, ◌≤◌, ◌⊎◌, pos, Some};
ghost use Rattle.layout.specs.Words.{signed_of, signed_reply, word_fits, written};
ghost use Rattle.array.specs.Offsets.{largest_of};
ghost use Rattle.std.proofs.Common.{rules};

use layout::native::ArrowNativeType;
use layout::words::{get, get_nth, put, put_nth};

// A kind of offsets: signed numbers of four or eight bytes.
pub trait OffsetSizeTrait: ArrowNativeType {
    // How many bytes an offset has.
    fn width() -> u64
        ensures { result ≡ Self.WIDTH }
    {
        Self::WIDTH
    }

    fn max_offset() -> u64
        ensures { result ≡ largest_of Self.WIDTH }
    {
        i64::MAX as u64 >> (64 - 8 * Self::WIDTH)
    }

    // The form digit of an offset list, and of a view.
    fn list_digit() -> u8
        ensures { result ≡ 8 + Self.WIDTH / 8 }
    {
        8 + (Self::WIDTH / 8) as u8
    }

    fn view_digit() -> u8
        ensures { result ≡ 10 + Self.WIDTH / 8 }
    {
        10 + (Self::WIDTH / 8) as u8
    }

    // The offset at a place, or nothing where it does not lie in the body.
    fn read(body: &[u8], at: u64) -> Option<i64>
        ensures { result ≡ signed_reply body.now at Self.WIDTH }
    {
        let offset = get::<Self>(body, at)?;
        Some(offset.to_i64())
    }

    // Offset number k of those that lie one behind the other from a place on.
    fn read_nth(body: &[u8], place: u64, k: u64) -> Option<i64>
        ensures { result ≡ signed_reply body.now (place + Self.WIDTH * k) Self.WIDTH }
    {
        let offset = get_nth::<Self>(body, place, k)?;
        Some(offset.to_i64())
    }

    // The number of an offset, without what passes the largest offset's bits.
    fn of_offset(offset: u64) -> Option<Self>
        ensures { result ≡ Some (Self.of_word (offset % suc (largest_of Self.WIDTH))) }
    {
        Self::from_i64((offset & Self::max_offset()) as i64)
    }

    // Writes an offset at a place, without what passes the largest offset's bits; false, and nothing written, where it
    // does not lie in the body.
    fn write(body: &mut [u8], at: u64, offset: u64) -> bool
        ensures fits { result ≡ word_fits body.old at Self.WIDTH }
        ensures leaves { body.new ≡ written Self.WIDTH body.old at (offset % suc (largest_of Self.WIDTH)) }
    {
        match Self::of_offset(offset) {
            Some(number) => put(body, at, number),
            None => false,
        }
    }

    // Writes it as offset number k of those that lie one behind the other from a place on.
    fn write_nth(body: &mut [u8], place: u64, k: u64, offset: u64) -> bool
        ensures fits { result ≡ word_fits body.old (place + Self.WIDTH * k) Self.WIDTH }
        ensures leaves { body.new ≡ written Self.WIDTH body.old (place + Self.WIDTH * k) (offset % suc (largest_of Self.WIDTH)) }
    {
        match Self::of_offset(offset) {
            Some(number) => put_nth(body, place, k, number),
            None => false,
        }
    }

    ghost wide: { (Self.WIDTH ≡ 4) ⊎ (Self.WIDTH ≡ 8) };

    // A word means the signed number, and all offsets up to the largest have their own words.
    ghost signed: { (n : ℕ) → Self.whole (Self.of_word n) ≡ signed_of Self.WIDTH n };

    ghost offset_word: { (n : ℕ) → n ≤ largest_of Self.WIDTH → Self.word (pos n) ≡ Some n };
}

impl OffsetSizeTrait for i32 {
    ghost wide = { Prim.search rules };

    ghost signed = { Prim.search rules };

    ghost offset_word = { Prim.search rules };
}

impl OffsetSizeTrait for i64 {
    ghost wide = { Prim.search rules };

    ghost signed = { Prim.search rules };

    ghost offset_word = { Prim.search rules };
}
