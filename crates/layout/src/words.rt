ghost use Rattle.std.specs.Prelude.{◌≡◌, ◌+◌, ◌*◌, ◌^◌, ◌≤◌, MatchOption, cond, length, drop, take, Some, None, if◌then◌else◌, nat_le};
ghost use Rattle.layout.specs.Laws.{WordIsSum, AlikeReadAlike, TwosComplement, SignedIsRead, WrittenIsRead, OthersStay};
ghost use Rattle.layout.specs.Words.{number_reply, put_bytes, word_fits, written};

use crate::native::ArrowNativeType;

// The number at a place, or nothing where its word does not lie in the body.
pub fn get<T: ArrowNativeType>(body: &[u8], at: u64) -> Option<T>
    ensures answers { result ≡ number_reply T.of_word T.WIDTH body.now at }
    ensures sum { WordIsSum }
    ensures alike { AlikeReadAlike }
    ensures complement { TwosComplement }
{
    T::read_le(body, at)
}

// Number k of those that lie one behind the other from a place on.
pub fn get_nth<T: ArrowNativeType>(body: &[u8], place: u64, k: u64) -> Option<T>
    ensures { result ≡ number_reply T.of_word T.WIDTH body.now (place + T.WIDTH * k) }
{
    let at = nth_place::<T>(place, k)?;
    get(body, at)
}

// Where word number k of those that lie one behind the other from a place on begins, or nothing where that passes 64 bits.
fn nth_place<T: ArrowNativeType>(place: u64, k: u64) -> Option<u64>
    ensures { MatchOption result (2 ^ 64 ≤ place + T.WIDTH * k) (λ at. at ≡ place + T.WIDTH * k) }
{
    T::WIDTH.checked_mul(k)?.checked_add(place)
}

// Whether the `width` bytes at a place lie in the body.
pub fn word_fits(body: &[u8], at: u64, width: u64) -> bool
    ensures { result ≡ word_fits body.now at width }
{
    let size = body.len() as u64;
    width <= size && at <= size - width
}

// Whether the first n words from a place on end inside the body.
pub fn words_fit<T: ArrowNativeType>(body: &[u8], place: u64, n: u64) -> bool
    ensures { result ≡ nat_le (place + T.WIDTH * n) (length body.now) }
{
    place as u128 + T::WIDTH as u128 * n as u128 <= body.len() as u128
}

// Writes a number at a place; false, and nothing written, where its word does not lie in the body.
pub fn put<T: ArrowNativeType>(body: &mut [u8], at: u64, number: T) -> bool
    ensures fits { result ≡ word_fits body.old at T.WIDTH }
    ensures leaves { body.new ≡ written T.WIDTH body.old at (T.to_word number) }
    ensures read_back { WrittenIsRead }
    ensures others { OthersStay }
    ensures signed { SignedIsRead }
{
    number.write_le(body, at)
}

// Writes a number as number k of those that lie one behind the other from a place on.
pub fn put_nth<T: ArrowNativeType>(body: &mut [u8], place: u64, k: u64, number: T) -> bool
    ensures fits { result ≡ word_fits body.old (place + T.WIDTH * k) T.WIDTH }
    ensures leaves { body.new ≡ written T.WIDTH body.old (place + T.WIDTH * k) (T.to_word number) }
{
    let Some(at) = nth_place::<T>(place, k) else {
        return false;
    };
    put(body, at, number)
}

// The N bytes at a place, or nothing where they do not lie in the body.
pub(crate) fn bytes_at<const N: usize>(body: &[u8], at: u64) -> Option<[u8; N]>
    ensures { result ≡ cond (word_fits body.now at N) (Some (take N (drop at body.now))) None }
{
    if !word_fits(body, at, N as u64) {
        return None;
    }
    let from = at as usize;
    body[from..from + N].first_chunk().copied()
}

// Stores the bytes one by one; false, and nothing stored, where they do not lie in the body.
pub(crate) fn put_bytes<const N: usize>(body: &mut [u8], at: u64, bytes: [u8; N]) -> bool
    ensures fits { result ≡ word_fits body.old at N }
    ensures leaves { body.new ≡ (if result then put_bytes body.old at bytes.entry else body.old) }
{
    if !word_fits(body, at, N as u64) {
        return false;
    }
    for i in 0..N {
        body[at as usize + i] = bytes[i];
    }
    true
}
