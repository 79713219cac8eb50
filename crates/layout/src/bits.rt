ghost use Rattle.std.specs.Prelude.{◌≡◌, ◌+◌, ◌*◌, ◌/◌, ◌^◌, ◌<◌, ◌≤◌, length};
ghost use Rattle.layout.specs.Bits.{bit_set, bit_reply, zeros_from, zeros_reply};
ghost use Rattle.layout.specs.Marks.{mark_reply, nulls_reply, mark_spans};
ghost use Rattle.layout.specs.Laws.{ValidWhereBitSet, ZerosAreNulls};
ghost use Rattle.layout.specs.Spans.{in_body};

use crate::marks::Marks;

// Bit number `at` of the body, or nothing beyond its end.
pub fn bit(body: &[u8], at: u128) -> Option<bool>
    ensures { result ≡ bit_reply body.now at }
{
    (at < body.len() as u128 * 8).then(|| bit_in(body, at))
}

#[tactic(auto, using(std::proofs::lemmas::Nat::and_mask))]
fn bit_in(body: &[u8], at: u128) -> bool
    requires { at < 8 * length body.now }
    ensures { result ≡ bit_set body.now at }
{
    body[(at / 8) as usize] >> (at % 8) as u32 & 1 == 1
}

// How many of the n bits from bit `at` on are 0, or nothing where one of them lies beyond the body.
pub fn count_zeros(body: &[u8], at: u128, n: u64) -> Option<u64>
    ensures { result ≡ zeros_reply body.now at n }
{
    if n == 0 {
        return Some(0);
    }
    let end = at.checked_add(n as u128)?;
    (end <= body.len() as u128 * 8).then(|| zeros_in(body, at, n))
}

// The bits up to the next whole byte, then whole words of 64 bits, then the rest.
fn zeros_in(body: &[u8], at: u128, n: u64) -> u64
    requires { at + n ≤ 8 * length body.now }
    ensures { result ≡ zeros_from body.now at n }
{
    let ahead = (at.next_multiple_of(8) - at) as u64;
    if n <= ahead {
        return zeros_by_bit(body, at, n);
    }
    let rest = n - ahead;
    let words = rest / 64;
    let from = at + ahead as u128;
    let place = (from / 8) as usize;
    let before = zeros_by_bit(body, at, ahead);
    let within = zeros_by_word(&body[place..place + 8 * words as usize]);
    let after = zeros_by_bit(body, from + 64 * words as u128, rest % 64);
    before + within + after
}

// Bit by bit.
fn zeros_by_bit(body: &[u8], at: u128, n: u64) -> u64
    requires { at + n ≤ 8 * length body.now }
    ensures counted { result ≡ zeros_from body.now at n }
    ensures few { result ≤ n }
{
    (0..n).filter(|i| !bit_in(body, at + *i as u128)).count() as u64
}

// Of the whole words of 64 bits among the bytes.
fn zeros_by_word(bytes: &[u8]) -> u64
    requires { 8 * length bytes.now < 2 ^ 64 }
    ensures counted { result ≡ zeros_from bytes.now 0 (64 * (length bytes.now / 8)) }
    ensures few { result ≤ 8 * length bytes.now }
{
    let (words, _rest) = bytes.as_chunks::<8>();
    words.iter().map(zeros_of_word).sum()
}

fn zeros_of_word(bytes: &[u8; 8]) -> u64
    ensures { result ≡ zeros_from bytes.now 0 64 }
{
    u64::from_le_bytes(*bytes).count_zeros() as u64
}

impl Marks {
    // The number of the bit of slot k's mark.
    fn bit_number(self, k: u64) -> u128
        ensures { result ≡ 8 * self.place + self.first + k }
    {
        self.place as u128 * 8 + self.first as u128 + k as u128
    }
}

// Whether slot k is present, or nothing where its mark lies beyond the body.
#[tactic(auto, using(crate::proofs::WordLaws::valid_where_set))]
pub fn mark(marks: Option<Marks>, body: &[u8], k: u64) -> Option<bool>
    ensures answers { result ≡ mark_reply marks body.now k }
    ensures valid { ValidWhereBitSet }
{
    let Some(m) = marks else {
        return Some(true);
    };
    bit(body, m.bit_number(k))
}

// How many of the first n slots have a null mark, or nothing where one of the marks lies beyond the body.
#[tactic(auto, using(crate::proofs::NeedLaws::zeros_nulls))]
pub fn count_nulls(marks: Option<Marks>, body: &[u8], n: u64) -> Option<u64>
    ensures answers { result ≡ nulls_reply marks body.now n }
    ensures plain { ZerosAreNulls }
{
    let Some(m) = marks else {
        return Some(0);
    };
    count_zeros(body, m.bit_number(0), n)
}

// Whether the marks of the first n slots lie inside the body.
pub fn marks_fit(marks: Option<Marks>, body: &[u8], n: u64) -> bool
    ensures { result ≡ in_body (mark_spans marks n) body.now }
{
    let Some(m) = marks else {
        return true;
    };
    n == 0 || m.bit_number(n) <= body.len() as u128 * 8
}
