ghost use Rattle.std.specs.Prelude.{◌≡◌, ℕ, ◌+◌, ◌*◌, ◌/◌, ◌≤◌, Ok, Err};
ghost use Rattle.ledger.specs.Ledger.{Kept};
ghost use Rattle.slots.specs.Trials.{bytes_end, bit_bytes, marks_bytes_end, bytes_reply, length_reply, marks_reply, new_slots, leaf_reply, and_then};

use crate::null_buffer::NullBuffer;
use crate::slots::Slots;
use layout::marks::Marks;
use ledger::ledger::Ledger;
use ledger::stop::{Reason, Stop};

// The largest number of slots: 2^62.
pub const LENGTH_LIMIT: u64 = 1 << 62;

// Where so many bytes from a place on end; 0 where there are none.
pub fn bytes_end(place: u64, bytes: u64) -> u128
    ensures { result ≡ bytes_end place bytes }
{
    words_end(1, place, bytes)
}

// Where so many words of a width from a place on end; 0 where there are none.
pub fn words_end(width: u64, place: u64, count: u64) -> u128
    ensures { result ≡ bytes_end place (width * count) }
{
    let bytes = width as u128 * count as u128;
    if bytes == 0 {
        return 0;
    }
    place as u128 + bytes
}

// The bytes of n bits.
pub fn bit_bytes(n: u64) -> u64
    ensures { result ≡ bit_bytes n }
{
    n.div_ceil(8)
}

// The end of the marks.
fn marks_end(nulls: Option<NullBuffer>) -> u128
    ensures { result ≡ marks_bytes_end nulls }
{
    nulls.map_or(0, |m| bytes_end(m.place, bit_bytes(m.len)))
}

// Stops where the body's length is not the ledger's, or where own bytes, which end at `own`, or marks are not loaded.
pub fn check_bytes(
    ledger: &Ledger,
    body: &[u8],
    own: u128,
    nulls: Option<NullBuffer>,
) -> Result<(), Stop>
    ensures answers { result ≡ bytes_reply ledger.now body.now own nulls }
    ensures keeps { Kept ledger.now }
{
    if body.len() as u64 != ledger.length() {
        return Err(Reason::BodyLengthDiffers.into());
    }
    let loaded = ledger.loaded() as u128;
    if own > loaded || marks_end(nulls) > loaded {
        return Err(Reason::BeyondBytes.into());
    }
    Ok(())
}

// Stops where the marks are not as many as the slots.
pub fn check_marks(nulls: Option<NullBuffer>, len: u64) -> Result<(), Stop>
    ensures { result ≡ marks_reply nulls len }
{
    let Some(m) = nulls else {
        return Ok(());
    };
    if m.len != len {
        return Err(Reason::MarkCountDiffers.into());
    }
    Ok(())
}

// A trial's marks start on a byte.
impl From<NullBuffer> for Marks {
    ghost from_gives = { λ m k. k ≡ record { place = m.place; first = 0 } };

    fn from(nulls: NullBuffer) -> Marks {
        Marks {
            place: nulls.place,
            first: 0,
        }
    }
}

impl Slots {
    // So many slots, from the first word and the first mark on.
    pub fn new(len: u64, nulls: Option<NullBuffer>) -> Result<Slots, Stop>
        ensures { result ≡ and_then (length_reply len) (Ok (new_slots len nulls)) }
    {
        if len > LENGTH_LIMIT {
            return Err(Reason::TooLarge.into());
        }
        Ok(Slots {
            first: 0,
            len,
            marks: nulls.map(Marks::from),
        })
    }
}

// The slots of a leaf's trial.
pub fn try_slots(
    ledger: &Ledger,
    body: &[u8],
    own: u128,
    len: u64,
    nulls: Option<NullBuffer>,
) -> Result<Slots, Stop>
    ensures answers { result ≡ leaf_reply ledger.now body.now own len nulls }
    ensures keeps { Kept ledger.now }
{
    check_bytes(ledger, body, own, nulls)?;
    let slots = Slots::new(len, nulls)?;
    check_marks(nulls, len)?;
    Ok(slots)
}
