ghost use Rattle.std.specs.Prelude.{◌≡◌, IfOk};
ghost use Rattle.trails.specs.Listings.{Lists, slot_of};

use crate::fault::Refusal;
use array::array::{Array, ArrayAccessor};
use primitive_array::UInt16Array;
use std::alloc::Global;
use std::fmt;

// What a handle answers on a body: its null count, and each slot's number, None where the mark is null.
#[derive(Drop)]
pub struct Listing {
    pub nulls: u64,
    pub slots: Vec<Option<i64>>,
}

// Asks for the null count, and then slot by slot for the mark and the number; the first stop is the answer.
pub fn list(heap: Global, handle: UInt16Array, body: &[u8]) -> Result<Listing, Refusal<'static>>
    ensures { IfOk result (λ l. Lists handle.place handle.slots body.now l) }
{
    let nulls = handle.null_count(body)?;
    let slots = (0..handle.len())
        .map(|i| slot(handle, body, i))
        .try_collect(heap)?;
    Ok(Listing { nulls, slots })
}

// Slot i's number, or None where its mark is null.
fn slot(handle: UInt16Array, body: &[u8], i: u64) -> Result<Option<i64>, Refusal<'static>>
    ensures { IfOk result (λ s. s ≡ slot_of handle.place handle.slots body.now i) }
{
    if handle.is_null(body, i)? {
        return Ok(None);
    }
    Ok(Some(handle.value(body, i)?))
}

impl fmt::Display for Listing {
    fn fmt<W: fmt::Write>(&self, f: &mut fmt::Formatter<W>) -> fmt::Result {
        let count = self.slots.len();
        let nulls = self.nulls;
        let noun = if count == 1 { "slot" } else { "slots" };
        write!(f, "{count} {noun}, {nulls} null")?;
        if count > 0 {
            write!(f, ":")?;
        }
        for slot in &self.slots {
            match slot {
                Some(number) => write!(f, " {number}")?,
                None => write!(f, " -")?,
            }
        }
        Ok(())
    }
}
