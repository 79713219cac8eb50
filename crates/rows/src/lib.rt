// The rows of a builder: bits and words written one behind the other into reserved places.
#![tactic(auto)]

ghost use Rattle.std.specs.Prelude.{◌≡◌, ℕ, ◌+◌, ◌*◌, ◌/◌, ◌<◌, ◌≤◌, length, slice_index, slice_set};
ghost use Rattle.rows.specs.Rows.{bit_put, offset_put, nulls_at, with_bit, room_reply};

use array::offset_size::OffsetSizeTrait;
use layout::bits::count_zeros;
use ledger::stop::{Reason, Stop};
use slots::null_buffer::NullBuffer;

pub mod rows;

use rows::Rows;

// Makes bit k from a place on `value`; nothing changes where it does not lie in the body.
pub fn put_bit(body: &mut [u8], place: u64, k: u64, value: bool)
    ensures { body.new ≡ bit_put body.old place k value }
{
    let at = place as u128 + (k / 8) as u128;
    if at < body.len() as u128 {
        set_bit(body, at as usize, (k % 8) as u32, value);
    }
}

fn set_bit(body: &mut [u8], at: usize, j: u32, value: bool)
    requires { (at < length body.old) × (j < 8) }
    ensures { body.new ≡ slice_set body.old at (with_bit (slice_index body.old at) j value) }
{
    let bit = 1u8 << j;
    body[at] = if value {
        body[at] | bit
    } else {
        body[at] & (255 - bit)
    };
}

// Writes an offset as word k from a place on; nothing changes where it does not lie in the body.
pub fn put_offset<O: OffsetSizeTrait>(body: &mut [u8], place: u64, k: u64, offset: u64)
    ensures { body.new ≡ offset_put O.WIDTH body.old place k offset }
{
    let _ = O::write_nth(body, place, k, offset);
}

// The marks of a handle on the first n bits from a place on: none where all of them are 1.
pub fn nulls_at(body: &[u8], place: u64, n: u64) -> Option<NullBuffer>
    ensures { 8 * place + n ≤ 8 * length body.now → result ≡ nulls_at body.now place n }
{
    let zeros = count_zeros(body, place as u128 * 8, n)?;
    if zeros == 0 {
        return None;
    }
    Some(NullBuffer { place, len: n })
}

// Stops where n rows more have no place; none need none.
pub fn check_places(rows: Rows, n: u64) -> Result<(), Stop>
    ensures { result ≡ room_reply rows.count rows.room n }
{
    if n != 0 && (n > rows.room || rows.count > rows.room - n) {
        return Err(Reason::NoPlaceLeft.into());
    }
    Ok(())
}
