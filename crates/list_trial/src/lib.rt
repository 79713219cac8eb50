#![tactic(auto)]

ghost use Rattle.std.specs.Prelude.{◌≡◌, ℕ, ◌+◌, ◌-◌, ◌*◌, ◌<◌, ◌≤◌, length, Ok, Err, MatchResult};
ghost use Rattle.history.specs.Calls.{TrialLeads, StopLeads};
ghost use Rattle.ledger.specs.Ledger.{Kept};
ghost use Rattle.checks.specs.Checks.{absents};
ghost use Rattle.list_array.specs.Offsets.{offset_of};
ghost use Rattle.list_trial.specs.Trial.{last_reply, offsets_reply, list_trial};

use array::array::Array;
use array::offset_size::OffsetSizeTrait;
use checks::{check_field, check_own};
use form::data_type::Field;
use ledger::ledger::Ledger;
use ledger::stop::{Reason, Stop};
use list_array::list_array::GenericListArray;
use slots::null_buffer::NullBuffer;
use slots::slots::Slots;
use slots::trials::{check_marks, words_end};
use std::marker::PhantomData;

// An offset list over a child: `count` offsets from the byte `place` on, in the loaded bytes, and the child anywhere.
pub fn try_new<O: OffsetSizeTrait, C: Array + Copy>(
    ledger: &Ledger,
    body: &[u8],
    field: Field,
    place: u64,
    count: u64,
    nulls: Option<NullBuffer>,
    child: C,
) -> Result<GenericListArray<O, C>, Stop>
    ensures answers { result ≡ list_trial O.WIDTH C.Array ledger.now body.now field place count nulls child (Ok (absents (C.Array.size child) (C.Array.entry child body.now))) }
    ensures leads { MatchResult result (λ h. TrialLeads body.now ledger.now.loaded (C.Array.spans child) (⟦<GenericListArray<O, C> as Array>⟧.seen h)) (λ _. StopLeads) }
    ensures keeps { Kept ledger.now }
{
    check_own(
        ledger,
        body,
        words_end(O::width(), place, count),
        nulls,
        &child,
    )?;
    check_offsets::<O>(body, place, count, child.len())?;
    check_marks(nulls, count - 1)?;
    check_field(body, field, &child, O::list_digit())?;
    let slots = Slots::new(count - 1, nulls)?;
    Ok(GenericListArray {
        place,
        slots,
        field,
        child,
        kind: PhantomData,
    })
}

// Offset number k after a place, which lies in the body.
fn offset_in<O: OffsetSizeTrait>(body: &[u8], place: u64, k: u64) -> i64
    requires { place + O.WIDTH * (k + 1) ≤ length body.now }
    ensures { result ≡ offset_of O.WIDTH place body.now k }
{
    O::read(body, place + O::WIDTH * k).unwrap_or(0)
}

// The last of the offsets, where none is below the one before; they lie in the body.
fn last_offset<O: OffsetSizeTrait>(body: &[u8], place: u64, count: u64) -> Result<i64, Stop>
    requires { (0 < count) × (place + O.WIDTH * count ≤ length body.now) }
    ensures { result ≡ last_reply (offset_of O.WIDTH place body.now) (count - 1) }
{
    let mut last = offset_in::<O>(body, place, 0);
    for k in 1..count {
        let next = offset_in::<O>(body, place, k);
        if next < last {
            return Err(Reason::OffsetFalls.into());
        }
        last = next;
    }
    Ok(last)
}

// The offsets' own tests.
fn check_offsets<O: OffsetSizeTrait>(
    body: &[u8],
    place: u64,
    count: u64,
    size: u64,
) -> Result<(), Stop>
    requires { 0 < count → place + O.WIDTH * count ≤ length body.now }
    ensures { result ≡ offsets_reply (offset_of O.WIDTH place body.now) count size }
{
    if count == 0 {
        return Err(Reason::NoOffsets.into());
    }
    if offset_in::<O>(body, place, 0) < 0 {
        return Err(Reason::BelowZero.into());
    }
    if last_offset::<O>(body, place, count)? as i128 > size as i128 {
        return Err(Reason::BeyondChild.into());
    }
    Ok(())
}
