#![tactic(auto)]

ghost use Rattle.std.specs.Prelude.{◌≡◌, ℕ, ◌+◌, ◌*◌, ◌<◌, ◌≤◌, length, Ok, Err, MatchResult};
ghost use Rattle.history.specs.Calls.{TrialLeads, StopLeads};
ghost use Rattle.ledger.specs.Ledger.{Kept};
ghost use Rattle.checks.specs.Checks.{absents};
ghost use Rattle.list_view_trial.specs.Trial.{view_end, end_reply, ends_reply, sizes_reply, view_own, list_view_trial};

use array::array::Array;
use array::offset_size::OffsetSizeTrait;
use checks::{check_field, check_own};
use form::data_type::Field;
use ledger::ledger::Ledger;
use ledger::stop::{Reason, Stop};
use list_view_array::list_view_array::GenericListViewArray;
use scalar_buffer::ScalarBuffer;
use slots::null_buffer::NullBuffer;
use slots::slots::Slots;
use slots::trials::{check_marks, words_end};
use std::marker::PhantomData;

pub mod scalar_buffer;

// A view over a child: starts and sizes in the loaded bytes, and the child anywhere.
pub fn try_new<O: OffsetSizeTrait, C: Array + Copy>(
    ledger: &Ledger,
    body: &[u8],
    field: Field,
    starts: ScalarBuffer,
    sizes: ScalarBuffer,
    nulls: Option<NullBuffer>,
    child: C,
) -> Result<GenericListViewArray<O, C>, Stop>
    ensures answers { result ≡ list_view_trial O.WIDTH C.Array ledger.now body.now field starts sizes nulls child (Ok (absents (C.Array.size child) (C.Array.entry child body.now))) }
    ensures leads { MatchResult result (λ h. TrialLeads body.now ledger.now.loaded (C.Array.spans child) (⟦<GenericListViewArray<O, C> as Array>⟧.seen h)) (λ _. StopLeads) }
    ensures keeps { Kept ledger.now }
{
    check_own(
        ledger,
        body,
        view_own(O::width(), starts, sizes),
        nulls,
        &child,
    )?;
    check_marks(nulls, starts.len)?;
    check_sizes(starts.len, sizes.len)?;
    check_views::<O>(body, starts.place, sizes.place, starts.len, child.len())?;
    check_field(body, field, &child, O::view_digit())?;
    let slots = Slots::new(starts.len, nulls)?;
    Ok(GenericListViewArray {
        starts: starts.place,
        sizes: sizes.place,
        slots,
        field,
        child,
        kind: PhantomData,
    })
}

// Where the words of both end.
fn view_own(width: u64, starts: ScalarBuffer, sizes: ScalarBuffer) -> u128
    ensures { result ≡ view_own width starts sizes }
{
    let a = words_end(width, starts.place, starts.len);
    let b = words_end(width, sizes.place, sizes.len);
    a.max(b)
}

fn check_sizes(starts: u64, sizes: u64) -> Result<(), Stop>
    ensures { result ≡ sizes_reply starts sizes }
{
    if sizes != starts {
        return Err(Reason::SizeCountDiffers.into());
    }
    Ok(())
}

// Where slot k ends.
fn view_end<O: OffsetSizeTrait>(body: &[u8], starts: u64, sizes: u64, k: u64) -> u128
    requires { (starts + O.WIDTH * k + O.WIDTH ≤ length body.now) × (sizes + O.WIDTH * k + O.WIDTH ≤ length body.now) }
    ensures { result ≡ view_end O.WIDTH starts sizes body.now k }
{
    let start = O::read(body, starts + O::WIDTH * k).unwrap_or(0);
    let count = O::read(body, sizes + O::WIDTH * k).unwrap_or(0);
    start.cast_unsigned() as u128 + count.cast_unsigned() as u128
}

fn check_end(size: u64, end: u128) -> Result<(), Stop>
    ensures { result ≡ end_reply size end }
{
    if end > u64::MAX as u128 {
        return Err(Reason::RangeOverflows.into());
    }
    if end > size as u128 {
        return Err(Reason::BeyondChild.into());
    }
    Ok(())
}

// The slots, one by one.
fn check_views<O: OffsetSizeTrait>(
    body: &[u8],
    starts: u64,
    sizes: u64,
    n: u64,
    size: u64,
) -> Result<(), Stop>
    requires { (k : ℕ) → k < n → (starts + O.WIDTH * k + O.WIDTH ≤ length body.now) × (sizes + O.WIDTH * k + O.WIDTH ≤ length body.now) }
    ensures { result ≡ ends_reply size (view_end O.WIDTH starts sizes body.now) n }
{
    (0..n).try_for_each(|k| check_end(size, view_end::<O>(body, starts, sizes, k)))
}
