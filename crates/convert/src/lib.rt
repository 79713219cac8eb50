#![tactic(auto)]

ghost use Rattle.std.specs.Prelude.{◌≡◌, ℕ, ◌+◌, ◌*◌, ◌<◌, ◌≤◌, true, length, if◌then◌else◌, Ok, MatchResult};
ghost use Rattle.layout.specs.Spans.{Within, in_body};
ghost use Rattle.ledger.specs.Ledger.{Kept};
ghost use Rattle.slots.specs.Trials.{and_then};
ghost use Rattle.history.specs.Calls.{TurnLeads, StopLeads};
ghost use Rattle.convert.specs.Writing.{ranges_of, views_put, views_fit, fresh_slots, ViewsShow};
ghost use Rattle.convert.specs.Turning.{all_ok, offset_spans, starts_small, made, list_ranges, fixed_ranges, list_tests, fixed_list_tests, places, ledger_after, body_after, view_made};

use array::array::{Array, ListLikeArray};
use array::offset_size::OffsetSizeTrait;
use fixed_size_list_array::fixed_size_list_array::FixedSizeListArray;
use form::data_type::Field;
use layout::words::words_fit;
use ledger::ledger::Ledger;
use ledger::stop::{Reason, Stop};
use list_array::list_array::GenericListArray;
use list_view_array::list_view_array::GenericListViewArray;
use slots::slots::Slots;
use std::marker::PhantomData;

// Writes start and size of every slot's range, lowest byte first; false, and nothing written, where their words do not lie
// in the body.
pub fn write_views<O: OffsetSizeTrait, L: ListLikeArray>(
    body: &mut [u8],
    a: &L,
    starts: u64,
    sizes: u64,
) -> bool
    ensures fits { result ≡ views_fit O.WIDTH starts sizes (L.Array.size a.now) body.old }
    ensures leaves { body.new ≡ (if result then views_put O.WIDTH (ranges_of L.Array L.ListLikeArray.own a.now) starts sizes body.old (L.Array.size a.now) else body.old) }
    ensures shows { result ≡ true → ViewsShow O.WIDTH (L.Array.size a.now) (L.ListLikeArray.range_need a.now) (L.ListLikeArray.range a.now) starts sizes body.old body.new }
{
    let n = a.len();
    if !words_fit::<O>(body, starts, n) || !words_fit::<O>(body, sizes, n) {
        return false;
    }
    put_views::<O, L>(body, a, starts, sizes, n);
    true
}

fn put_views<O: OffsetSizeTrait, L: ListLikeArray>(
    body: &mut [u8],
    a: &L,
    starts: u64,
    sizes: u64,
    n: u64,
)
    requires { (starts + O.WIDTH * n ≤ length body.old) × (sizes + O.WIDTH * n ≤ length body.old) }
    ensures { body.new ≡ views_put O.WIDTH (ranges_of L.Array L.ListLikeArray.own a.now) starts sizes body.old n }
{
    for i in 0..n {
        let (from, to) = a.element_range(body, i).unwrap_or((0, 0));
        let _ = O::write(body, starts + O::WIDTH * i, from);
        let _ = O::write(body, sizes + O::WIDTH * i, to.saturating_sub(from));
    }
}

// Whether every slot has a range.
fn all_ranges<L: ListLikeArray>(body: &[u8], a: &L) -> bool
    ensures { result ≡ all_ok (ranges_of L.Array L.ListLikeArray.own a.now body.now) (L.Array.size a.now) }
{
    (0..a.len()).all(|i| a.element_range(body, i).is_ok())
}

// Whether the offsets of all slots lie in the body.
fn offsets_in<O: OffsetSizeTrait, C: Array + Copy>(body: &[u8], a: &GenericListArray<O, C>) -> bool
    ensures { result ≡ in_body (offset_spans O.WIDTH a.now.place a.now.slots) body.now }
{
    let len = a.slots.len;
    len == 0 || words_fit::<O>(body, a.place, a.slots.first + len + 1)
}

// The tests of a conversion of a list to a view.
fn check_turn<O: OffsetSizeTrait, C: Array + Copy>(
    ledger: &Ledger,
    body: &[u8],
    a: &GenericListArray<O, C>,
) -> Result<(), Stop>
    ensures answers { result ≡ list_tests O.WIDTH C.Array ledger.now body.now a.now }
    ensures keeps { Kept ledger.now }
{
    if body.len() as u64 != ledger.length() {
        return Err(Reason::BodyLengthDiffers.into());
    }
    if !offsets_in(body, a) {
        return Err(Reason::BeyondBytes.into());
    }
    let absent = if a.field.nullable {
        0
    } else {
        a.child.logical_null_count(body)?
    };
    if !all_ranges(body, a) {
        return Err(Reason::NoRange.into());
    }
    if absent != 0 {
        return Err(Reason::EntryAbsent.into());
    }
    Ok(())
}

// Whether starts and sizes of a fixed list are offsets of the kind.
fn starts_small<O: OffsetSizeTrait>(size: u32, len: u64) -> bool
    ensures { result ≡ starts_small O.WIDTH size len }
{
    let largest = O::max_offset() as u128;
    len == 0 || (len - 1) as u128 * size as u128 <= largest && size as u128 <= largest
}

// The tests of a conversion of a fixed list to a view.
fn check_fixed<O: OffsetSizeTrait, C: Array + Copy>(
    ledger: &Ledger,
    body: &[u8],
    a: &FixedSizeListArray<C>,
) -> Result<(), Stop>
    ensures answers { result ≡ fixed_list_tests O.WIDTH C.Array ledger.now body.now a.now }
    ensures keeps { Kept ledger.now }
{
    if body.len() as u64 != ledger.length() {
        return Err(Reason::BodyLengthDiffers.into());
    }
    if !all_ranges(body, a) {
        return Err(Reason::NoRange.into());
    }
    if !starts_small::<O>(a.size, a.slots.len) {
        return Err(Reason::TooLarge.into());
    }
    Ok(())
}

// The slots of a conversion.
fn fresh(slots: Slots) -> Slots
    ensures { result ≡ fresh_slots slots }
{
    Slots {
        first: 0,
        len: slots.len,
        marks: slots.marks,
    }
}

// Two places, and the words of every slot's range written there: a view with these marks, this field and this child.
fn viewed<O: OffsetSizeTrait, L: ListLikeArray, C: Drop>(
    ledger: &mut Ledger,
    body: &mut [u8],
    a: &L,
    slots: Slots,
    field: Field,
    child: C,
) -> Result<GenericListViewArray<O, C>, Stop>
    ensures answers { result ≡ made (view_made slots field child) (places O.WIDTH ledger.old (L.Array.size a.now)) }
    ensures account { ledger.new ≡ ledger_after O.WIDTH ledger.old (L.Array.size a.now) result }
    ensures leaves { length body.old ≡ ledger.old.length → body.new ≡ body_after O.WIDTH ledger.old (ranges_of L.Array L.ListLikeArray.own a.now) body.old (L.Array.size a.now) result }
    ensures kept { Kept ledger.old }
    ensures keeps { Kept ledger.new }
{
    let bytes = O::width() as u128 * a.len() as u128;
    let (starts, sizes) = ledger.reserve_two(bytes, bytes)?;
    let _ = write_views::<O, L>(body, a, starts, sizes);
    Ok(GenericListViewArray {
        starts,
        sizes,
        slots: fresh(slots),
        field,
        child,
        kind: PhantomData,
    })
}

// A view of a list: fresh starts and sizes, the same marks, child and field. From any moment that has the list, and in which
// the bits that it rests on are given out, it leads to one that has the view as well, with the same cuts behind it.
pub fn list_to_view<O: OffsetSizeTrait, C: Array + Copy>(
    ledger: &mut Ledger,
    body: &mut [u8],
    a: &GenericListArray<O, C>,
) -> Result<GenericListViewArray<O, C>, Stop>
    ensures answers { result ≡ made (view_made a.now.slots a.now.field a.now.child) (and_then (list_tests O.WIDTH C.Array ledger.old body.old a.now) (places O.WIDTH ledger.old a.now.slots.len)) }
    ensures account { ledger.new ≡ ledger_after O.WIDTH ledger.old a.now.slots.len result }
    ensures leaves { body.new ≡ body_after O.WIDTH ledger.old (list_ranges O.WIDTH (C.Array.size a.now.child) a.now) body.old a.now.slots.len result }
    ensures leads { MatchResult result (λ h. ((k : ℕ) → Within (⟦<GenericListArray<O, C> as Array>⟧.seen a.now).rests k → k < 8 * ledger.old.end) → TurnLeads (⟦<GenericListArray<O, C> as Array>⟧.seen a.now) ledger.old.end body.old (⟦<GenericListViewArray<O, C> as Array>⟧.seen h) ledger.new.end body.new) (λ _. StopLeads) }
    ensures kept { Kept ledger.old }
    ensures keeps { Kept ledger.new }
{
    check_turn(ledger, body, a)?;
    viewed(ledger, body, a, a.slots, a.field, a.child)
}

// A view of a fixed list: start i is i × size, every size the fixed size; the same marks, child and field.
pub fn fixed_to_view<O: OffsetSizeTrait, C: Array + Copy>(
    ledger: &mut Ledger,
    body: &mut [u8],
    a: &FixedSizeListArray<C>,
) -> Result<GenericListViewArray<O, C>, Stop>
    ensures answers { result ≡ made (view_made a.now.slots a.now.field a.now.child) (and_then (fixed_list_tests O.WIDTH C.Array ledger.old body.old a.now) (places O.WIDTH ledger.old a.now.slots.len)) }
    ensures account { ledger.new ≡ ledger_after O.WIDTH ledger.old a.now.slots.len result }
    ensures leaves { body.new ≡ body_after O.WIDTH ledger.old (fixed_ranges (C.Array.size a.now.child) a.now) body.old a.now.slots.len result }
    ensures leads { MatchResult result (λ h. ((k : ℕ) → Within (⟦<FixedSizeListArray<C> as Array>⟧.seen a.now).rests k → k < 8 * ledger.old.end) → TurnLeads (⟦<FixedSizeListArray<C> as Array>⟧.seen a.now) ledger.old.end body.old (⟦<GenericListViewArray<O, C> as Array>⟧.seen h) ledger.new.end body.new) (λ _. StopLeads) }
    ensures kept { Kept ledger.old }
    ensures keeps { Kept ledger.new }
{
    check_fixed::<O, C>(ledger, body, a)?;
    viewed(ledger, body, a, a.slots, a.field, a.child)
}
