#![tactic(auto)]

ghost use Rattle.std.specs.Prelude.{◌≡◌, ℕ, ◌+◌, ◌*◌, ◌<◌, ◌≤◌, true, false, [], length, nat_abs, if◌then◌else◌, Ok, MatchResult};
ghost use Rattle.history.specs.Calls.{TrialLeads, StopLeads};
ghost use Rattle.ledger.specs.Ledger.{Kept};
ghost use Rattle.layout.specs.Spans.{in_body};
ghost use Rattle.slots.specs.Slots.{slot_mark, slot_spans};
ghost use Rattle.slots.specs.Trials.{and_then, marks_bytes_end};
ghost use Rattle.fixed_size_list_trial.specs.Trial.{mark_count, shape_reply, BothInside, absent_in, absent_under, under_reply, slots_made, shaped_list_trial, fixed_list_trial};

use array::array::Array;
use checks::{check_form, check_own};
use fixed_size_list_array::fixed_size_list_array::FixedSizeListArray;
use form::data_type::Field;
use ledger::ledger::Ledger;
use ledger::stop::{Reason, Stop};
use slots::null_buffer::NullBuffer;
use slots::slots::Slots;
use slots::trials::check_marks;

// A fixed list over a child: marks in the loaded bytes, and the child anywhere.
pub fn try_new<C: Array + Copy>(
    ledger: &Ledger,
    body: &[u8],
    field: Field,
    size: i32,
    nulls: Option<NullBuffer>,
    child: C,
) -> Result<FixedSizeListArray<C>, Stop>
    ensures answers { result ≡ fixed_list_trial C.Array ledger.now body.now field size nulls child }
    ensures leads { MatchResult result (λ h. TrialLeads body.now ledger.now.loaded (C.Array.spans child) (⟦<FixedSizeListArray<C> as Array>⟧.seen h)) (λ _. StopLeads) }
    ensures keeps { Kept ledger.now }
{
    check_own(ledger, body, 0, nulls, &child)?;
    let size = u32::try_from(size).map_err(|_| Reason::BelowZero)?;
    shaped(body, field, size, nulls, child)
}

// The tests after the size's own; marks and child lie in the body.
fn shaped<C: Array + Copy>(
    body: &[u8],
    field: Field,
    size: u32,
    nulls: Option<NullBuffer>,
    child: C,
) -> Result<FixedSizeListArray<C>, Stop>
    requires { (marks_bytes_end nulls ≤ length body.now) × (in_body (C.Array.spans child) body.now ≡ true) }
    ensures { result ≡ shaped_list_trial C.Array body.now field size nulls child }
{
    let slots = fixed_slots(size, child.len(), nulls)?;
    check_form(field.form, child.data_type())?;
    check_under(body, slots, size, field.nullable, &child)?;
    let _ = child.data_type().fixed(size)?;
    Ok(FixedSizeListArray {
        slots,
        size,
        field,
        child,
    })
}

fn mark_count(nulls: Option<NullBuffer>) -> u64
    ensures { result ≡ mark_count nulls }
{
    let Some(m) = nulls else {
        return 0;
    };
    m.len
}

// The slots of a size over so many entries.
fn fixed_slots(size: u32, entries: u64, nulls: Option<NullBuffer>) -> Result<Slots, Stop>
    ensures { result ≡ and_then (shape_reply size entries nulls) (Ok (slots_made size entries nulls)) }
{
    let len = if size == 0 {
        mark_count(nulls)
    } else {
        entries / size as u64
    };
    let slots = Slots::new(len, nulls)?;
    if len as u128 * size as u128 != entries as u128 {
        return Err(Reason::ChildLengthDiffers.into());
    }
    check_marks(nulls, len)?;
    Ok(slots)
}

// Whether slot i is present; its mark lies in the body.
fn present_at(body: &[u8], slots: Slots, i: u64) -> bool
    requires { (i < slots.len) × (in_body (slot_spans slots) body.now ≡ true) }
    ensures { result ≡ slot_mark slots body.now i }
{
    slots.is_valid(body, i).unwrap_or(true)
}

// Whether one of the n entries from an entry on is absent; the child lies in the body.
fn absent_in<C: Array + Copy>(body: &[u8], child: &C, from: u64, n: u64) -> bool
    requires { (from + n ≤ C.Array.size child.now) × (in_body (C.Array.spans child.now) body.now ≡ true) }
    ensures { result ≡ absent_in (C.Array.entry child.now body.now) from n }
{
    let Ok(part) = child.slice(from, n) else {
        return false;
    };
    let Ok(absent) = part.logical_null_count(body) else {
        return false;
    };
    absent != 0
}

// Whether slot i is present and one of its entries absent.
fn absent_at<C: Array + Copy>(body: &[u8], slots: Slots, size: u32, child: &C, i: u64) -> bool
    requires { ((i < slots.len) × (i * size + size ≤ C.Array.size child.now)) × (BothInside slots (C.Array.spans child.now) body.now) }
    ensures { result ≡ (if slot_mark slots body.now i then (absent_in (C.Array.entry child.now body.now) (i * size) size) else false) }
{
    present_at(body, slots, i) && absent_in(body, child, i * size as u64, size as u64)
}

// Whether an entry is absent under a present slot.
fn absent_under<C: Array + Copy>(body: &[u8], slots: Slots, size: u32, child: &C) -> bool
    requires { (slots.len * size ≤ C.Array.size child.now) × (BothInside slots (C.Array.spans child.now) body.now) }
    ensures { result ≡ absent_under (slot_mark slots body.now) (C.Array.entry child.now body.now) size slots.len }
{
    (0..slots.len).any(|i| absent_at(body, slots, size, child, i))
}

// Stops where the field is not nullable and an entry is absent under a present slot.
fn check_under<C: Array + Copy>(
    body: &[u8],
    slots: Slots,
    size: u32,
    nullable: bool,
    child: &C,
) -> Result<(), Stop>
    requires { (slots.len * size ≤ C.Array.size child.now) × (BothInside slots (C.Array.spans child.now) body.now) }
    ensures { result ≡ under_reply nullable (absent_under (slot_mark slots body.now) (C.Array.entry child.now body.now) size slots.len) }
{
    if !nullable && absent_under(body, slots, size, child) {
        return Err(Reason::EntryAbsent.into());
    }
    Ok(())
}
