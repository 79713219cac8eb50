#![tactic(auto)]

ghost use Rattle.std.specs.Prelude.{◌≡◌, ℕ, ◌+◌, ◌*◌, ◌≤◌, [], pos, Some, MatchResult, refl};
ghost use Rattle.std.proofs.Common.{ap, rules};
ghost use Rattle.history.specs.Entry.Entry.{number};
ghost use Rattle.history.specs.Calls.{TrialLeads, StopLeads};
ghost use Rattle.form.specs.Forms.{leaf_form};
ghost use Rattle.ledger.specs.Ledger.{Kept};
ghost use Rattle.layout.specs.Words.{word_at};
ghost use Rattle.slots.specs.Slots.{slot_mark, slot_need, slots_cut};
ghost use Rattle.slots.specs.Trials.{with_slots};
ghost use Rattle.primitive_array.specs.Numbers.{number_place, number_need, number_entry, number_spans, number_seen, number_reply};
ghost use Rattle.layout.proofs.NeedLaws.{mark_needed, needed_into};
ghost use Rattle.slots.proofs.Leaves.{absence_needed, slots_mark};
ghost use Rattle.primitive_array.specs.NumberLaws.{number_mark_alike, number_alike, number_cut, number_within};
ghost use Rattle.layout.proofs.WordNeeds.{word_needed};
ghost use Rattle.primitive_array.specs.PrimitiveArrayAccessorLemmas.{apart};

use array::array::{Array, ArrayAccessor};
use form::data_type::DataType;
use layout::bits::marks_fit;
use layout::words::words_fit;
use ledger::ledger::Ledger;
use ledger::stop::{Reason, Stop};
use primitive_array::PrimitiveArray;
use slots::null_buffer::NullBuffer;
use slots::trials::{try_slots, words_end};
use std::marker::PhantomData;
use types::{ArrowPrimitiveType, Int32Type, Int64Type, UInt16Type};

pub mod primitive_array;
pub mod types;

// The number leaves by their kinds.
pub type UInt16Array = PrimitiveArray<UInt16Type>;

pub type Int32Array = PrimitiveArray<Int32Type>;

pub type Int64Array = PrimitiveArray<Int64Type>;

// A number leaf of so many slots on the loaded bytes.
pub fn try_new<T: ArrowPrimitiveType>(
    ledger: &Ledger,
    body: &[u8],
    place: u64,
    len: u64,
    nulls: Option<NullBuffer>,
) -> Result<PrimitiveArray<T>, Stop>
    ensures answers { result ≡ with_slots (λ s. record { place = place; slots = s; kind = record {} }) (number_reply T.ArrowPrimitiveType.width ledger.now body.now place len nulls) }
    ensures leads { MatchResult result (λ h. TrialLeads body.now ledger.now.loaded [] (number_seen T.ArrowPrimitiveType.width T.ArrowPrimitiveType.whole h.place h.slots)) (λ _. StopLeads) }
    ensures keeps { Kept ledger.now }
{
    let slots = try_slots(ledger, body, words_end(T::width(), place, len), len, nulls)?;
    Ok(PrimitiveArray {
        place,
        slots,
        kind: PhantomData,
    })
}

impl<T: ArrowPrimitiveType> Array for PrimitiveArray<T> {
    ghost size = { λ a. a.slots.len };

    ghost form = { λ a. leaf_form T.ArrowPrimitiveType.DIGIT };

    ghost mark = { λ a. slot_mark a.slots };

    ghost mark_need = { λ a. slot_need a.slots };

    ghost entry = { λ a. number_entry T.ArrowPrimitiveType.width T.ArrowPrimitiveType.whole a.place a.slots };

    ghost absent_need = { λ a. slot_need a.slots };

    ghost shown = { λ a. number_entry T.ArrowPrimitiveType.width T.ArrowPrimitiveType.whole a.place a.slots };

    ghost spans = { λ a. number_spans T.ArrowPrimitiveType.width a.place a.slots };

    ghost cut = { λ a s n. record { place = a.place; slots = slots_cut a.slots s n; kind = a.kind } };

    ghost seen = { λ a. number_seen T.ArrowPrimitiveType.width T.ArrowPrimitiveType.whole a.place a.slots };

    ghost sight = { Prim.search rules };

    ghost limit = { Prim.search rules };

    ghost null_absent = { Prim.search rules };

    ghost shown_entry = { Prim.search rules };

    ghost mark_needs = { λ a i l. mark_needed a.slots.marks i };

    ghost absent_needs = { λ a i l. absence_needed a.slots i (λ b. number (T.ArrowPrimitiveType.whole (word_at b (number_place T.ArrowPrimitiveType.width a.place a.slots i) T.ArrowPrimitiveType.width))) (λ b. refl) };

    ghost mark_alike = { λ a. number_mark_alike T.ArrowPrimitiveType.width T.ArrowPrimitiveType.whole a.place a.slots };

    ghost entry_alike = { λ a. number_alike T.ArrowPrimitiveType.width T.ArrowPrimitiveType.whole a.place a.slots };

    ghost shown_alike = { λ a. number_alike T.ArrowPrimitiveType.width T.ArrowPrimitiveType.whole a.place a.slots };

    ghost cut_size = { Prim.search rules };

    ghost cut_form = { Prim.search rules };

    ghost cut_mark = { λ a s n l b i h. slots_mark a.slots s n l b i };

    ghost cut_entry = { λ a s n l b i h. number_cut T.ArrowPrimitiveType.width T.ArrowPrimitiveType.whole a.place a.slots s n l b i };

    ghost cut_shown = { λ a s n l b i h. number_cut T.ArrowPrimitiveType.width T.ArrowPrimitiveType.whole a.place a.slots s n l b i };

    ghost cut_spans = { λ a s n l. number_within T.ArrowPrimitiveType.width T.ArrowPrimitiveType.whole a.place a.slots s n l };

    fn len(&self) -> u64 {
        self.slots.len
    }

    fn data_type(&self) -> DataType {
        T::data_type()
    }

    fn is_null(&self, body: &[u8], i: u64) -> Result<bool, Stop> {
        self.slots.is_null(body, i)
    }

    fn null_count(&self, body: &[u8]) -> Result<u64, Stop> {
        self.slots.null_count(body)
    }

    fn logical_null_count(&self, body: &[u8]) -> Result<u64, Stop> {
        self.null_count(body)
    }

    fn slice(&self, start: u64, n: u64) -> Result<Self, Stop> {
        let slots = self.slots.cut(start, n)?;
        Ok(PrimitiveArray {
            place: self.place,
            slots,
            kind: PhantomData,
        })
    }

    fn fits(&self, body: &[u8]) -> bool {
        let len = self.slots.len;
        (len == 0 || words_fit::<T::Native>(body, self.place, self.slots.first + len))
            && marks_fit(self.slots.marks, body, len)
    }
}

impl<T: ArrowPrimitiveType> ArrayAccessor for PrimitiveArray<T> {
    type Item = i64;

    ghost item = { λ a b i. Some (T.ArrowPrimitiveType.whole (word_at b (number_place T.ArrowPrimitiveType.width a.place a.slots i) T.ArrowPrimitiveType.width)) };

    ghost source = { λ a b i. Some (T.ArrowPrimitiveType.whole (word_at b (number_place T.ArrowPrimitiveType.width a.place a.slots i) T.ArrowPrimitiveType.width), pos 0) };

    ghost item_need = { λ a. number_need T.ArrowPrimitiveType.width a.place a.slots };

    ghost told = { λ v b. number v };

    ghost item_needs = { λ a i l.
        let w = T.ArrowPrimitiveType.width in
        let p = number_place w a.place a.slots i in
        needed_into (number_need w a.place a.slots i) (λ b. T.ArrowPrimitiveType.whole (word_at b p w)) (λ z. Some (z, pos 0)) apart
        (word_needed T.ArrowPrimitiveType.whole T.ArrowPrimitiveType.zero_alone p w) };

    ghost item_from = { λ a b c i l e. ap Some (apart _ _ e) };

    ghost item_told = { Prim.search rules };

    fn value(&self, body: &[u8], i: u64) -> Result<i64, Stop> {
        if i >= self.slots.len {
            return Err(Reason::IndexPastEnd.into());
        }
        let Some(v) = T::read_nth(body, self.place, self.slots.first + i) else {
            return Err(Reason::BeyondBytes.into());
        };
        Ok(v)
    }
}
