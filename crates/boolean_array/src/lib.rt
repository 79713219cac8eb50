#![tactic(auto)]

ghost use Rattle.std.specs.Prelude.{◌≡◌, [], Some, MatchResult, refl};
ghost use Rattle.layout.specs.Bits.{bit_set};
ghost use Rattle.history.specs.Calls.{TrialLeads, StopLeads};
ghost use Rattle.form.specs.Forms.{leaf_form};
ghost use Rattle.ledger.specs.Ledger.{Kept};
ghost use Rattle.slots.specs.Slots.{slot_mark, slot_need};
ghost use Rattle.boolean_array.specs.Booleans.{bool_bit, bool_number, bool_source, bool_entry, bool_need, bool_spans, bool_cut, bool_seen, bool_reply};
ghost use Rattle.layout.proofs.NeedLaws.{mark_needed, bit_needed, needed_into};
ghost use Rattle.slots.proofs.Leaves.{absence_needed};
ghost use Rattle.std.proofs.Common.{rules};
ghost use Rattle.boolean_array.specs.BooleanArrayAccessorLemmas.{apart};

use array::array::{Array, ArrayAccessor};
use boolean_array::BooleanArray;
use form::data_type::{DataType, Leaf};
use layout::bits::{bit, marks_fit};
use ledger::ledger::Ledger;
use ledger::stop::{Reason, Stop};
use slots::null_buffer::NullBuffer;
use slots::trials::{bit_bytes, bytes_end, try_slots};

pub mod boolean_array;

impl BooleanArray {
    // A boolean leaf of so many slots on the loaded bytes.
    pub fn try_new(
        ledger: &Ledger,
        body: &[u8],
        place: u64,
        len: u64,
        nulls: Option<NullBuffer>,
    ) -> Result<BooleanArray, Stop>
        ensures answers { result ≡ bool_reply ledger.now body.now place len nulls }
        ensures leads { MatchResult result (λ h. TrialLeads body.now ledger.now.loaded [] (bool_seen h)) (λ _. StopLeads) }
        ensures keeps { Kept ledger.now }
    {
        let own = bytes_end(place, bit_bytes(len));
        let slots = try_slots(ledger, body, own, len, nulls)?;
        Ok(BooleanArray { place, slots })
    }

    // The number of the bit of slot i's value.
    fn bit_number(&self, i: u64) -> u128
        ensures { result ≡ bool_bit self.now i }
    {
        self.place as u128 * 8 + self.slots.first as u128 + i as u128
    }
}

impl Array for BooleanArray {
    ghost size = { λ a. a.slots.len };

    ghost form = { λ a. leaf_form 2 };

    ghost mark = { λ a. slot_mark a.slots };

    ghost mark_need = { λ a. slot_need a.slots };

    ghost entry = { bool_entry };

    ghost absent_need = { λ a. slot_need a.slots };

    ghost shown = { bool_entry };

    ghost spans = { bool_spans };

    ghost cut = { bool_cut };

    ghost seen = { bool_seen };

    ghost sight = { Prim.search rules };

    ghost limit = { Prim.search rules };

    ghost null_absent = { Prim.search rules };

    ghost shown_entry = { Prim.search rules };

    ghost mark_needs = { λ a i l. mark_needed a.slots.marks i };

    ghost absent_needs = { λ a i l. absence_needed a.slots i (λ b. bool_number (bit_set b (bool_bit a i))) (λ b. refl) };

    ghost mark_alike = { Prim.search rules };

    ghost entry_alike = { Prim.search rules };

    ghost shown_alike = { Prim.search rules };

    ghost cut_size = { Prim.search rules };

    ghost cut_form = { Prim.search rules };

    ghost cut_mark = { Prim.search rules };

    ghost cut_entry = { Prim.search rules };

    ghost cut_shown = { Prim.search rules };

    ghost cut_spans = { Prim.search rules };

    fn len(&self) -> u64 {
        self.slots.len
    }

    fn data_type(&self) -> DataType {
        Leaf::Boolean.into()
    }

    fn is_null(&self, body: &[u8], i: u64) -> Result<bool, Stop> {
        self.slots.is_null(body, i)
    }

    fn null_count(&self, body: &[u8]) -> Result<u64, Stop> {
        self.slots.null_count(body)
    }

    fn logical_null_count(&self, body: &[u8]) -> Result<u64, Stop> {
        self.null_count(body)
    }

    fn slice(&self, start: u64, n: u64) -> Result<Self, Stop> {
        let slots = self.slots.cut(start, n)?;
        Ok(BooleanArray {
            place: self.place,
            slots,
        })
    }

    fn fits(&self, body: &[u8]) -> bool {
        let len = self.slots.len;
        (len == 0 || self.bit_number(len) <= body.len() as u128 * 8)
            && marks_fit(self.slots.marks, body, len)
    }
}

impl ArrayAccessor for BooleanArray {
    type Item = bool;

    ghost item = { λ a b i. Some (bit_set b (bool_bit a i)) };

    ghost source = { λ a b i. Some (bool_source (bit_set b (bool_bit a i))) };

    ghost item_need = { bool_need };

    ghost told = { λ v b. bool_number v };

    ghost item_needs = { λ a i l. needed_into (bool_need a i) (λ b. bit_set b (bool_bit a i)) (λ v. Some (bool_source v)) apart (bit_needed (bool_bit a i)) };

    ghost item_from = { λ a b c i l e. let z : bit_set b (bool_bit a i) ≡ bit_set c (bool_bit a i) = apart _ _ e in rw z refl };

    ghost item_told = { Prim.search rules };

    fn value(&self, body: &[u8], i: u64) -> Result<bool, Stop> {
        if i >= self.slots.len {
            return Err(Reason::IndexPastEnd.into());
        }
        bit(body, self.bit_number(i)).ok_or(Reason::BeyondBytes.into())
    }
}
