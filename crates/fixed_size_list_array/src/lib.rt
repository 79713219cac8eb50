#![tactic(auto)]

ghost use Rattle.std.specs.Prelude.{◌≡◌, [], refl};
ghost use Rattle.std.proofs.Common.{ap, rules};
ghost use Rattle.form.specs.Forms.{fixed_form};
ghost use Rattle.slots.specs.Slots.{slot_mark, slot_need, slots_cut};
ghost use Rattle.array.specs.Lists.{list_shown, list_entry, list_spans, list_seen, slice_in, range_numbers, whole_window};
ghost use Rattle.array.specs.ItemLaws.{item_told_lem};
ghost use Rattle.fixed_size_list_array.specs.Fixed.{fixed_range, ranges_of, child_start, child_count};
ghost use Rattle.layout.proofs.NeedLaws.{mark_needed, needed_none};
ghost use Rattle.array.proofs.ListLaws.{list_absence, list_mark_alike, list_entry_alike, list_shown_alike, list_within};
ghost use Rattle.fixed_size_list_array.specs.FixedLaws.{cut_window, fixed_inside, child_fits, ranged};
ghost use Rattle.slots.proofs.Leaves.{slots_mark};

use array::array::{Array, ArrayAccessor, ListLikeArray};
use array::list_accessor::list_value;
use fixed_size_list_array::FixedSizeListArray;
use form::data_type::{DataType, Field};
use layout::bits::marks_fit;
use ledger::stop::{Reason, Stop};

pub mod fixed_size_list_array;

// Slot i's range in a child of so many entries.
pub fn fixed_range(size: u32, entries: u64, i: u64) -> Option<(u64, u64)>
    ensures { result ≡ fixed_range size entries i }
{
    let end = (i as u128 + 1) * size as u128;
    if end > entries as u128 {
        return None;
    }
    Some((i * size as u64, end as u64))
}

// Where a cut's entries begin in a child of so many entries.
fn child_start(size: u32, entries: u64, start: u64) -> u64
    ensures { result ≡ child_start size entries start }
{
    start.saturating_mul(size as u64).min(entries)
}

// How many they are.
fn child_count(size: u32, entries: u64, start: u64, n: u64) -> u64
    ensures { result ≡ child_count size entries start n }
{
    let left = entries - child_start(size, entries, start);
    n.saturating_mul(size as u64).min(left)
}

impl<C: Array + Copy> Array for FixedSizeListArray<C> {
    ghost size = { λ a. a.slots.len };

    ghost form = { λ a. fixed_form (C.Array.form a.child) a.size };

    ghost mark = { λ a. slot_mark a.slots };

    ghost mark_need = { λ a. slot_need a.slots };

    ghost entry = { λ a. list_entry a.slots (C.Array.entry a.child) (ranges_of C.Array.size a) };

    ghost absent_need = { λ a. slot_need a.slots };

    ghost shown = { λ a. list_shown (C.Array.entry a.child) (ranges_of C.Array.size a) };

    ghost spans = { λ a. list_spans a.slots [] (C.Array.spans a.child) };

    ghost cut = { λ a s n. record { slots = slots_cut a.slots s n; size = a.size; field = a.field; child = C.Array.cut a.child (child_start a.size (C.Array.size a.child) s) (child_count a.size (C.Array.size a.child) s n) } };

    ghost seen = { λ a. list_seen a.slots (C.Array.entry a.child) (ranges_of C.Array.size a) [] (C.Array.spans a.child) };

    ghost sight = { Prim.search rules };

    ghost limit = { Prim.search rules };

    ghost null_absent = { Prim.search rules };

    ghost shown_entry = { Prim.search rules };

    ghost mark_needs = { λ a i l. mark_needed a.slots.marks i };

    ghost absent_needs = { λ a i l. list_absence a.slots i (C.Array.entry a.child) (ranges_of C.Array.size a) };

    ghost mark_alike = { λ a. list_mark_alike a.slots [] (C.Array.spans a.child) };

    ghost entry_alike = { λ a. list_entry_alike (ranged C.Array.size a) (C.Array.spans a.child) (C.Array.entry_alike a.child) };

    ghost shown_alike = { λ a. list_shown_alike (ranged C.Array.size a) (C.Array.spans a.child) (C.Array.entry_alike a.child) };

    ghost cut_size = { Prim.search rules };

    ghost cut_form = { λ a s n l.
        let cs = C.Array.size a.child in
        ap (λ f. fixed_form f a.size) (C.Array.cut_form a.child (child_start a.size cs s) (child_count a.size cs s n) (child_fits a.size cs s n)) };

    ghost cut_mark = { λ a s n l b i h. slots_mark a.slots s n l b i };

    ghost cut_entry = { λ a s n l b i h.
        let cs = C.Array.size a.child in
        let at = child_start a.size cs s in
        let count = child_count a.size cs s n in
        let k = child_fits a.size cs s n in
        let part = C.Array.cut a.child at count in
        rw (
          slots_mark a.slots s n l b i,
          cut_window a.size cs s n i (C.Array.size part) h (C.Array.entry a.child b) (C.Array.entry part b) (C.Array.cut_size a.child at count k)
              (λ j q. C.Array.cut_entry a.child at count k b j q),
        ) refl };

    ghost cut_shown = { λ a s n l b i h.
        let cs = C.Array.size a.child in
        let at = child_start a.size cs s in
        let count = child_count a.size cs s n in
        let k = child_fits a.size cs s n in
        let part = C.Array.cut a.child at count in
        cut_window a.size cs s n i (C.Array.size part) h (C.Array.entry a.child b) (C.Array.entry part b) (C.Array.cut_size a.child at count k)
        (λ j q. C.Array.cut_entry a.child at count k b j q) };

    ghost cut_spans = { λ a s n l.
        let cs = C.Array.size a.child in
        let at = child_start a.size cs s in
        let count = child_count a.size cs s n in
        list_within a.slots s n [] [] (C.Array.spans a.child) (C.Array.spans (C.Array.cut a.child at count)) l (λ k q p. p)
        (C.Array.cut_spans a.child at count (child_fits a.size cs s n)) };

    fn len(&self) -> u64 {
        self.slots.len
    }

    fn data_type(&self) -> DataType {
        self.child.data_type().with_fixed(self.size)
    }

    fn is_null(&self, body: &[u8], i: u64) -> Result<bool, Stop> {
        self.slots.is_null(body, i)
    }

    fn null_count(&self, body: &[u8]) -> Result<u64, Stop> {
        self.slots.null_count(body)
    }

    fn logical_null_count(&self, body: &[u8]) -> Result<u64, Stop> {
        self.null_count(body)
    }

    fn slice(&self, start: u64, n: u64) -> Result<Self, Stop> {
        let slots = self.slots.cut(start, n)?;
        let entries = self.child.len();
        let child = self.child.slice(
            child_start(self.size, entries, start),
            child_count(self.size, entries, start, n),
        )?;
        Ok(FixedSizeListArray {
            slots,
            size: self.size,
            field: self.field,
            child,
        })
    }

    fn fits(&self, body: &[u8]) -> bool {
        let len = self.len();
        len == 0 || marks_fit(self.slots.marks, body, len) && self.child.fits(body)
    }
}

impl<C: Array + Copy> ListLikeArray for FixedSizeListArray<C> {
    type Child = C;

    ghost child = { λ a. a.child };

    ghost range = { ranges_of C.Array.size };

    ghost range_need = { λ a i. [] };

    ghost range_needs = { λ a i l. needed_none (fixed_range a.size (C.Array.size a.child) i) };

    ghost range_inside = { λ a b i l. fixed_inside a.size (C.Array.size a.child) i };

    ghost shown_window = { Prim.search rules };

    ghost entry_window = { Prim.search rules };

    fn values(&self) -> C {
        self.child
    }

    fn element_range(&self, _body: &[u8], i: u64) -> Result<(u64, u64), Stop> {
        if i >= self.slots.len {
            return Err(Reason::IndexPastEnd.into());
        }
        let Some(range) = fixed_range(self.size, self.child.len(), i) else {
            return Err(Reason::NoRange.into());
        };
        Ok(range)
    }
}

impl<C: Array + Copy> ArrayAccessor for FixedSizeListArray<C> {
    type Item = C;

    ghost item = { λ a b i. slice_in (C.Array.cut a.child) (ranges_of C.Array.size a b i) };

    ghost source = { λ a b i. range_numbers (ranges_of C.Array.size a b i) };

    ghost item_need = { λ a i. [] };

    ghost told = { λ h b. whole_window (C.Array.size h) (C.Array.entry h b) };

    ghost item_needs = { λ a i l. needed_none (range_numbers (fixed_range a.size (C.Array.size a.child) i)) };

    ghost item_from = { λ a b c i l e. refl };

    ghost item_told = { λ a b i x l e m.
        let cs = C.Array.size a.child in
        rw m (item_told_lem cs (C.Array.entry a.child b) (C.Array.cut a.child) C.Array.size (λ h. C.Array.entry h b) (ranges_of C.Array.size a b i) (fixed_inside a.size cs i)
        (λ s n k. C.Array.cut_size a.child s n k) (λ s n k j q. C.Array.cut_entry a.child s n k b j q) x e) };

    fn value(&self, body: &[u8], i: u64) -> Result<C, Stop> {
        list_value(self, body, i)
    }
}

impl<C> FixedSizeListArray<C> {
    // How many entries a slot has.
    pub fn value_length(&self) -> u32
        ensures { result ≡ self.now.size }
    {
        self.size
    }

    // The field: whether entries may be absent, and the child's form.
    pub fn field(&self) -> Field
        ensures { result ≡ self.now.field }
    {
        self.field
    }
}
