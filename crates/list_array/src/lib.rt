#![tactic(auto)]

ghost use Rattle.std.specs.Prelude.{◌≡◌, ◌+◌, ◌/◌, refl};
ghost use Rattle.std.proofs.Common.{ap, rules};
ghost use Rattle.form.specs.Forms.{layer_form};
ghost use Rattle.slots.specs.Slots.{slot_mark, slot_need, slots_cut};
ghost use Rattle.array.specs.Lists.{list_shown, list_entry, list_spans, list_seen, slice_in, range_numbers, whole_window};
ghost use Rattle.array.specs.ItemLaws.{range_apart, item_told_lem};
ghost use Rattle.list_array.specs.Offsets.{pair_reply, pair_found, range_of, list_need, list_words, ranges_of, words_of};
ghost use Rattle.layout.proofs.NeedLaws.{mark_needed, needed_into};
ghost use Rattle.array.proofs.ListLaws.{list_absence, list_mark_alike, list_entry_alike, list_shown_alike, list_within};
ghost use Rattle.list_array.specs.OffsetLaws.{list_inside, list_range_cut, list_words_cut, list_needed, ranged};
ghost use Rattle.slots.proofs.Leaves.{slots_mark};
ghost use Rattle.array.specs.Windows.{window_in};

use array::array::{Array, ArrayAccessor, ListLikeArray};
use array::list_accessor::list_value;
use array::offset_size::OffsetSizeTrait;
use form::data_type::{DataType, Field};
use layout::bits::marks_fit;
use layout::words::words_fit;
use ledger::stop::{Reason, Stop};
use list_array::GenericListArray;
use std::marker::PhantomData;

pub mod list_array;

// The offsets numbered k and k + 1 after a place, or nothing where one lies beyond the body.
pub fn offset_pair<O: OffsetSizeTrait>(body: &[u8], place: u64, k: u64) -> Option<(i64, i64)>
    ensures { result ≡ pair_reply O.WIDTH place body.now k }
{
    if !words_fit::<O>(body, place, k.checked_add(2)?) {
        return None;
    }
    let at = place + O::WIDTH * k;
    let lo = O::read(body, at)?;
    let hi = O::read(body, at + O::WIDTH)?;
    Some((lo, hi))
}

// Two numbers as a range in a child of so many entries.
pub fn range_in(size: u64, lo: i64, hi: i64) -> Option<(u64, u64)>
    ensures { result ≡ range_of size lo hi }
{
    let from = u64::try_from(lo).ok()?;
    let end = u64::try_from(hi).ok()?;
    (from <= end && end <= size).then_some((from, end))
}

// The range of two offsets in a child of so many entries.
fn range_at<O: OffsetSizeTrait>(
    body: &[u8],
    place: u64,
    k: u64,
    size: u64,
) -> Result<(u64, u64), Stop>
    ensures { result ≡ pair_found size (pair_reply O.WIDTH place body.now k) }
{
    let Some((lo, hi)) = offset_pair::<O>(body, place, k) else {
        return Err(Reason::BeyondBytes.into());
    };
    let Some(range) = range_in(size, lo, hi) else {
        return Err(Reason::NoRange.into());
    };
    Ok(range)
}

impl<O: OffsetSizeTrait, C: Array + Copy> Array for GenericListArray<O, C> {
    ghost size = { λ a. a.slots.len };

    ghost form = { λ a. layer_form (C.Array.form a.child) (8 + O.WIDTH / 8) };

    ghost mark = { λ a. slot_mark a.slots };

    ghost mark_need = { λ a. slot_need a.slots };

    ghost entry = { λ a. list_entry a.slots (C.Array.entry a.child) (ranges_of O.WIDTH C.Array.size a) };

    ghost absent_need = { λ a. slot_need a.slots };

    ghost shown = { λ a. list_shown (C.Array.entry a.child) (ranges_of O.WIDTH C.Array.size a) };

    ghost spans = { λ a. list_spans a.slots (words_of O.WIDTH a) (C.Array.spans a.child) };

    ghost cut = { λ a s n. record { place = a.place; slots = slots_cut a.slots s n; field = a.field; child = a.child; kind = a.kind } };

    ghost seen = { λ a. list_seen a.slots (C.Array.entry a.child) (ranges_of O.WIDTH C.Array.size a) (words_of O.WIDTH a) (C.Array.spans a.child) };

    ghost sight = { Prim.search rules };

    ghost limit = { Prim.search rules };

    ghost null_absent = { Prim.search rules };

    ghost shown_entry = { Prim.search rules };

    ghost mark_needs = { λ a i l. mark_needed a.slots.marks i };

    ghost absent_needs = { λ a i l. list_absence a.slots i (C.Array.entry a.child) (ranges_of O.WIDTH C.Array.size a) };

    ghost mark_alike = { λ a. list_mark_alike a.slots (words_of O.WIDTH a) (C.Array.spans a.child) };

    ghost entry_alike = { λ a. list_entry_alike (ranged O.WIDTH C.Array.size a) (C.Array.spans a.child) (C.Array.entry_alike a.child) };

    ghost shown_alike = { λ a. list_shown_alike (ranged O.WIDTH C.Array.size a) (C.Array.spans a.child) (C.Array.entry_alike a.child) };

    ghost cut_size = { Prim.search rules };

    ghost cut_form = { Prim.search rules };

    ghost cut_mark = { λ a s n l b i h. slots_mark a.slots s n l b i };

    ghost cut_entry = { λ a s n l b i h. rw (slots_mark a.slots s n l b i, list_range_cut O.WIDTH a.place a.slots (C.Array.size a.child) s n l b i) refl };

    ghost cut_shown = { λ a s n l b i h. ap (window_in (C.Array.entry a.child b)) (list_range_cut O.WIDTH a.place a.slots (C.Array.size a.child) s n l b i) };

    ghost cut_spans = { λ a s n l.
        let w = O.WIDTH in
        list_within a.slots s n (words_of w a) (list_words w a.place (slots_cut a.slots s n)) (C.Array.spans a.child) (C.Array.spans a.child) l
        (list_words_cut w a.place a.slots (C.Array.size a.child) s n l) (λ k p. p) };

    fn len(&self) -> u64 {
        self.slots.len
    }

    fn data_type(&self) -> DataType {
        self.child.data_type().with_layer(O::list_digit())
    }

    fn is_null(&self, body: &[u8], i: u64) -> Result<bool, Stop> {
        self.slots.is_null(body, i)
    }

    fn null_count(&self, body: &[u8]) -> Result<u64, Stop> {
        self.slots.null_count(body)
    }

    fn logical_null_count(&self, body: &[u8]) -> Result<u64, Stop> {
        self.null_count(body)
    }

    fn slice(&self, start: u64, n: u64) -> Result<Self, Stop> {
        let slots = self.slots.cut(start, n)?;
        Ok(GenericListArray {
            place: self.place,
            slots,
            field: self.field,
            child: self.child,
            kind: PhantomData,
        })
    }

    fn fits(&self, body: &[u8]) -> bool {
        let len = self.len();
        len == 0
            || words_fit::<O>(body, self.place, self.slots.first + len + 1)
                && marks_fit(self.slots.marks, body, len)
                && self.child.fits(body)
    }
}

impl<O: OffsetSizeTrait, C: Array + Copy> ListLikeArray for GenericListArray<O, C> {
    type Child = C;

    ghost child = { λ a. a.child };

    ghost range = { ranges_of O.WIDTH C.Array.size };

    ghost range_need = { λ a. list_need O.WIDTH a.place a.slots };

    ghost range_needs = { λ a i l. list_needed O.WIDTH a.place a.slots (C.Array.size a.child) i };

    ghost range_inside = { λ a b i l. list_inside O.WIDTH a.place a.slots (C.Array.size a.child) b i l };

    ghost shown_window = { Prim.search rules };

    ghost entry_window = { Prim.search rules };

    fn values(&self) -> C {
        self.child
    }

    fn element_range(&self, body: &[u8], i: u64) -> Result<(u64, u64), Stop> {
        if i >= self.slots.len {
            return Err(Reason::IndexPastEnd.into());
        }
        range_at::<O>(body, self.place, self.slots.first + i, self.child.len())
    }
}

impl<O: OffsetSizeTrait, C: Array + Copy> ArrayAccessor for GenericListArray<O, C> {
    type Item = C;

    ghost item = { λ a b i. slice_in (C.Array.cut a.child) (ranges_of O.WIDTH C.Array.size a b i) };

    ghost source = { λ a b i. range_numbers (ranges_of O.WIDTH C.Array.size a b i) };

    ghost item_need = { λ a. list_need O.WIDTH a.place a.slots };

    ghost told = { λ h b. whole_window (C.Array.size h) (C.Array.entry h b) };

    ghost item_needs = { λ a i l. needed_into (list_need O.WIDTH a.place a.slots i) (λ b. ranges_of O.WIDTH C.Array.size a b i) range_numbers range_apart (list_needed O.WIDTH a.place a.slots (C.Array.size a.child) i) };

    ghost item_from = { λ a b c i l e. ap (slice_in (C.Array.cut a.child)) (range_apart _ _ e) };

    ghost item_told = { λ a b i x l e m.
        let cs = C.Array.size a.child in
        rw m (item_told_lem cs (C.Array.entry a.child b) (C.Array.cut a.child) C.Array.size (λ h. C.Array.entry h b) (ranges_of O.WIDTH C.Array.size a b i) (list_inside O.WIDTH a.place a.slots cs b i l)
        (λ s n k. C.Array.cut_size a.child s n k) (λ s n k j q. C.Array.cut_entry a.child s n k b j q) x e) };

    fn value(&self, body: &[u8], i: u64) -> Result<C, Stop> {
        list_value(self, body, i)
    }
}

impl<O, C> GenericListArray<O, C> {
    // The field: whether entries may be absent, and the child's form.
    pub fn field(&self) -> Field
        ensures { result ≡ self.now.field }
    {
        self.field
    }
}
