#![tactic(auto)]

ghost use Rattle.std.specs.Prelude.{◌≡◌, ◌+◌, ◌*◌, ◌/◌, length, nat_le, refl};
ghost use Rattle.std.proofs.Common.{ap, rules};
ghost use Rattle.form.specs.Forms.{layer_form};
ghost use Rattle.slots.specs.Slots.{slot_mark, slot_need, slots_cut};
ghost use Rattle.array.specs.Lists.{list_shown, list_entry, list_spans, list_seen, slice_in, range_numbers, whole_window};
ghost use Rattle.array.specs.ItemLaws.{range_apart, item_told_lem};
ghost use Rattle.list_view_array.specs.Views.{view_of, view_found, view_reply, view_need, view_words, ranges_of, words_of};
ghost use Rattle.layout.proofs.NeedLaws.{mark_needed, needed_into};
ghost use Rattle.array.proofs.ListLaws.{list_absence, list_mark_alike, list_entry_alike, list_shown_alike, list_within};
ghost use Rattle.list_view_array.specs.ViewLaws.{view_inside, view_range_cut, view_words_cut, view_needed, few_bytes, ranged};
ghost use Rattle.slots.proofs.Leaves.{slots_mark};
ghost use Rattle.array.specs.Windows.{window_in};

use array::array::{Array, ArrayAccessor, ListLikeArray};
use array::list_accessor::list_value;
use array::offset_size::OffsetSizeTrait;
use form::data_type::{DataType, Field};
use layout::bits::marks_fit;
use layout::words::words_fit;
use ledger::stop::{Reason, Stop};
use list_view_array::GenericListViewArray;
use std::marker::PhantomData;

pub mod list_view_array;

// A start and a size as a range in a child of so many entries: both are read as unsigned numbers of 64 bits.
pub fn view_in(size: u64, start: i64, count: i64) -> Option<(u64, u64)>
    ensures { result ≡ view_of size start count }
{
    let from = start.cast_unsigned();
    let end = from.checked_add(count.cast_unsigned())?;
    (end <= size).then_some((from, end))
}

// The range of start and size number k in a child of so many entries.
fn view_at<O: OffsetSizeTrait>(
    body: &[u8],
    starts: u64,
    sizes: u64,
    k: u64,
    size: u64,
) -> Result<(u64, u64), Stop>
    ensures { result ≡ view_found size (view_reply O.WIDTH starts sizes body.now k) }
{
    let Some(start) = O::read_nth(body, starts, k) else {
        return Err(Reason::BeyondBytes.into());
    };
    let Some(count) = O::read_nth(body, sizes, k) else {
        return Err(Reason::BeyondBytes.into());
    };
    let Some(range) = view_in(size, start, count) else {
        return Err(Reason::NoRange.into());
    };
    Ok(range)
}

impl<O: OffsetSizeTrait, C: Array + Copy> Array for GenericListViewArray<O, C> {
    ghost size = { λ a. a.slots.len };

    ghost form = { λ a. layer_form (C.Array.form a.child) (10 + O.WIDTH / 8) };

    ghost mark = { λ a. slot_mark a.slots };

    ghost mark_need = { λ a. slot_need a.slots };

    ghost entry = { λ a. list_entry a.slots (C.Array.entry a.child) (ranges_of O.WIDTH C.Array.size a) };

    ghost absent_need = { λ a. slot_need a.slots };

    ghost shown = { λ a. list_shown (C.Array.entry a.child) (ranges_of O.WIDTH C.Array.size a) };

    ghost spans = { λ a. list_spans a.slots (words_of O.WIDTH a) (C.Array.spans a.child) };

    ghost cut = { λ a s n. record { starts = a.starts; sizes = a.sizes; slots = slots_cut a.slots s n; field = a.field; child = a.child; kind = a.kind } };

    ghost seen = { λ a. list_seen a.slots (C.Array.entry a.child) (ranges_of O.WIDTH C.Array.size a) (words_of O.WIDTH a) (C.Array.spans a.child) };

    ghost sight = { Prim.search rules };

    ghost limit = { Prim.search rules };

    ghost null_absent = { Prim.search rules };

    ghost shown_entry = { Prim.search rules };

    ghost mark_needs = { λ a i l. mark_needed a.slots.marks i };

    ghost absent_needs = { λ a i l. list_absence a.slots i (C.Array.entry a.child) (ranges_of O.WIDTH C.Array.size a) };

    ghost mark_alike = { λ a. list_mark_alike a.slots (words_of O.WIDTH a) (C.Array.spans a.child) };

    ghost entry_alike = { λ a. list_entry_alike (ranged O.WIDTH C.Array.size a) (C.Array.spans a.child) (C.Array.entry_alike a.child) };

    ghost shown_alike = { λ a. list_shown_alike (ranged O.WIDTH C.Array.size a) (C.Array.spans a.child) (C.Array.entry_alike a.child) };

    ghost cut_size = { Prim.search rules };

    ghost cut_form = { Prim.search rules };

    ghost cut_mark = { λ a s n l b i h. slots_mark a.slots s n l b i };

    ghost cut_entry = { λ a s n l b i h. rw (slots_mark a.slots s n l b i, view_range_cut O.WIDTH a.starts a.sizes a.slots (C.Array.size a.child) s n l b i) refl };

    ghost cut_shown = { λ a s n l b i h. ap (window_in (C.Array.entry a.child b)) (view_range_cut O.WIDTH a.starts a.sizes a.slots (C.Array.size a.child) s n l b i) };

    ghost cut_spans = { λ a s n l.
        let w = O.WIDTH in
        list_within a.slots s n (words_of w a) (view_words w a.starts a.sizes (slots_cut a.slots s n)) (C.Array.spans a.child) (C.Array.spans a.child) l
        (view_words_cut w a.starts a.sizes a.slots (C.Array.size a.child) s n l) (λ k p. p) };

    fn len(&self) -> u64 {
        self.slots.len
    }

    fn data_type(&self) -> DataType {
        self.child.data_type().with_layer(O::view_digit())
    }

    fn is_null(&self, body: &[u8], i: u64) -> Result<bool, Stop> {
        self.slots.is_null(body, i)
    }

    fn null_count(&self, body: &[u8]) -> Result<u64, Stop> {
        self.slots.null_count(body)
    }

    fn logical_null_count(&self, body: &[u8]) -> Result<u64, Stop> {
        self.null_count(body)
    }

    fn slice(&self, start: u64, n: u64) -> Result<Self, Stop> {
        let slots = self.slots.cut(start, n)?;
        Ok(GenericListViewArray {
            starts: self.starts,
            sizes: self.sizes,
            slots,
            field: self.field,
            child: self.child,
            kind: PhantomData,
        })
    }

    fn fits(&self, body: &[u8]) -> bool {
        let len = self.len();
        let end = self.slots.first + len;
        len == 0
            || words_fit::<O>(body, self.starts, end)
                && words_fit::<O>(body, self.sizes, end)
                && marks_fit(self.slots.marks, body, len)
                && self.child.fits(body)
    }
}

impl<O: OffsetSizeTrait, C: Array + Copy> ListLikeArray for GenericListViewArray<O, C> {
    type Child = C;

    ghost child = { λ a. a.child };

    ghost range = { ranges_of O.WIDTH C.Array.size };

    ghost range_need = { λ a. view_need O.WIDTH a.starts a.sizes a.slots };

    ghost range_needs = { λ a i l. view_needed O.WIDTH a.starts a.sizes a.slots (C.Array.size a.child) (few_bytes O.WIDTH O.OffsetSizeTrait.wide) i };

    ghost range_inside = { λ a b i l. view_inside O.WIDTH a.starts a.sizes a.slots (C.Array.size a.child) b i l };

    ghost shown_window = { Prim.search rules };

    ghost entry_window = { Prim.search rules };

    fn values(&self) -> C {
        self.child
    }

    fn element_range(&self, body: &[u8], i: u64) -> Result<(u64, u64), Stop> {
        if i >= self.slots.len {
            return Err(Reason::IndexPastEnd.into());
        }
        view_at::<O>(
            body,
            self.starts,
            self.sizes,
            self.slots.first + i,
            self.child.len(),
        )
    }
}

impl<O: OffsetSizeTrait, C: Array + Copy> ArrayAccessor for GenericListViewArray<O, C> {
    type Item = C;

    ghost item = { λ a b i. slice_in (C.Array.cut a.child) (ranges_of O.WIDTH C.Array.size a b i) };

    ghost source = { λ a b i. range_numbers (ranges_of O.WIDTH C.Array.size a b i) };

    ghost item_need = { λ a. view_need O.WIDTH a.starts a.sizes a.slots };

    ghost told = { λ h b. whole_window (C.Array.size h) (C.Array.entry h b) };

    ghost item_needs = { λ a i l. needed_into (view_need O.WIDTH a.starts a.sizes a.slots i) (λ b. ranges_of O.WIDTH C.Array.size a b i) range_numbers range_apart (view_needed O.WIDTH a.starts a.sizes a.slots (C.Array.size a.child) (few_bytes O.WIDTH O.OffsetSizeTrait.wide) i) };

    ghost item_from = { λ a b c i l e. ap (slice_in (C.Array.cut a.child)) (range_apart _ _ e) };

    ghost item_told = { λ a b i x l e m.
        let cs = C.Array.size a.child in
        rw m (item_told_lem cs (C.Array.entry a.child b) (C.Array.cut a.child) C.Array.size (λ h. C.Array.entry h b) (ranges_of O.WIDTH C.Array.size a b i) (view_inside O.WIDTH a.starts a.sizes a.slots cs b i l)
        (λ s n k. C.Array.cut_size a.child s n k) (λ s n k j q. C.Array.cut_entry a.child s n k b j q) x e) };

    fn value(&self, body: &[u8], i: u64) -> Result<C, Stop> {
        list_value(self, body, i)
    }
}

impl<O, C> GenericListViewArray<O, C> {
    // The field: whether entries may be absent, and the child's form.
    pub fn field(&self) -> Field
        ensures { result ≡ self.now.field }
    {
        self.field
    }
}
