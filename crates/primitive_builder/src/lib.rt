#![tactic(auto)]

ghost use Rattle.std.specs.Prelude.{◌≡◌, ℕ, ◌+◌, ◌*◌, ◌%◌, ◌^◌, ◌<◌, ◌≤◌, Bool, true, false, [], map, ℤ, is_some, Ok};
ghost use Rattle.std.proofs.Common.{ap, subst, rules};
ghost use Rattle.form.specs.Forms.{leaf_form};
ghost use Rattle.slots.specs.Trials.{new_slots};
ghost use Rattle.primitive_array.specs.Numbers.{number_entry, number_spans};
ghost use Rattle.rows.specs.Rows.{rows_put, nulls_at, listed};
ghost use Rattle.builder.specs.Leaves.{leaf_means, leaf_slot, leaf_row};
ghost use Rattle.builder.specs.Tables.{step_slots};
ghost use Rattle.layout.specs.Words.{written};
ghost use Rattle.primitive_builder.specs.Numbers.{number_row, number_leaf, put_number, put_numbers, grown, number_own, number_rests, NumbersInside};
ghost use Rattle.builder.proofs.LeafLaws.{leaf_count, leaf_lawful};
ghost use Rattle.primitive_builder.specs.BuilderLaws.{number_framed, number_owned, number_within, number_stays, number_goes, shot_slots, number_shows, tied_read};
ghost use Rattle.builder.specs.Steps.{Shows};
ghost use Rattle.slots.specs.Slots.{slot_mark};

use array::array::Array;
use builder::builder::ArrayBuilder;
use builder::leaf::{check_leaf, leaf_row};
use builder::step::Step;
use layout::native::ArrowNativeType;
use layout::words::put_nth;
use ledger::stop::{Reason, Stop};
use primitive_array::primitive_array::PrimitiveArray;
use primitive_array::types::ArrowPrimitiveType;
use primitive_builder::PrimitiveBuilder;
use rows::rows::Rows;
use rows::{nulls_at, put_bit};
use slots::slots::Slots;
use std::marker::PhantomData;

pub mod primitive_builder;

// Writes n rows behind those that are taken.
fn put_rows<T: ArrowPrimitiveType>(
    body: &mut [u8],
    rows: Rows,
    place: u64,
    n: u64,
    mark: bool,
    number: T::Native,
)
    requires { (rows.count + n < 2 ^ 64) × (T.Native.to_word number < 256 ^ T.ArrowPrimitiveType.width) }
    ensures { body.new ≡ rows_put (λ j. put_number T.ArrowPrimitiveType.width rows place mark (T.Native.to_word number) (rows.count + j)) n body.old }
{
    for i in 0..n {
        let k = rows.count + i;
        put_bit(body, rows.marks, k, mark);
        let _ = put_nth(body, place, k, number);
    }
}

impl<T: ArrowPrimitiveType> ArrayBuilder for PrimitiveBuilder<T> {
    type Out = PrimitiveArray<T>;

    ghost size = { λ a. a.length };

    ghost count = { λ a. a.rows.count };

    ghost means = { λ a b. leaf_means (λ v. is_some (T.Native.word v)) (leaf_form T.ArrowPrimitiveType.DIGIT) (number_leaf T.ArrowPrimitiveType.width T.ArrowPrimitiveType.whole a.rows a.numbers b) };

    ghost shown = { λ a b i. (leaf_slot (number_row T.ArrowPrimitiveType.width T.ArrowPrimitiveType.whole a.rows a.numbers b i)).entry };

    ghost own = { λ a. number_own T.ArrowPrimitiveType.width a.rows a.numbers };

    ghost rests = { λ a. number_rests T.ArrowPrimitiveType.width a.rows a.numbers };

    ghost inside = { λ a. NumbersInside T.ArrowPrimitiveType.width a.length a.rows a.numbers };

    ghost apart = { λ a. Unit {0} };

    ghost next = { λ a d s. record { length = a.length; rows = grown a.rows (step_slots s); numbers = a.numbers; kind = a.kind } };

    ghost puts = { λ a d s b. put_numbers T.ArrowPrimitiveType.width T.Native.word a.rows a.numbers s b };

    ghost shot = { λ a b. Ok (record { place = a.numbers; slots = new_slots a.rows.count (nulls_at b a.rows.marks a.rows.count); kind = record {} }) };

    ghost counted = { λ a b. leaf_count (number_row T.ArrowPrimitiveType.width T.ArrowPrimitiveType.whole a.rows a.numbers b) a.rows.count };

    ghost lawful = { λ a b. leaf_lawful (λ v. is_some (T.Native.word v)) (leaf_form T.ArrowPrimitiveType.DIGIT) (number_leaf T.ArrowPrimitiveType.width T.ArrowPrimitiveType.whole a.rows a.numbers b) };

    ghost framed = { λ a b c h. ap (leaf_means (λ v. is_some (T.Native.word v)) (leaf_form T.ArrowPrimitiveType.DIGIT)) (number_framed T.ArrowPrimitiveType.width T.ArrowPrimitiveType.whole a.rows a.numbers b c h) };

    ghost owned = { λ a i. number_owned T.ArrowPrimitiveType.width T.ArrowPrimitiveType.whole a.rows a.numbers a.length i };

    ghost within = { λ a i. number_within T.ArrowPrimitiveType.width T.ArrowPrimitiveType.whole a.rows a.numbers a.length i };

    ghost same_size = { Prim.search rules };

    ghost stays = { λ a b d s i e. number_stays T.ArrowPrimitiveType.width T.ArrowPrimitiveType.whole T.Native.word T.Native.zero_word (tied_read {f = λ n. T.Native.whole (T.Native.of_word n)} T.ArrowPrimitiveType.native_width T.ArrowPrimitiveType.native_whole T.Native.word_read) a.length a.rows a.numbers b d s i e };

    ghost keeps_apart = { Prim.search rules };

    ghost goes = { λ a b d s i q l e. number_goes T.ArrowPrimitiveType.width T.ArrowPrimitiveType.whole T.Native.word T.Native.zero_word (tied_read {f = λ n. T.Native.whole (T.Native.of_word n)} T.ArrowPrimitiveType.native_width T.ArrowPrimitiveType.native_whole T.Native.word_read) (leaf_form T.ArrowPrimitiveType.DIGIT) a.length a.rows a.numbers b d s i l e };

    ghost shot_form = { Prim.search rules };

    ghost shot_shows = { λ a b h i e.
        let w = T.ArrowPrimitiveType.width in
        let whole = T.ArrowPrimitiveType.whole in
        let q : record { place = a.numbers; slots = shot_slots w whole a.rows a.numbers b a.length i; kind = record {} } ≡ h = cc in
        subst (λ x. Shows (map leaf_slot (listed (number_row w whole a.rows a.numbers b) a.rows.count)) (λ k. (leaf_slot (number_row w whole a.rows a.numbers b k)).entry) (number_rests w a.rows a.numbers) a.rows.count
        x.slots.len (slot_mark x.slots b) (number_entry w whole x.place x.slots b) (number_entry w whole x.place x.slots b) (number_spans w x.place x.slots)) q
        (number_shows w whole a.rows a.numbers b a.length i) };

    fn body_len(&self) -> u64 {
        self.length
    }

    fn len(&self) -> u64 {
        self.rows.count
    }

    fn take(&mut self, body: &mut [u8], depth: u32, step: Step) -> Result<(), Stop> {
        if body.len() as u64 != self.length {
            return Err(Reason::BodyLengthDiffers.into());
        }
        if depth != 0 {
            return Err(Reason::NoSuchStep.into());
        }
        let (mark, v) = leaf_row(step);
        let number = T::Native::from_i64(v);
        check_leaf(self.rows, step, number.is_some())?;
        let number = number.ok_or(Reason::NumberOutOfRange)?;
        let n = step.slots();
        put_rows::<T>(body, self.rows, self.numbers, n, mark, number);
        self.rows.count += n;
        Ok(())
    }

    fn finish_cloned(&self, body: &[u8]) -> Result<PrimitiveArray<T>, Stop> {
        if body.len() as u64 != self.length {
            return Err(Reason::BodyLengthDiffers.into());
        }
        let nulls = nulls_at(body, self.rows.marks, self.rows.count);
        let slots = Slots::new(self.rows.count, nulls)?;
        Ok(PrimitiveArray {
            place: self.numbers,
            slots,
            kind: PhantomData,
        })
    }
}
