#![tactic(auto)]

ghost use Rattle.std.specs.Prelude.{◌≡◌, true, Ok};
ghost use Rattle.layout.specs.Spans.{in_body};
ghost use Rattle.form.specs.Forms.{layer_reply};
ghost use Rattle.ledger.specs.Ledger.{Kept};
ghost use Rattle.checks.specs.Checks.{child_reply, own_reply, absents, absent_count, absent_reply, same_form, field_reply};

use array::array::Array;
use form::data_type::{DataType, Field};
use ledger::ledger::Ledger;
use ledger::stop::{Reason, Stop};
use slots::null_buffer::NullBuffer;
use slots::trials::check_bytes;

// Stops where the body's length is not the ledger's, where own bytes, which end at `own`, or marks are not loaded, or
// where a bit that the child rests on lies beyond the body.
pub fn check_own<C: Array>(
    ledger: &Ledger,
    body: &[u8],
    own: u128,
    nulls: Option<NullBuffer>,
    child: &C,
) -> Result<(), Stop>
    ensures answers { result ≡ own_reply ledger.now body.now own nulls (C.Array.spans child.now) }
    ensures keeps { Kept ledger.now }
{
    check_bytes(ledger, body, own, nulls)?;
    if !child.fits(body) {
        return Err(Reason::BeyondBytes.into());
    }
    Ok(())
}

// Stops where the field is not nullable and an entry of the child is absent.
pub fn check_absent<C: Array>(body: &[u8], nullable: bool, child: &C) -> Result<(), Stop>
    ensures { result ≡ absent_reply nullable (absent_count C.Array child.now body.now) }
{
    if !nullable && child.logical_null_count(body)? != 0 {
        return Err(Reason::EntryAbsent.into());
    }
    Ok(())
}

// Stops where the field's form is not the child's.
pub fn check_form(form: DataType, child: DataType) -> Result<(), Stop>
    ensures { result ≡ same_form form child }
{
    if form != child {
        return Err(Reason::FormDiffers.into());
    }
    Ok(())
}

// The last tests of a list's or a view's trial.
pub fn check_field<C: Array>(body: &[u8], field: Field, child: &C, digit: u8) -> Result<(), Stop>
    ensures answers { result ≡ field_reply field (absent_count C.Array child.now body.now) (C.Array.form child.now) (layer_reply (C.Array.form child.now) digit) }
    ensures counted { in_body (C.Array.spans child.now) body.now ≡ true → result ≡ field_reply field (Ok (absents (C.Array.size child.now) (C.Array.entry child.now body.now))) (C.Array.form child.now) (layer_reply (C.Array.form child.now) digit) }
{
    check_absent(body, field.nullable, child)?;
    let form = child.data_type();
    check_form(field.form, form)?;
    form.layer(digit).map(|_| ())
}
