#![tactic(auto)]

ghost use Rattle.std.specs.Prelude.{◌≡◌, true, [], MatchResult};
ghost use Rattle.history.specs.Entry.Entry.{absent};
ghost use Rattle.history.specs.Calls.{TrialLeads, StopLeads};
ghost use Rattle.form.specs.Forms.{leaf_form};
ghost use Rattle.ledger.specs.Ledger.{Kept};
ghost use Rattle.null_array.specs.Nulls.{null_slots, null_cut, null_reply, null_seen};
ghost use Rattle.std.proofs.Common.{rules};

use array::array::Array;
use form::data_type::{DataType, Leaf};
use ledger::ledger::Ledger;
use ledger::stop::Stop;
use null_array::NullArray;
use slots::slots::Slots;
use slots::trials::try_slots;

pub mod null_array;

impl NullArray {
    // A null leaf of so many slots.
    pub fn try_new(ledger: &Ledger, body: &[u8], len: u64) -> Result<NullArray, Stop>
        ensures answers { result ≡ null_reply ledger.now body.now len }
        ensures leads { MatchResult result (λ h. TrialLeads body.now ledger.now.loaded [] (null_seen h)) (λ _. StopLeads) }
        ensures keeps { Kept ledger.now }
    {
        let slots = try_slots(ledger, body, 0, len, None)?;
        Ok(NullArray { len: slots.len })
    }

    // The slots, without marks.
    fn slots(&self) -> Slots
        ensures { result ≡ null_slots self.now }
    {
        Slots {
            first: 0,
            len: self.len,
            marks: None,
        }
    }
}

impl Array for NullArray {
    ghost size = { λ a. a.len };

    ghost form = { λ a. leaf_form 1 };

    ghost mark = { λ a b i. true };

    ghost mark_need = { λ a i. [] };

    ghost entry = { λ a b i. absent };

    ghost absent_need = { λ a i. [] };

    ghost shown = { λ a b i. absent };

    ghost spans = { λ a. [] };

    ghost cut = { null_cut };

    ghost seen = { null_seen };

    ghost sight = { Prim.search rules };

    ghost limit = { Prim.search rules };

    ghost null_absent = { Prim.search rules };

    ghost shown_entry = { Prim.search rules };

    ghost mark_needs = { Prim.search rules };

    ghost absent_needs = { Prim.search rules };

    ghost mark_alike = { Prim.search rules };

    ghost entry_alike = { Prim.search rules };

    ghost shown_alike = { Prim.search rules };

    ghost cut_size = { Prim.search rules };

    ghost cut_form = { Prim.search rules };

    ghost cut_mark = { Prim.search rules };

    ghost cut_entry = { Prim.search rules };

    ghost cut_shown = { Prim.search rules };

    ghost cut_spans = { Prim.search rules };

    fn len(&self) -> u64 {
        self.len
    }

    fn data_type(&self) -> DataType {
        Leaf::Null.into()
    }

    fn is_null(&self, body: &[u8], i: u64) -> Result<bool, Stop> {
        self.slots().is_null(body, i)
    }

    fn null_count(&self, _body: &[u8]) -> Result<u64, Stop> {
        Ok(0)
    }

    fn logical_null_count(&self, _body: &[u8]) -> Result<u64, Stop> {
        Ok(self.len)
    }

    fn slice(&self, start: u64, n: u64) -> Result<Self, Stop> {
        let Slots { len, .. } = self.slots().cut(start, n)?;
        Ok(NullArray { len })
    }

    fn fits(&self, _body: &[u8]) -> bool {
        true
    }
}
