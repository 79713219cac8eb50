ghost use Rattle.std.specs.Prelude.{◌≡◌, ℕ, ◌+◌, ◌≤◌, not};
ghost use Rattle.layout.specs.Marks.{marks_from};
ghost use Rattle.slots.specs.Bounds.{length_limit, mark_first};
ghost use Rattle.slots.specs.Replies.{ask_reply, count_reply, slice_reply, present_reply};
ghost use Rattle.slots.specs.Slots.{slot_mark, slot_need, slots_cut};

use crate::slots::Slots;
use layout::bits::{count_nulls, mark};
use layout::marks::Marks;
use ledger::stop::{Reason, Stop};

impl Slots {
    // The n slots from the slot `start` on.
    pub fn cut(self, start: u64, n: u64) -> Result<Slots, Stop>
        ensures { result ≡ slice_reply self.len start n (slots_cut self start n) }
    {
        if n > self.len || start > self.len - n {
            return Err(Reason::IndexPastEnd.into());
        }
        Ok(Slots {
            first: self.first + start,
            len: n,
            marks: marks_from(self.marks, start),
        })
    }

    // Whether slot i's mark is null.
    pub fn is_null(self, body: &[u8], i: u64) -> Result<bool, Stop>
        ensures { result ≡ ask_reply self.len (slot_need self) (λ j. not (slot_mark self body.now j)) body.now i }
    {
        Ok(!self.present(body, i)?)
    }

    // Whether slot i's mark is present.
    pub fn is_valid(self, body: &[u8], i: u64) -> Result<bool, Stop>
        ensures { result ≡ ask_reply self.len (slot_need self) (slot_mark self body.now) body.now i }
    {
        self.present(body, i)
    }

    fn present(self, body: &[u8], i: u64) -> Result<bool, Stop>
        ensures { result ≡ present_reply self.marks self.len body.now i }
    {
        if i >= self.len {
            return Err(Reason::IndexPastEnd.into());
        }
        mark(self.marks, body, i).ok_or(Reason::BeyondBytes.into())
    }

    // How many slots have a null mark.
    #[tactic(auto, using(crate::proofs::Asks::asked_count))]
    pub fn null_count(self, body: &[u8]) -> Result<u64, Stop>
        ensures { result ≡ count_reply self.len (slot_need self) (λ j. not (slot_mark self body.now j)) body.now }
    {
        count_nulls(self.marks, body, self.len).ok_or(Reason::BeyondBytes.into())
    }
}

// The marks from the slot `start` on.
fn marks_from(marks: Option<Marks>, start: u64) -> Option<Marks>
    requires { mark_first marks + start ≤ length_limit }
    ensures { result ≡ marks_from marks start }
{
    marks.map(|m| Marks {
        place: m.place,
        first: m.first + start,
    })
}
