#![tactic(auto)]

ghost use Rattle.std.specs.Prelude.{◌≡◌, ℕ, ◌+◌, ◌-◌, Bool, true, false, not, ◌∷◌, IfOk};
ghost use Rattle.history.specs.Entry.{entries_from};
ghost use Rattle.history.specs.Entry.Entry.{window};
ghost use Rattle.history.specs.Moments.{Moment, Traced, In, Reached};
ghost use Rattle.slots.specs.Replies.{ask_reply, find_reply};
ghost use Rattle.runs.specs.Replies.{FirstShowed, Behind};

use array::array::{Array, ArrayAccessor, ListLikeArray};
use array::cuts::cut;
use ledger::stop::Stop;

// Whether mark i is null; after any list of calls, that is the mark of slot i + distance of the first handle as it was made.
pub fn null_in_run<A: Array>(a: &A, body: &[u8], i: u64) -> Result<bool, Stop>
    ensures answers { result ≡ ask_reply (A.Array.size a.now) (A.Array.mark_need a.now) (λ j. not (A.Array.mark a.now body.now j)) body.now i }
    ensures trail { IfOk result (λ v. FirstShowed (A.Array.seen a.now) body.now i (λ s. v ≡ not s.present)) }
{
    a.is_null(body, i)
}

// Slot i's range; after any list of calls, its entries in the child are those that slot i + distance of the first handle
// showed as it was made.
pub fn range_in_run<L: ListLikeArray>(a: &L, body: &[u8], i: u64) -> Result<(u64, u64), Stop>
    ensures answers { result ≡ find_reply (L.Array.size a.now) (L.ListLikeArray.range_need a.now) (L.ListLikeArray.range a.now body.now) body.now i }
    ensures trail { IfOk result (λ p. FirstShowed (L.Array.seen a.now) body.now i (λ s. s.entry ≡ window (entries_from (L.Child.Array.entry (L.ListLikeArray.child a.now) body.now) p.0 (p.1 - p.0)))) }
{
    a.element_range(body, i)
}

// What slot i holds; after any list of calls, where the slot is present, that is what slot i + distance of the first handle
// showed as it was made.
pub fn value_in_run<A: ArrayAccessor>(a: &A, body: &[u8], i: u64) -> Result<A::Item, Stop>
    ensures answers { result ≡ find_reply (A.Array.size a.now) (A.ArrayAccessor.item_need a.now) (A.ArrayAccessor.item a.now body.now) body.now i }
    ensures trail { IfOk result (λ v. (A.Array.mark a.now body.now i ≡ true → FirstShowed (A.Array.seen a.now) body.now i (λ s. s.entry ≡ A.ArrayAccessor.told v body.now))) }
{
    a.value(body, i)
}

// Two cuts, one after the other: from any moment that a run leads to, they lead to one with a handle behind which both are.
pub fn cut_twice<A: Array + Drop>(a: &A, start: u64, n: u64, then: u64, k: u64) -> Result<A, Stop>
    ensures { IfOk result (λ h. ((m : Moment) (y : Traced) → Reached m → In y m.handles → y.handle ≡ A.Array.seen a.now → Behind m y ((then, k) ∷ (start, n) ∷ y.cuts) (A.Array.seen h))) }
{
    let once = cut(a, start, n)?;
    cut(&once, then, k)
}
